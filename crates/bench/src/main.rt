//! The benchmarks of docs/PERFORMANCE.md: a sub-command for each, with words of its own.
//!
//! - `bench feed [INSERTS]`: the reader of a feed
//! - `bench fill [SCHEMA FEED...]`: the building of a cube from feeds
//! - `bench run [SCHEMA FEED...]`: prints the cube of feeds on one thread, to be timed beside `datacube print`
//!
//! Without words of its own a sub-command does a small case, and prints what doesn't depend on the time that it takes.
#![tactic(auto)]

mod feed;
mod fill;
mod measure;
mod run;

use anyhow::Result;
use std::env;
use std::process::ExitCode;

const USAGE: &str = "usage: bench feed|fill|run [WORD]...";

// What is measured.
enum Subcommand {
    Feed,
    Fill,
    Run,
}

impl Subcommand {
    fn named(word: &str) -> Option<Subcommand> {
        match word {
            "feed" => Some(Subcommand::Feed),
            "fill" => Some(Subcommand::Fill),
            "run" => Some(Subcommand::Run),
            _ => None,
        }
    }
}

fn main(rt: HostRuntime) -> Result<ExitCode> {
    let mut words = env::args(&rt)?;
    let _program = words.next();
    let name = words.next();
    let words: Vec<String> = words.collect(rt.alloc())?;
    let Some(subcommand) = name.and_then(|name| Subcommand::named(name.as_str())) else {
        rt.eprintln(USAGE)?;
        return Ok(ExitCode::from(2));
    };
    match subcommand {
        Subcommand::Feed => feed::run(&rt, &words)?,
        Subcommand::Fill => fill::run(&rt, &words)?,
        Subcommand::Run => run::run(&rt, &words)?,
    }
    Ok(ExitCode::SUCCESS)
}
