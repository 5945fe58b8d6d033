//! Prints the cube of feeds on one thread, to be timed beside `datacube print`.
//!
//! Its words are the file of a schema and those of the feeds, one for each source. With no word it prints the sample
//! schema's cube of no facts.
use anyhow::{Result, ensure};
use cube_core::Schema;
use cube_tool::run_plain;
use std::fs;
use std::fs::File;

/// Prints the cube of the feeds under the schema that the words name.
pub fn run(rt: &HostRuntime, words: &[String]) -> Result<()> {
    let alloc = rt.alloc();
    match words {
        [schema, paths @ ..] => {
            let document = fs::read(rt, schema)?;
            print(rt, &Schema::from_toml(alloc, &document)?, paths)
        }
        [] => print(rt, &Schema::sample(alloc)?, words),
    }
}

fn print(rt: &HostRuntime, schema: &Schema, paths: &[String]) -> Result<()> {
    let feeds = opened(rt, paths)?;
    ensure!(feeds.len() <= 64, "at most 64 feeds");
    run_plain(rt.alloc(), schema, feeds, &mut rt.stdout())?;
    Ok(())
}

fn opened(rt: &HostRuntime, paths: &[String]) -> Result<Vec<File>> {
    let mut files = Vec::new(rt.alloc());
    for path in paths {
        files.push(File::open(rt, path)?)?;
    }
    Ok(files)
}
