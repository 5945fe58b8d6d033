//! The command line as clap reads it, made of the tables of the commands.
ghost use Rattle.std.specs.Prelude.{◌≡◌, IfOk, false};
ghost use Rattle.clap.specs.Words.{app_of, new_app, rule_of, with_subcommand};
ghost use Rattle.clap.specs.declared.builder.command.Command.TheViews.{out-Command as fields_of};
ghost use Rattle.cube_console.specs.CommandLine.{command_line, line_of, named_line, rule_of_word, with_feeds_of, with_lines, with_own_files, with_prints, with_views, with_words};

use crate::commands::{
    ABOUT, AFTER_HELP, Form, Line, OWN_FILES, PRINTS, RUN_WORDS, SESSIONS, USAGE, VERSION, VIEWS,
    Word,
};
use clap::builder::ValueParser;
use clap::{Arg, ArgAction, Command};
use std::alloc::{AllocError, Global};

/// The program's command line.
pub(crate) fn program<'a>(alloc: Global) -> Result<Command<'a>, AllocError>
    ensures { IfOk result (λ command. app_of command ≡ command_line) }
{
    with_commands(alloc, with_views(alloc)?, &SESSIONS)
}

// The command line with all commands before those for sessions.
fn with_views<'a>(alloc: Global) -> Result<Command<'a>, AllocError>
    ensures { IfOk result (λ command. app_of command ≡ with_views (with_prints (with_own_files named_line))) }
{
    with_commands(alloc, with_prints(alloc)?, &VIEWS)
}

// The command line with the commands that say whether a schema is right, what its cube is and what is refused.
fn with_prints<'a>(alloc: Global) -> Result<Command<'a>, AllocError>
    ensures { IfOk result (λ command. app_of command ≡ with_prints (with_own_files named_line)) }
{
    with_commands(alloc, with_own_files(alloc)?, &PRINTS)
}

// The command line with the commands over files of people's own.
fn with_own_files<'a>(alloc: Global) -> Result<Command<'a>, AllocError>
    ensures { IfOk result (λ command. app_of command ≡ with_own_files named_line) }
{
    with_commands(alloc, named(alloc)?, &OWN_FILES)
}

// The program's own settings.
fn named<'a>(alloc: Global) -> Result<Command<'a>, AllocError>
    ensures { IfOk result (λ command. app_of command ≡ named_line) }
{
    Command::new(alloc, "datacube")
        .about(ABOUT)
        .version(VERSION)
        .override_usage(USAGE)
        .after_help(AFTER_HELP)
        .disable_help_subcommand(true)
        .bin_name("datacube")
}

// The command line with these commands.
fn with_commands<'a>(
    alloc: Global,
    program: Command<'a>,
    lines: &[Line<'a>],
) -> Result<Command<'a>, AllocError>
    ensures { IfOk result (λ all. app_of all ≡ with_lines (app_of program.entry) lines.now) }
{
    let mut all = program;
    for line in lines {
        all = with_command(alloc, all, line)?;
    }
    Ok(all)
}

// The command line with one more command.
fn with_command<'a>(
    alloc: Global,
    program: Command<'a>,
    line: &Line<'a>,
) -> Result<Command<'a>, AllocError>
    ensures { IfOk result (λ all. app_of all ≡ with_subcommand (app_of program.entry) (line_of line.now).top) }
{
    let command = command(alloc, line)?;
    program.subcommand(command)
}

// A command with its words.
fn command<'a>(alloc: Global, line: &Line<'a>) -> Result<Command<'a>, AllocError>
    ensures line { IfOk result (λ made. app_of made ≡ line_of line.now) }
    ensures local { IfOk result (λ made. (fields_of made).has_globals ≡ false) }
{
    let own = with_words(alloc, described(alloc, line), line.words)?;
    let fed = with_feeds(alloc, own, line)?;
    with_words(alloc, fed, line.options)
}

// A command without words, with what its help says of it and at the end.
fn described<'a>(alloc: Global, line: &Line<'a>) -> Command<'a>
    ensures line { app_of result ≡ new_app line.now.name.now }
    ensures local { (fields_of result).has_globals ≡ false }
{
    let command = Command::new(alloc, line.name).about(line.about);
    match line.after {
        Some(after) => command.after_help(after),
        None => command,
    }
}

// A command with the feeds and the options of a run behind its words, where it is one.
fn with_feeds<'a>(
    alloc: Global,
    command: Command<'a>,
    line: &Line<'a>,
) -> Result<Command<'a>, AllocError>
    requires { (fields_of command).has_globals ≡ false }
    ensures line { IfOk result (λ all. app_of all ≡ with_feeds_of line.now (app_of command.entry)) }
    ensures local { IfOk result (λ all. (fields_of all).has_globals ≡ false) }
{
    if !line.is_run {
        return Ok(command);
    }
    with_words(alloc, command, &RUN_WORDS)
}

// A command with these words and options behind its own.
fn with_words<'a>(
    alloc: Global,
    command: Command<'a>,
    words: &[Word<'a>],
) -> Result<Command<'a>, AllocError>
    requires { (fields_of command).has_globals ≡ false }
    ensures line { IfOk result (λ all. app_of all ≡ with_words (app_of command.entry) words.now) }
    ensures local { IfOk result (λ all. (fields_of all).has_globals ≡ false) }
{
    let mut all = command;
    for word in words {
        all = all.arg(argument(alloc, word))?;
    }
    Ok(all)
}

// A word or an option.
fn argument<'a>(alloc: Global, word: &Word<'a>) -> Arg<'a>
    ensures rule { rule_of result ≡ rule_of_word word.now }
    ensures own { result.global ≡ false }
{
    let argument = Arg::new(alloc, word.name)
        .help(word.help)
        .required(word.is_needed);
    match word.form {
        Form::One => argument,
        Form::Several => argument.num_args(1..),
        Form::Flag => argument.long(word.name).action(ArgAction::SetTrue),
        Form::Text(value) => argument.long(word.name).value_name(value),
        Form::Texts(value) => argument
            .long(word.name)
            .value_name(value)
            .action(ArgAction::Append),
        Form::Number(most, default) => argument
            .long(word.name)
            .value_name("N")
            .value_parser(ValueParser::Unsigned(1, most))
            .default_values(default),
        Form::Between(least, most) => argument
            .long(word.name)
            .value_name("N")
            .value_parser(ValueParser::Unsigned(least, most)),
    }
}
