//! Reading the words of a command line.
ghost use Rattle.std.specs.Prelude.{◌≡◌, ◌≢◌, ◌≤◌, ◌⊎◌, ◌∷◌, [], ℕ, List, codes, false, true, length, map, Ok, Some, None, IfOk, IfErr, IfSome, MatchResult};
ghost use Rattle.clap.specs.Words.{HasMatchesOf, kind_of, subcommand_of, takes};
ghost use Rattle.clap.specs.declared.error.kind.ErrorKind.TheVariants as kind;
ghost use Rattle.cube_console.specs.CommandLine.{AsksToCheck, AsksToExplain, IsInBounds, IsRequest, begins_as_flag, command_line};

use crate::command_line::program;
use crate::request::{Request, request_of};
use clap::error::ErrorKind;
use clap::{ArgMatches, Error};
use std::alloc::{AllocError, Global};
use std::convert::AsStr;
use std::io;

/// What the words ask for; the first of them is the program's name.
///
/// The error is what `clap` has to say of them: a refusal, or the help that they ask for. Words that `clap`'s definition
/// of the command line takes, and of which it makes a request, are refused only because memory ran out.
pub fn read_words<'a, S: AsStr>(alloc: Global, words: &'a [S]) -> Result<Request<'a>, Error>
    ensures asked { IfOk result (λ request.
        IsRequest (subcommand_of command_line (map S.text words.entry.now)) (Some request)) }
    ensures bounds { IfOk result IsInBounds }
    ensures taken { (request : Request) → takes command_line (map S.text words.entry.now) ≡ true →
        IsRequest (subcommand_of command_line (map S.text words.entry.now)) (Some request) →
        IfErr result (λ error. kind_of error ≡ kind.OutOfMemory) }
    ensures no_words { length words.entry.now ≤ 1 →
        MatchResult result (λ request. request ≡ Request.Sample) (λ error. kind_of error ≡ kind.OutOfMemory) }
    ensures check { (name path : List ℕ) → begins_as_flag path ≡ false →
        map S.text words.entry.now ≡ name ∷ codes "check" ∷ path ∷ [] →
        MatchResult result (AsksToCheck path) (λ error. kind_of error ≡ kind.OutOfMemory) }
    ensures explain { (name : List ℕ) →
        map S.text words.entry.now ≡ name ∷ codes "explain" ∷ [] →
        MatchResult result (AsksToExplain []) (λ error. kind_of error ≡ kind.OutOfMemory) }
    ensures explain_code { (name code : List ℕ) → begins_as_flag code ≡ false →
        map S.text words.entry.now ≡ name ∷ codes "explain" ∷ code ∷ [] →
        MatchResult result (AsksToExplain (code ∷ [])) (λ error. kind_of error ≡ kind.OutOfMemory) }
{
    let matches = parse_words(alloc, words)?;
    complete(alloc, request_of(alloc, &matches)?)
}

fn parse_words<'a, S: AsStr>(alloc: Global, words: &'a [S]) -> Result<ArgMatches<'a>, Error>
    ensures ok { IfOk result (HasMatchesOf command_line (map S.text words.entry.now)) }
    ensures err { IfErr result (λ error.
        takes command_line (map S.text words.entry.now) ≡ true → kind_of error ≡ kind.OutOfMemory) }
{
    program(alloc)?.try_get_matches_from(words)
}

/// The request, where there is one; otherwise a command lacks a word. `clap` itself answers so, but for the feeds, which
/// a store may stand for.
fn complete<'a>(alloc: Global, request: Option<Request<'a>>) -> Result<Request<'a>, Error>
    ensures some { IfSome request.entry (λ asked. result ≡ Ok asked) }
    ensures ok { IfOk result (λ asked. request.entry ≡ Some asked) }
{
    match request {
        Some(request) => Ok(request),
        None => Err(refusal(
            alloc,
            ErrorKind::MissingRequiredArgument,
            "the following required arguments were not provided: <FEED>..., which only --store lets be left out",
        )),
    }
}

/// What there is to say of words that the system couldn't give as text.
pub fn unreadable_words(alloc: Global, error: &io::Error) -> Error
    ensures { (kind_of result ≡ kind.InvalidValue) ⊎ (kind_of result ≡ kind.OutOfMemory) }
{
    if error.kind() == io::ErrorKind::OutOfMemory {
        return Error::from(AllocError);
    }
    refusal(
        alloc,
        ErrorKind::InvalidValue,
        "invalid UTF-8 was detected in one or more words",
    )
}

/// What there is to say of a share that isn't spelled as one is, or isn't one.
pub fn unlawful_shard(alloc: Global) -> Error
    ensures { (kind_of result ≡ kind.InvalidValue) ⊎ (kind_of result ≡ kind.OutOfMemory) }
{
    refusal(
        alloc,
        ErrorKind::InvalidValue,
        "invalid value for '--shard <J/N>': J is a number from 1 to N, and N one from 1 to 65536, in digits without leading zeros",
    )
}

/// What there is to say of a number of bytes that isn't spelled as one is, or isn't in its bounds.
pub fn unlawful_max_record(alloc: Global) -> Error
    ensures { (kind_of result ≡ kind.InvalidValue) ⊎ (kind_of result ≡ kind.OutOfMemory) }
{
    refusal(
        alloc,
        ErrorKind::InvalidValue,
        "invalid value for '--max-record <SIZE>': SIZE is a number of bytes from 1 to 1024G, in digits without leading zeros, and then K, M, G or nothing",
    )
}

/// What there is to say of a number of cells that isn't spelled as one is, or isn't in its bounds.
pub fn unlawful_max_cells(alloc: Global) -> Error
    ensures { (kind_of result ≡ kind.InvalidValue) ⊎ (kind_of result ≡ kind.OutOfMemory) }
{
    refusal(
        alloc,
        ErrorKind::InvalidValue,
        "invalid value for '--max-cells <N>': N is a number of cells from 1 to 9223372036854775807, in digits without leading zeros",
    )
}

/// What there is to say of a store with an option that works on the feeds alone.
pub fn clashing_words(alloc: Global) -> Error
    ensures { (kind_of result ≡ kind.ArgumentConflict) ⊎ (kind_of result ≡ kind.OutOfMemory) }
{
    refusal(
        alloc,
        ErrorKind::ArgumentConflict,
        "the arguments '--partial' and '--builders <N>' cannot be used with '--store <FILE>'",
    )
}

/// What there is to say of two forms of a cube, or of one and the partial form.
pub fn clashing_views(alloc: Global) -> Error
    ensures { (kind_of result ≡ kind.ArgumentConflict) ⊎ (kind_of result ≡ kind.OutOfMemory) }
{
    refusal(
        alloc,
        ErrorKind::ArgumentConflict,
        "of the arguments '--json', '--aligned' and '--partial' at most one can be used",
    )
}

/// What there is to say of words that are refused, or that there was no memory to say it.
fn refusal(alloc: Global, why: ErrorKind, message: &str) -> Error
    ensures { (kind_of result ≡ why) ⊎ (kind_of result ≡ kind.OutOfMemory) }
{
    match told(alloc, why, message) {
        Ok(error) => error,
        Err(error) => Error::from(error),
    }
}

fn told(alloc: Global, why: ErrorKind, message: &str) -> Result<Error, AllocError>
    ensures { IfOk result (λ error. kind_of error ≡ why) }
{
    let mut command = program(alloc)?;
    command.error(why, message)
}
