//! The forms in which the answer of a command is written.
use cube_console::{Output, Progress, Request, View, ViewWords, clashing_views};
use cube_core::Schema;
use cube_store_commands::StoredFailure;
use cube_tool::RunFault;
use cube_tool::command::{Failure, Status, answer_words};
use std::alloc::{AllocError, Global};
use std::env;
use std::io::{IsTerminal, Stderr, Stdout, Write};
use std::sync::Wait;
use std::time::Clock;

/// The numbers of columns that the variable COLUMNS may say, as `--width` may.
const LEAST_COLUMNS: usize = 20;

const MOST_COLUMNS: usize = 10_000;

/// Whether the words ask for two forms of a cube, or for one and the partial form.
pub(crate) fn mixes_views(request: &Request) -> bool {
    let (view, is_partial) = match request {
        Request::Print { run, partial } => (run.view, *partial),
        Request::Slice { run, .. } | Request::Drill { run, .. } | Request::RollUp { run, .. } => {
            (run.view, false)
        }
        Request::Table { table } => (table.view, false),
        _ => return false,
    };
    (view.json && view.aligned) || (is_partial && (view.json || view.aligned))
}

/// Says that such forms don't go together.
pub(crate) fn refuse_views(rt: &HostRuntime) -> Result<Status, Failure> {
    let alloc = rt.alloc();
    let refusal = clashing_views(alloc);
    answer_words(alloc, &refusal, &mut rt.stdout(), &mut rt.stderr())
}

/// The writer of an answer under a schema to standard output, in the form that the words ask for.
pub(crate) fn view_of<'p, T: Wait + Clock>(
    rt: &HostRuntime,
    words: ViewWords,
    schema: &Schema,
    progress: &'p Progress<'p, T, Stderr>,
) -> Result<View<Output<'p, Stdout, T, Stderr>>, Failure> {
    let (alloc, out) = (rt.alloc(), Output::new(rt.stdout(), progress));
    let dimensions = schema.number_of_dimensions();
    if words.json {
        return Ok(View::json(alloc, out, dimensions));
    }
    if words.aligned {
        let decimals = decimals_of(alloc, schema)?;
        let most = columns_of(rt, words);
        return Ok(View::aligned(alloc, out, dimensions, decimals, most));
    }
    Ok(View::Printed(out))
}

/// How many digits stand behind the point of the answers to each aggregate of a schema.
fn decimals_of(alloc: Global, schema: &Schema) -> Result<Vec<u8>, Failure> {
    let mut decimals = Vec::new(alloc);
    for aggregate in schema.aggregates() {
        if decimals.push(schema.digits_of(aggregate)).is_err() {
            return Err(Failure::Run(RunFault::Memory));
        }
    }
    Ok(decimals)
}

/// How many columns an aligned line takes at most: as the words say, and else, on a terminal, as its variable COLUMNS does.
fn columns_of(rt: &HostRuntime, words: ViewWords) -> Option<usize> {
    if words.width.is_some() || !rt.stdout().is_terminal() {
        return words.width;
    }
    let Ok(text) = env::var(rt, "COLUMNS") else {
        return None;
    };
    match text.as_str().parse::<usize>() {
        Ok(columns) if LEAST_COLUMNS <= columns && columns <= MOST_COLUMNS => Some(columns),
        _ => None,
    }
}

/// How a command failed, as its writer knows it: how many bytes went out is for the writer to say.
pub(crate) fn told_of<O: Write + Drop>(failure: Failure, view: &View<O>) -> Failure {
    match (failure, view.sent()) {
        (Failure::Run(RunFault::Write { sent: _ }), Some(sent)) => {
            Failure::Run(RunFault::Write { sent })
        }
        (failure, _) => failure,
    }
}

/// The same of a command with a store.
pub(crate) fn stored_told_of<O: Write + Drop>(
    failure: StoredFailure,
    view: &View<O>,
) -> StoredFailure {
    match failure {
        StoredFailure::Failure(failure) => StoredFailure::Failure(told_of(failure, view)),
        failure => failure,
    }
}
