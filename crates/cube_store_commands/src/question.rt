//! A question over what a cube that is kept right has taken.
ghost use Rattle.std.specs.Prelude.{◌≡◌, ◌↔◌, IsTrue, IfOk, IfErr};
ghost use Rattle.cube_core.specs.Arrival.{Arrivals};
ghost use Rattle.cube_live.specs.Live.{LiveStandsAt};
ghost use Rattle.cube_tool.specs.Answering.{Fits};
ghost use Rattle.cube_store_commands.specs.Asking.{AnsweredAt, FailsAt, IsToldAs};
ghost use Rattle.cube_store_commands.specs.Stored.{FailsUnwritten};

use cube_core::{QueryFault, Schema};
use cube_live::Live;
use cube_tool::command::{Failure, Question, Status, Terms, ask_ledger};
use cube_tool::{Reporter, RunFault};
use std::alloc::Global;
use std::io::Write;
use std::sync::Wait;
use std::thread::Threads;

/// Writes the answer to a question on terms over what a cube that is kept right has taken, whose cells so many threads make
/// anew of its books, and tells a reporter what begins.
///
/// Nothing was written on a failure, but where the writing failed: then the first bytes went out, as many as the failure
/// says. Where no line may be refused the first refusal is told; a question of another schema than the cube's is refused, and
/// so is a drill-down whose key isn't ALL in the dimension, or whose grouping set with the dimension isn't kept.
pub(crate) fn answer_over<T: Threads + Wait + Sync, P: Reporter, W: Write>(
    rt: &T,
    alloc: Global,
    live: Live<'_>,
    threads: usize,
    question: &Question,
    terms: &Terms,
    reporter: &P,
    out: &mut W,
) -> Result<Status, Failure>
    ensures ok { IfOk result (λ status. (arrivals : Arrivals) → LiveStandsAt live.entry arrivals →
        AnsweredAt terms.now question.now live.entry.schema arrivals status (W.contents out.old) (W.contents out.new)) }
    ensures err { IfErr result (λ failure. (arrivals : Arrivals) → LiveStandsAt live.entry arrivals →
        Fits live.entry.schema question.now →
        FailsAt terms.now question.now live.entry.schema arrivals failure (W.contents out.old) (W.contents out.new)) }
    ensures unwritten { IfErr result (λ failure. FailsUnwritten failure (W.contents out.old) (W.contents out.new)) }
{
    let schema = live.schema();
    let ledger = live.into_ledger();
    if !fits(schema, question) {
        drop(ledger);
        return Err(Failure::Run(RunFault::Full));
    }
    match ask_ledger(
        rt, alloc, schema, ledger, threads, question, terms, reporter, out,
    ) {
        Ok(status) => Ok(status),
        Err(failure) => Err(told_as(failure)),
    }
}

// Whether a question can be asked under a schema.
fn fits(schema: &Schema, question: &Question) -> bool
    ensures { IsTrue result ↔ Fits schema.now question.now }
{
    let count = schema.number_of_dimensions();
    match question {
        Question::Cube | Question::Refusals => true,
        Question::Slice { pattern: _ } => true,
        Question::Drill { key, dimension } => *dimension < count && key.coords.len() == count,
        Question::RollUp { key, dimension } => *dimension < count && key.coords.len() == count,
    }
}

// What is told of a failure over a store: that memory ran out is no fault of a question, of a drill-down neither.
fn told_as(failure: Failure) -> Failure
    ensures { IsToldAs failure result }
{
    match failure {
        Failure::Query(QueryFault::Memory) => Failure::Run(RunFault::Full),
        told => told,
    }
}
