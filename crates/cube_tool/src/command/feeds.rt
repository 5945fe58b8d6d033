//! The commands over feeds: a question is asked of what is built of them.
ghost use Rattle.std.specs.Prelude.{◌≡◌, ◌≤◌, true, map, vec_len, None, IfOk, IfErr, OnOk};
ghost use Rattle.cube_core.specs.Conditions.{of_interest};
ghost use Rattle.cube_ledger.specs.Interest.{ledger_of_interest};
ghost use Rattle.cube_ledger.specs.Ledger.{all_facts};
ghost use Rattle.cube_build.specs.Parts.{facts_of_run, schema_of_run};
ghost use Rattle.cube_tool.specs.Answering.{AnswersOn, FailsOn, FailsOnTerms, Fits, HasTakenOn, IsFirstRefusal, MayAnswer, MayAnswerOver};
ghost use Rattle.cube_tool.specs.Answering.{question_fault, refusals_of_run, status_over};
ghost use Rattle.cube_tool.specs.Run.{IsTextOn, OfFeeds, Wrote};

use crate::answers::{answer, first_builder, has_builder, refused_of};
use crate::command::failure::Failure;
use crate::command::max_cells::{refuse_built, refuse_taken};
use crate::command::status::{Status, first_refusal, status_after, status_of_run};
use crate::command::terms::Terms;
use crate::fault::RunFault;
use crate::fed::Fed;
use crate::question::Question;
use crate::reporter::Reporter;
use crate::walked::answer_taken;
use cube_build::{Built, Gate, Settings, Taken, build_where, take_ledger, take_where};
use cube_core::{Condition, Schema};
use cube_ledger::Ledger;
use std::alloc::Global;
use std::io::{Read, Write};
use std::sync::Wait;
use std::thread::Threads;

/// Writes the answer to a question over 1 to 64 feeds, each read on a thread of its own, on terms: where there are
/// conditions, over the facts alone of which all hold, where no line may be refused, it fails by the first refusal, and where
/// there may be so many cells, of all grouping sets, it fails where there are more.
/// The watcher is the gate of the reading, and is told what begins once the feeds have ended.
///
/// One builder fills no cube: it answers from its finest cells. What the builders took comes back with the status, which
/// tells whether a line of a feed was refused; a question that is to be refused never is answered. Nothing was written on
/// a failure, but where the writing failed: then the first bytes went out, as many as the failure says. Once all feeds
/// were taken and before anything is written, the first refusal is told, where none may be, then that there are too many
/// cells; then a drill-down may be refused: its key isn't ALL in the dimension, its grouping set with the dimension isn't
/// kept, or memory ran out.
pub fn ask<T: Threads + Wait + Sync, R: Read + Drop + Send, G: Gate + Reporter + Sync, W: Write>(
    rt: &T,
    alloc: Global,
    schema: &Schema,
    readers: Vec<R>,
    settings: &Settings,
    question: &Question,
    terms: &Terms,
    watcher: &G,
    out: &mut W,
) -> Result<(Status, Fed), Failure>
    requires readers { (1 ≤ vec_len readers) × (vec_len readers ≤ 64) }
    requires question { Fits schema.now question.now }
    ensures ok { IfOk result (λ ended. OfFeeds schema.now (map R.Read.remaining readers.items) (λ feeds.
        Wrote (IsTextOn terms.now.conditions.items question.now schema.now feeds)
        (W.contents out.old) (W.contents out.new)
        × (ended.0 ≡ status_over schema.now feeds)
        × (terms.now.is_strict ≡ true → ended.0 ≡ Status.Done)
        × MayAnswerOver terms.now schema.now feeds
        × HasTakenOn terms.now.conditions.items schema.now settings.now.builders feeds ended.1)) }
    ensures asked { OnOk result (question_fault schema.now question.now ≡ None) }
    ensures err { IfErr result (λ failure. FailsOnTerms terms.now question.now schema.now
        (map R.Read.remaining readers.items) failure (W.contents out.old) (W.contents out.new)) }
{
    if settings.builders() == 1 {
        return ask_taken(
            rt, alloc, schema, readers, settings, question, terms, watcher, out,
        );
    }
    ask_built(
        rt, alloc, schema, readers, settings, question, terms, watcher, out,
    )
}

// Writes the answer to a question over what one builder takes of the feeds.
fn ask_taken<T: Threads + Wait + Sync, R: Read + Drop + Send, G: Gate + Reporter + Sync, W: Write>(
    rt: &T,
    alloc: Global,
    schema: &Schema,
    readers: Vec<R>,
    settings: &Settings,
    question: &Question,
    terms: &Terms,
    watcher: &G,
    out: &mut W,
) -> Result<(Status, Fed), Failure>
    requires readers { (1 ≤ vec_len readers) × (vec_len readers ≤ 64) }
    requires question { Fits schema.now question.now }
    requires one { settings.now.builders ≡ 1 }
    ensures ok { IfOk result (λ ended. OfFeeds schema.now (map R.Read.remaining readers.items) (λ feeds.
        Wrote (IsTextOn terms.now.conditions.items question.now schema.now feeds)
        (W.contents out.old) (W.contents out.new)
        × (ended.0 ≡ status_over schema.now feeds)
        × (terms.now.is_strict ≡ true → ended.0 ≡ Status.Done)
        × MayAnswerOver terms.now schema.now feeds
        × HasTakenOn terms.now.conditions.items schema.now settings.now.builders feeds ended.1)) }
    ensures asked { OnOk result (question_fault schema.now question.now ≡ None) }
    ensures err { IfErr result (λ failure. FailsOnTerms terms.now question.now schema.now
        (map R.Read.remaining readers.items) failure (W.contents out.old) (W.contents out.new)) }
{
    let conditions = terms.conditions.as_slice();
    let taken = take_where(rt, alloc, schema, readers, settings, watcher, conditions)?;
    let threads = settings.threads();
    let status = answer_on_taken(rt, alloc, &taken, threads, question, terms, watcher, out)?;
    Ok((status, Fed::Taken(taken)))
}

// Writes the answer to a question over what builders build of the feeds.
fn ask_built<T: Threads + Wait + Sync, R: Read + Drop + Send, G: Gate + Reporter + Sync, W: Write>(
    rt: &T,
    alloc: Global,
    schema: &Schema,
    readers: Vec<R>,
    settings: &Settings,
    question: &Question,
    terms: &Terms,
    watcher: &G,
    out: &mut W,
) -> Result<(Status, Fed), Failure>
    requires readers { (1 ≤ vec_len readers) × (vec_len readers ≤ 64) }
    requires question { Fits schema.now question.now }
    ensures ok { IfOk result (λ ended. OfFeeds schema.now (map R.Read.remaining readers.items) (λ feeds.
        Wrote (IsTextOn terms.now.conditions.items question.now schema.now feeds)
        (W.contents out.old) (W.contents out.new)
        × (ended.0 ≡ status_over schema.now feeds)
        × (terms.now.is_strict ≡ true → ended.0 ≡ Status.Done)
        × MayAnswerOver terms.now schema.now feeds
        × HasTakenOn terms.now.conditions.items schema.now settings.now.builders feeds ended.1)) }
    ensures asked { OnOk result (question_fault schema.now question.now ≡ None) }
    ensures err { IfErr result (λ failure. FailsOnTerms terms.now question.now schema.now
        (map R.Read.remaining readers.items) failure (W.contents out.old) (W.contents out.new)) }
{
    let conditions = terms.conditions.as_slice();
    let built = build_where(rt, alloc, schema, readers, settings, watcher, conditions)?;
    has_builder(&built);
    let status = answer_on(alloc, schema, &built, question, terms, watcher, out)?;
    Ok((status, Fed::Built(built)))
}

/// Writes the answer to a question over what a ledger of a schema has taken, on terms as [`ask`] does: so many threads make
/// the cube of the facts of interest, and a reporter is told what begins then.
///
/// The status tells whether there is a refusal. Failures leave what those of [`ask`] do.
pub fn ask_ledger<T: Threads + Wait + Sync, P: Reporter, W: Write>(
    rt: &T,
    alloc: Global,
    schema: &Schema,
    ledger: Ledger,
    threads: usize,
    question: &Question,
    terms: &Terms,
    reporter: &P,
    out: &mut W,
) -> Result<Status, Failure>
    requires schema { ledger.schema ≡ schema.now }
    requires question { Fits schema.now question.now }
    ensures ok { IfOk result (λ status. AnswersOn terms.now question.now schema.now
        (of_interest terms.now.conditions.items (all_facts ledger.accounts))
        (map (λ account. account.refusals) ledger.accounts)
        status (W.contents out.old) (W.contents out.new)) }
    ensures err { IfErr result (λ failure. FailsOn terms.now question.now schema.now
        (of_interest terms.now.conditions.items (all_facts ledger.accounts))
        (map (λ account. account.refusals) ledger.accounts)
        failure (W.contents out.old) (W.contents out.new)) }
{
    let conditions = terms.conditions.as_slice();
    let taken = taken_on(rt, alloc, threads, ledger, conditions)?;
    answer_on_taken(rt, alloc, &taken, threads, question, terms, reporter, out)
}

// What is taken of the facts of interest of a ledger.
fn taken_on<T: Threads + Sync>(
    rt: &T,
    alloc: Global,
    threads: usize,
    ledger: Ledger,
    conditions: &[Condition],
) -> Result<Taken, RunFault>
    ensures ledger { IfOk result (λ taken. taken.ledger ≡ ledger_of_interest conditions.now ledger) }
    ensures full { IfErr result (λ fault. fault ≡ RunFault.Full) }
{
    let mut ledger = ledger;
    ledger.keep(conditions);
    match take_ledger(rt, alloc, threads, ledger) {
        Ok(taken) => Ok(taken),
        Err(_) => Err(RunFault::Full),
    }
}

// Writes the answer to a question over what was built of a schema, unless a line was refused and none may be, or there are
// more cells than there may be; a reporter is told what begins.
fn answer_on<P: Reporter, W: Write>(
    alloc: Global,
    schema: &Schema,
    built: &Built,
    question: &Question,
    terms: &Terms,
    reporter: &P,
    out: &mut W,
) -> Result<Status, Failure>
    requires schema { schema_of_run built.now ≡ schema.now }
    requires question { Fits schema.now question.now }
    ensures ok { IfOk result (λ status. AnswersOn terms.now question.now schema.now (facts_of_run built.now)
        (refusals_of_run built.now) status (W.contents out.old) (W.contents out.new)) }
    ensures err { IfErr result (λ failure. FailsOn terms.now question.now schema.now (facts_of_run built.now)
        (refusals_of_run built.now) failure (W.contents out.old) (W.contents out.new)) }
{
    refuse_none(terms.is_strict, refused_of(built))?;
    refuse_built(terms.max_cells, built)?;
    tell_of(reporter, question, first_builder(built).facts());
    answer(alloc, schema, built, question, reporter, out)?;
    Ok(status_of_run(built))
}

// Writes the answer to a question over what one builder took, unless a line was refused and none may be, or there are more
// cells than there may be; a reporter is told what begins.
fn answer_on_taken<T: Threads + Wait + Sync, P: Reporter, W: Write>(
    rt: &T,
    alloc: Global,
    taken: &Taken,
    threads: usize,
    question: &Question,
    terms: &Terms,
    reporter: &P,
    out: &mut W,
) -> Result<Status, Failure>
    requires question { Fits taken.now.ledger.schema question.now }
    ensures ok { IfOk result (λ status. AnswersOn terms.now question.now taken.now.ledger.schema
        (all_facts taken.now.ledger.accounts) (map (λ account. account.refusals) taken.now.ledger.accounts)
        status (W.contents out.old) (W.contents out.new)) }
    ensures err { IfErr result (λ failure. FailsOn terms.now question.now taken.now.ledger.schema
        (all_facts taken.now.ledger.accounts) (map (λ account. account.refusals) taken.now.ledger.accounts)
        failure (W.contents out.old) (W.contents out.new)) }
{
    refuse_none(terms.is_strict, taken.refused())?;
    refuse_taken(terms.max_cells, taken)?;
    tell_of(reporter, question, taken.facts());
    answer_taken(rt, alloc, taken, threads, question, reporter, out)?;
    Ok(status_after(taken.refused()))
}

// Fails by the first refusal of a ledger, where no line may be refused.
fn refuse_none(is_strict: bool, refused: &Ledger) -> Result<(), Failure>
    ensures may { OnOk result (MayAnswer is_strict (map (λ account. account.refusals) refused.now.accounts)) }
    ensures first { IfErr result
        (IsFirstRefusal is_strict (map (λ account. account.refusals) refused.now.accounts)) }
{
    if !is_strict {
        return Ok(());
    }
    match first_refusal(refused) {
        Some((source, refusal)) => Err(Failure::LineRefused {
            source,
            number: refusal.number,
            code: refusal.code,
        }),
        None => Ok(()),
    }
}

// Tells a reporter what begins with a question over so many facts: cells are put in order, or refusals are written.
fn tell_of<P: Reporter>(reporter: &P, question: &Question, facts: u64) {
    match question {
        Question::Refusals => reporter.begins_writing(None),
        _ => reporter.begins_sorting(facts),
    }
}
