//! The answers to questions over what one builder took, of which no cube is filled.
ghost use Rattle.std.specs.Prelude.{List, map};
ghost use Rattle.cube_core.specs.Printed.{IsPrinted};
ghost use Rattle.cube_core.specs.declared.fact.Fact.{Fact};
ghost use Rattle.cube_cells.specs.Fill.{IsCubeOfAll};
ghost use Rattle.cube_ledger.specs.Ledger.{all_facts};
ghost use Rattle.cube_tool.specs.Answering.{Answers, Fits, Writes};
ghost use Rattle.cube_tool.specs.Run.{Tells};

use crate::answers::{listed, told, write_refused, write_rows};
use crate::command::Failure;
use crate::fault::TextFault;
use crate::question::Question;
use crate::reporter::Reporter;
use cube_build::Taken;
use cube_cells::{BaseCuboid, FinestCells, Numbers};
use cube_core::{Key, Pattern};
use cube_text::keep_walked;
use std::alloc::Global;
use std::io::Write;
use std::sync::Wait;
use std::thread::Threads;

/// Writes the answer to a question over what one builder took, of which no cube is filled, and tells a reporter what begins.
pub(crate) fn answer_taken<T: Threads + Wait + Sync, P: Reporter, W: Write>(
    rt: &T,
    alloc: Global,
    taken: &Taken,
    threads: usize,
    question: &Question,
    reporter: &P,
    out: &mut W,
) -> Result<(), Failure>
    requires { Fits taken.now.ledger.schema question.now }
    ensures { Answers question.now taken.now.ledger.schema (all_facts taken.now.ledger.accounts)
        (map (λ account. account.refusals) taken.now.ledger.accounts)
        result (W.contents out.old) (W.contents out.new) }
{
    match question {
        Question::Cube => told(write_walked(rt, alloc, taken, threads, reporter, out)),
        Question::Slice { pattern } => told(write_slice(alloc, taken, pattern, out)),
        Question::Drill { key, dimension } => write_drill(alloc, taken, key, *dimension, out),
        Question::RollUp { key, dimension } => {
            told(write_roll_up(alloc, taken, key, *dimension, out))
        }
        Question::Refusals => told(write_refused(alloc, taken.refused(), out)),
    }
}

// Writes the printed cube of what one builder took, made in a walk over its finest cells by so many threads, and tells a
// reporter what begins.
fn write_walked<T: Threads + Wait + Sync, P: Reporter, W: Write>(
    rt: &T,
    alloc: Global,
    taken: &Taken,
    threads: usize,
    reporter: &P,
    out: &mut W,
) -> Result<(), TextFault>
    ensures { Writes (Tells Question.Cube taken.now.ledger.schema (all_facts taken.now.ledger.accounts)
        (map (λ account. account.refusals) taken.now.ledger.accounts))
        result (W.contents out.old) (W.contents out.new) }
{
    reporter.begins_writing(None);
    match taken.cells() {
        BaseCuboid::Summaries(cells) => write_finest(rt, alloc, cells, threads, out),
        BaseCuboid::Numbers(cells) => write_finest(rt, alloc, cells, threads, out),
    }
}

// Writes the printed cube of the facts whose finest cells these are, under the cells' own schema.
fn write_finest<T: Threads + Wait + Sync, N: Numbers + Send + Sync, W: Write>(
    rt: &T,
    alloc: Global,
    cells: &FinestCells<N>,
    threads: usize,
    out: &mut W,
) -> Result<(), TextFault>
    ensures { Writes (λ text. (facts : List Fact) → IsCubeOfAll facts cells.now →
        IsPrinted cells.now.schema facts text) result (W.contents out.old) (W.contents out.new) }
{
    let text = keep_walked(rt, alloc, threads, cells)?;
    text.write(rt, out)?;
    Ok(())
}

// Writes the rows whose keys a pattern matches.
fn write_slice<W: Write>(
    alloc: Global,
    taken: &Taken,
    pattern: &Pattern,
    out: &mut W,
) -> Result<(), TextFault>
    ensures { Writes (Tells (Question.Slice pattern.now) taken.now.ledger.schema
        (all_facts taken.now.ledger.accounts) (map (λ account. account.refusals) taken.now.ledger.accounts))
        result (W.contents out.old) (W.contents out.new) }
{
    let cells = taken.cells();
    let rows = cells.slice(pattern)?;
    write_rows(alloc, taken.refused().schema(), &rows, out)
}

// Writes the rows that drill down from a key along a dimension, counted from 0.
fn write_drill<W: Write>(
    alloc: Global,
    taken: &Taken,
    key: &Key,
    dimension: usize,
    out: &mut W,
) -> Result<(), Failure>
    requires { Fits taken.now.ledger.schema (Question.Drill key.now dimension) }
    ensures { Answers (Question.Drill key.now dimension) taken.now.ledger.schema
        (all_facts taken.now.ledger.accounts) (map (λ account. account.refusals) taken.now.ledger.accounts)
        result (W.contents out.old) (W.contents out.new) }
{
    let cells = taken.cells();
    let rows = cells.drill_down(key, dimension)?;
    write_rows(alloc, taken.refused().schema(), &rows, out)?;
    Ok(())
}

// Writes the row of a key with ALL in a dimension, counted from 0; no row where that is no cell.
fn write_roll_up<W: Write>(
    alloc: Global,
    taken: &Taken,
    key: &Key,
    dimension: usize,
    out: &mut W,
) -> Result<(), TextFault>
    requires { Fits taken.now.ledger.schema (Question.RollUp key.now dimension) }
    ensures { Writes (Tells (Question.RollUp key.now dimension) taken.now.ledger.schema
        (all_facts taken.now.ledger.accounts) (map (λ account. account.refusals) taken.now.ledger.accounts))
        result (W.contents out.old) (W.contents out.new) }
{
    let cells = taken.cells();
    let row = cells.roll_up(key, dimension)?;
    let rows = listed(alloc, row)?;
    write_rows(alloc, taken.refused().schema(), &rows, out)
}
