//! The answers to questions over what was built, each into a writer.
//!
//! Each is the text that its question asks for, made in memory and then written; where memory runs out nothing is
//! written.
ghost use Rattle.std.specs.Prelude.{◌≡◌, ◌≤◌, ◌<◌, length, map, option_to_list, All, IfOk, List, Option, None, ℕ};
ghost use Rattle.cube_core.specs.Layout.{Layout};
ghost use Rattle.cube_core.specs.Text.{text_of_refusals, text_of_rows};
ghost use Rattle.cube_core.specs.declared.change.Refusal.{Refusal};
ghost use Rattle.cube_core.specs.declared.fact.Fact.{Fact};
ghost use Rattle.cube_ledger.specs.Ledger.{AllFit, all_facts};
ghost use Rattle.cube_text.specs.Shape.{HasShapeOf};
ghost use Rattle.cube_build.specs.Parts.{facts_of_run, first_ledger, schema_of_run};
ghost use Rattle.cube_tool.specs.Answering.{Answers, Fits, Writes, question_fault, refusals_of_run};
ghost use Rattle.cube_tool.specs.Run.{Tells};
ghost use Rattle.cube_tool.specs.declared.question.Question.{Question as TheQuestion};

use crate::command::Failure;
use crate::fault::TextFault;
use crate::question::Question;
use crate::reporter::Reporter;
use cube_build::{Builder, Built, Counts};
use cube_core::{Key, Pattern, Row, Schema};
use cube_ledger::Ledger;
use cube_lines::write_whole;
use cube_live::print_refusals;
use cube_text::{print_cells, print_rows};
use std::alloc::{AllocError, Global};
use std::io::Write;

/// Writes the answer to a question over what was built of a schema, and tells a reporter what begins.
pub fn answer<P: Reporter, W: Write>(
    alloc: Global,
    schema: &Schema,
    built: &Built,
    question: &Question,
    reporter: &P,
    out: &mut W,
) -> Result<(), Failure>
    requires schema { schema_of_run built.now ≡ schema.now }
    requires question { Fits schema.now question.now }
    ensures { Answers question.now schema.now (facts_of_run built.now) (refusals_of_run built.now)
        result (W.contents out.old) (W.contents out.new) }
{
    match question {
        Question::Cube => told(write_cube(alloc, schema, built, reporter, out)),
        Question::Slice { pattern } => told(write_slice(alloc, schema, built, pattern, out)),
        Question::Drill { key, dimension } => {
            write_drill(alloc, schema, built, key, *dimension, out)
        }
        Question::RollUp { key, dimension } => {
            told(write_roll_up(alloc, schema, built, key, *dimension, out))
        }
        Question::Refusals => told(write_refusals(alloc, built, out)),
    }
}

/// What is told of a text that was written, or wasn't: the answer to its question, where that can't be refused.
pub(crate) fn told(written: Result<(), TextFault>) -> Result<(), Failure>
    ensures { (question : TheQuestion) (s : Layout) (facts : List Fact) (refusals : List (List Refusal))
        (old new : Option (List ℕ)) → question_fault s question ≡ None →
        Writes (Tells question s facts refusals) written old new →
        Answers question s facts refusals result old new }
{
    Ok(written?)
}

/// Writes the printed cube of what was built of a schema, and tells a reporter what begins.
pub fn write_cube<P: Reporter, W: Write>(
    alloc: Global,
    schema: &Schema,
    built: &Built,
    reporter: &P,
    out: &mut W,
) -> Result<(), TextFault>
    requires { schema_of_run built.now ≡ schema.now }
    ensures { Writes (Tells Question.Cube schema.now (facts_of_run built.now) (refusals_of_run built.now))
        result (W.contents out.old) (W.contents out.new) }
{
    let cells = built.ordered()?;
    reporter.begins_writing(Some(cells.len()));
    let text = print_cells(alloc, schema, &cells)?;
    write_text(&text, out)
}

/// Writes the printed cube of a builder over all grouping sets of a schema.
pub fn write_plain_cube<W: Write>(
    alloc: Global,
    schema: &Schema,
    builder: &Builder,
    out: &mut W,
) -> Result<(), TextFault>
    requires schema { builder.now.ledger.schema ≡ schema.now }
    requires sets { builder.now.cube.sets ≡ schema.now.grouping_sets }
    ensures { Writes (Tells Question.Cube schema.now (all_facts builder.now.ledger.accounts)
        (map (λ account. account.refusals) builder.now.ledger.accounts))
        result (W.contents out.old) (W.contents out.new) }
{
    let cells = builder.cube().ordered()?;
    let text = print_cells(alloc, schema, &cells)?;
    write_text(&text, out)
}

/// Writes the rows whose keys a pattern matches, of the cube of what was built of a schema.
pub fn write_slice<W: Write>(
    alloc: Global,
    schema: &Schema,
    built: &Built,
    pattern: &Pattern,
    out: &mut W,
) -> Result<(), TextFault>
    requires { schema_of_run built.now ≡ schema.now }
    ensures { Writes (Tells (Question.Slice pattern.now) schema.now (facts_of_run built.now)
        (refusals_of_run built.now)) result (W.contents out.old) (W.contents out.new) }
{
    facts_fit(built);
    let rows = built.slice(pattern)?;
    write_rows(alloc, schema, &rows, out)
}

/// Writes the rows that drill down from a key along a dimension, counted from 0, of the cube of what was built of a
/// schema.
pub fn write_drill<W: Write>(
    alloc: Global,
    schema: &Schema,
    built: &Built,
    key: &Key,
    dimension: usize,
    out: &mut W,
) -> Result<(), Failure>
    requires schema { schema_of_run built.now ≡ schema.now }
    requires question { Fits schema.now (Question.Drill key.now dimension) }
    ensures { Answers (Question.Drill key.now dimension) schema.now (facts_of_run built.now)
        (refusals_of_run built.now) result (W.contents out.old) (W.contents out.new) }
{
    facts_fit(built);
    let rows = built.drill_down(key, dimension)?;
    write_rows(alloc, schema, &rows, out)?;
    Ok(())
}

/// Writes the row of a key with ALL in a dimension, counted from 0, of the cube of what was built of a schema; no row
/// where that is no cell.
pub fn write_roll_up<W: Write>(
    alloc: Global,
    schema: &Schema,
    built: &Built,
    key: &Key,
    dimension: usize,
    out: &mut W,
) -> Result<(), TextFault>
    requires schema { schema_of_run built.now ≡ schema.now }
    requires question { Fits schema.now (Question.RollUp key.now dimension) }
    ensures { Writes (Tells (Question.RollUp key.now dimension) schema.now (facts_of_run built.now)
        (refusals_of_run built.now)) result (W.contents out.old) (W.contents out.new) }
{
    facts_fit(built);
    let row = built.roll_up(key, dimension)?;
    let rows = listed(alloc, row)?;
    write_rows(alloc, schema, &rows, out)
}

/// The list of a row, or of none.
pub(crate) fn listed(alloc: Global, row: Option<Row>) -> Result<Vec<Row>, AllocError>
    ensures { IfOk result (λ rows. rows.items ≡ option_to_list row) }
{
    let mut rows = Vec::new(alloc);
    if let Some(row) = row {
        rows.push(row)?;
    }
    Ok(rows)
}

/// Writes the refusals of all sources of what was built.
pub fn write_refusals<W: Write>(alloc: Global, built: &Built, out: &mut W) -> Result<(), TextFault>
    ensures { Writes (λ text. text ≡ text_of_refusals (refusals_of_run built.now))
        result (W.contents out.old) (W.contents out.new) }
{
    write_refused(alloc, refused_of(built), out)
}

/// Writes the refusals of all sources of a ledger.
pub(crate) fn write_refused<W: Write>(
    alloc: Global,
    refused: &Ledger,
    out: &mut W,
) -> Result<(), TextFault>
    ensures { Writes (λ text. text ≡ text_of_refusals (map (λ account. account.refusals) refused.now.accounts))
        result (W.contents out.old) (W.contents out.new) }
{
    let text = print_refusals(alloc, refused)?;
    write_text(&text, out)
}

/// Writes the text of rows.
pub(crate) fn write_rows<W: Write>(
    alloc: Global,
    schema: &Schema,
    rows: &[Row],
    out: &mut W,
) -> Result<(), TextFault>
    requires { All (HasShapeOf schema.now) rows.now }
    ensures { Writes (λ text. text ≡ text_of_rows schema.now rows.now)
        result (W.contents out.old) (W.contents out.new) }
{
    let text = print_rows(alloc, schema, rows)?;
    write_text(&text, out)
}

// Writes a text.
fn write_text<W: Write>(text: &[u8], out: &mut W) -> Result<(), TextFault>
    ensures { Writes (λ written. written ≡ text.now) result (W.contents out.old) (W.contents out.new) }
{
    write_whole(out, text)?;
    Ok(())
}

// The facts of what was built fit its schema, as each builder's do; nothing is done.
fn facts_fit(built: &Built)
    ensures { AllFit (schema_of_run built.now) (facts_of_run built.now) }
{
    let _cube = first_builder(built).cube();
}

/// There is a builder in all that was built; nothing is done.
pub(crate) fn has_builder(built: &Built)
    ensures { 1 ≤ length built.now.builders }
{
    let _builders = built.builders();
}

/// The counts whose books and refusals are those of what was built.
pub(crate) fn first_builder(built: &Built) -> &Counts
    ensures { result.now.ledger ≡ first_ledger built.now.builders }
{
    &built.builders()[0]
}

/// A ledger with the refusals of what was built.
pub(crate) fn refused_of(built: &Built) -> &Ledger
    ensures { map (λ account. account.refusals) result.now.accounts ≡ refusals_of_run built.now }
{
    first_builder(built).refused()
}
