//! What rows show of the answers of a cell.
ghost use Rattle.std.specs.Prelude.{◌≡◌, ◌≤◌, [], length, OnOk};
ghost use Rattle.cube_text.specs.Brief.{IsEnding};
ghost use Rattle.cube_text.specs.Walked.{AddsAnswers};

use cube_cells::{Cell, FinestCells, Numbers};
use cube_lines::{end_line, push_answer};
use itoa::Buffer;
use std::alloc::AllocError;

/// Puts into an empty text how the lines of a cell's rows end. The only error is that memory ran out.
pub(crate) fn put_ending<N: Numbers>(
    text: &mut Vec<u8>,
    cells: &FinestCells<N>,
    cell: &Cell<N>,
) -> Result<(), AllocError>
    requires empty { text.old.items ≡ [] }
    requires width { length cell.now.bags ≡ length cells.now.schema.measures }
    ensures { OnOk result (IsEnding cells.now.schema cell.now text.new.items) }
{
    put_answers_of(text, cells, cell)?;
    end_line(text)
}

// Puts what a row shows of the answers of a cell, each with a comma. The only error is that memory ran out.
fn put_answers_of<N: Numbers>(
    text: &mut Vec<u8>,
    cells: &FinestCells<N>,
    cell: &Cell<N>,
) -> Result<(), AllocError>
    requires { length cell.now.bags ≡ length cells.now.schema.measures }
    ensures some { OnOk result (1 ≤ length cells.now.schema.aggregates) }
    ensures added { OnOk result (AddsAnswers cells.now.schema cell.now text.old.items text.new.items) }
{
    let schema = cells.schema();
    let mut number = Buffer::new();
    for aggregate in schema.aggregates() {
        let digits = schema.digits_of(aggregate);
        push_answer(text, &mut number, digits, &cell.try_answer(aggregate)?)?;
    }
    Ok(())
}
