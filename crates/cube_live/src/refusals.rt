//! The texts of refusals.
ghost use Rattle.std.specs.Prelude.{◌≡◌, ◌<◌, [], ◌∷◌, map, filter, decimal, OnOk, IfOk};
ghost use Rattle.std.specs.List.{flat_map};
ghost use Rattle.cube_live.specs.Shows.{is_after, text_after};
ghost use Rattle.cube_core.specs.Text.{lines_of_sources, refusal_header, refusal_line, text_of_refusals};
ghost use Rattle.cube_text.specs.Lines.{AddsFields, AddsText};

use cube_core::Refusal;
use cube_ledger::Ledger;
use cube_text::{Lines, end_line, into_text, no_lines, put_field};
use itoa::Buffer;
use std::alloc::{AllocError, Global};

/// The header line `source,record,code`, and a line for each refusal: source after source, and within a source in
/// the order of its items.
///
/// The only error is that memory ran out.
pub fn print_refusals(alloc: Global, ledger: &Ledger) -> Result<Vec<u8>, AllocError>
    ensures { IfOk result (λ text. text.items ≡
        text_of_refusals (map (λ account. account.refusals) ledger.now.accounts)) }
{
    let mut lines = no_lines(alloc);
    put_refusal_header(&mut lines)?;
    put_all_refusals(&mut lines, ledger)?;
    into_text(lines)
}

/// The header line, and a line for each refusal of a source that is numbered above a record of it.
///
/// The only error is that memory ran out.
pub fn refusals_after_text(
    alloc: Global,
    source: u32,
    number: u64,
    refusals: &[Refusal],
) -> Result<Vec<u8>, AllocError>
    ensures { IfOk result (λ text. text.items ≡ text_after source number refusals.now) }
{
    let mut lines = no_lines(alloc);
    put_refusal_header(&mut lines)?;
    put_refusals_after(&mut lines, source, number, refusals)?;
    into_text(lines)
}

// Adds the lines of the refusals of a source that are numbered above a record of it.
fn put_refusals_after(
    lines: &mut Lines,
    source: u32,
    number: u64,
    refusals: &[Refusal],
) -> Result<(), AllocError>
    ensures { OnOk result (AddsText (flat_map (refusal_line source)
        (filter (is_after number) refusals.now)) lines.old lines.new) }
{
    for refusal in refusals {
        if number < u64::from(refusal.number) {
            put_refusal(lines, source, refusal)?;
        }
    }
    Ok(())
}

// Adds the lines of the refusals of all sources.
fn put_all_refusals(lines: &mut Lines, ledger: &Ledger) -> Result<(), AllocError>
    ensures { OnOk result (AddsText (lines_of_sources
        (map (λ account. account.refusals) ledger.now.accounts)) lines.old lines.new) }
{
    for place in 0..ledger.sources() {
        let source = place + 1;
        put_refusals(lines, source, ledger.refusals(source))?;
    }
    Ok(())
}

fn put_refusal_header(lines: &mut Lines) -> Result<(), AllocError>
    ensures { OnOk result (AddsText refusal_header lines.old lines.new) }
{
    put_field(lines, b"source")?;
    put_field(lines, b"record")?;
    put_field(lines, b"code")?;
    end_line(lines)
}

// Adds the lines of the refusals of a source.
fn put_refusals(lines: &mut Lines, source: u32, refusals: &[Refusal]) -> Result<(), AllocError>
    ensures { OnOk result
        (AddsText (flat_map (refusal_line source) refusals.now) lines.old lines.new) }
{
    for refusal in refusals {
        put_refusal(lines, source, refusal)?;
    }
    Ok(())
}

fn put_refusal(lines: &mut Lines, source: u32, refusal: &Refusal) -> Result<(), AllocError>
    ensures { OnOk result (AddsText (refusal_line source refusal.now) lines.old lines.new) }
{
    put_number(lines, source)?;
    put_number(lines, refusal.number)?;
    put_number(lines, u32::from(refusal.code))?;
    end_line(lines)
}

fn put_number(lines: &mut Lines, number: u32) -> Result<(), AllocError>
    ensures { OnOk result (AddsFields (decimal number ∷ []) lines.old lines.new) }
{
    let mut digits = Buffer::new();
    put_field(lines, digits.format(number).as_bytes())
}
