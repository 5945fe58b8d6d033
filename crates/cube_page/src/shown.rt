//! What a page is shown of feeds.
ghost use Rattle.std.specs.Prelude.{◌≡◌, ◌≤◌, Some, map, vec_len, IfOk};
ghost use Rattle.cube_page.specs.Page.{IsShown, Shows, feeds_in};

use crate::feeds::feeds_in;
use cube_core::Schema;
use cube_tool::command::{Failure, read_schema};
use cube_tool::{RunFault, print_refusals, run_plain};
use std::alloc::Global;

/// What a page is shown of feeds: the text of the printed cube, and that of the refusals.
#[derive(Drop)]
pub(crate) struct Shown {
    pub(crate) cube: Vec<u8>,
    pub(crate) refusals: Vec<u8>,
}

/// Takes the feeds that stand one behind another in some bytes, at most 64, under the schema that a text is.
///
/// The failure is that there are more, the schema's, or why the feeds were not taken: that of the lowest source at fault,
/// or that memory ran out.
pub(crate) fn show(
    alloc: Global,
    schema: &[u8],
    feeds: &[u8],
    lengths: &[usize],
) -> Result<Shown, Failure>
    ensures { IfOk result (λ shown.
        IsShown schema.now (feeds_in lengths.now feeds.now) shown.cube.items shown.refusals.items) }
{
    if lengths.len() > 64 {
        return Err(Failure::TooManyFeeds);
    }
    let schema = read_schema(alloc, schema)?;
    match feeds_in(alloc, feeds, lengths) {
        Ok(readers) => show_under(alloc, &schema, readers),
        Err(_) => Err(Failure::Run(RunFault::Memory)),
    }
}

// Takes feeds under a schema.
fn show_under(alloc: Global, schema: &Schema, readers: Vec<&[u8]>) -> Result<Shown, Failure>
    requires { vec_len readers ≤ 64 }
    ensures { IfOk result (λ shown. Shows schema.now (map (λ reader. reader.now) readers.entry.items)
        shown.cube.items shown.refusals.items) }
{
    let mut cube = Vec::new(alloc);
    let builder = run_plain(alloc, schema, readers, &mut cube)?;
    match print_refusals(alloc, builder.ledger()) {
        Ok(refusals) => Ok(Shown { cube, refusals }),
        Err(_) => Err(Failure::Run(RunFault::Full)),
    }
}

/// What there is to say of a failure; nothing where there is no memory for it.
pub(crate) fn told(alloc: Global, failure: Failure) -> String {
    match format!(in alloc; "{failure}") {
        Ok(told) => told,
        Err(_) => String::new(alloc),
    }
}
