//! The cube in a web page: what its WebAssembly module is asked, from bytes to bytes.
//!
//! Each call is handed texts, and rooms for its answers. It tells how long an answer is, and writes as much of it as
//! fits into its room. The number that it gives is 0, or 1 where there is no answer: then the text that it writes says
//! why, as `datacube` does on standard error behind its name. Nothing but memory is needed: no file, no thread, no clock.
#![tactic(auto)]

ghost use Rattle.std.specs.Prelude.{◌≡◌};
ghost use Rattle.cube_page.specs.Page.{HandsExplained, HandsReason, HandsSchema, HandsShown, feeds_in};

mod explained;
mod feeds;
mod room;
mod schema;
mod shown;

use explained::explained;
use room::hand;
use schema::{made_schema, told_of_guess};
use shown::{show, told};
use std::alloc::Global;

/// There is an answer.
const ANSWERED: u32 = 0;

/// There is none, and what was written says why.
const REFUSED: u32 = 1;

/// What is written of a code that no note has.
const UNKNOWN: &str = "unknown code";

/// How long the two texts are that a page is shown of feeds, in bytes.
#[repr(C)]
#[derive(Drop)]
pub struct Sizes {
    pub cube: usize,
    pub refusals: usize,
}

/// Makes the schema that reads a file by the names of its columns, of the file's first bytes, which are all of them where it
/// is whole. `by` and `of` name its dimensions and its measures, as the options of `datacube table` do; where one is empty,
/// they are guessed. Its text goes to the room, and its size is told.
#[unsafe(no_mangle)]
pub extern "C" fn page_schema(
    alloc: Global,
    start: &[u8],
    is_whole: bool,
    by: &[u8],
    of: &[u8],
    room: &mut [u8],
    size: &mut usize,
) -> u32
    ensures answered { result ≡ 0 → HandsSchema room.new size.new }
    ensures refused { result ≡ 1 → HandsReason room.new size.new }
{
    match made_schema(alloc, start, is_whole, by, of) {
        Ok(text) => {
            hand(text.as_bytes(), room, size);
            ANSWERED
        }
        Err(fault) => {
            hand(told_of_guess(alloc, fault).as_bytes(), room, size);
            REFUSED
        }
    }
}

/// Takes 1 to 64 feeds under a schema, one source after another, and shows what comes of them: the printed cube of the facts
/// that are there in the end, and the refusals of all feeds. The feeds stand one behind another; `lengths` has how many bytes
/// each has. Each text goes to its room, and their sizes are told. Where there is none, what is said stands in the room of
/// the cube.
#[unsafe(no_mangle)]
pub extern "C" fn page_run(
    alloc: Global,
    schema: &[u8],
    feeds: &[u8],
    lengths: &[usize],
    cube: &mut [u8],
    refusals: &mut [u8],
    sizes: &mut Sizes,
) -> u32
    ensures answered { result ≡ 0 → HandsShown schema.now (feeds_in lengths.now feeds.now)
        cube.new sizes.new.cube refusals.new sizes.new.refusals }
    ensures refused { result ≡ 1 → HandsReason cube.new sizes.new.cube × (sizes.new.refusals ≡ 0) }
{
    match show(alloc, schema, feeds, lengths) {
        Ok(shown) => {
            hand(&shown.cube, cube, &mut sizes.cube);
            hand(&shown.refusals, refusals, &mut sizes.refusals);
            ANSWERED
        }
        Err(failure) => {
            hand(told(alloc, failure).as_bytes(), cube, &mut sizes.cube);
            sizes.refusals = 0;
            REFUSED
        }
    }
}

/// Says what a code means, or all codes where it is empty, of those that concern a page, as `datacube explain` does. The text
/// goes to the room, and its size is told. Where there was no memory for it the answer is 1, and the size is 0.
#[unsafe(no_mangle)]
pub extern "C" fn page_explain(alloc: Global, code: &[u8], room: &mut [u8], size: &mut usize) -> u32
    ensures answered { result ≡ 0 → HandsExplained code.now room.new size.new }
    ensures refused { result ≡ 1 → HandsReason room.new size.new }
{
    match explained(alloc, code) {
        Ok(Some(text)) => {
            hand(&text, room, size);
            ANSWERED
        }
        Ok(None) => {
            hand(UNKNOWN.as_bytes(), room, size);
            REFUSED
        }
        Err(_) => {
            hand("".as_bytes(), room, size);
            REFUSED
        }
    }
}
