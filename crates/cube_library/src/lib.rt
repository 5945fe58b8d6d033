//! The data cube as a library, under one name: what a program of your own needs, whichever crate it stands in.
//!
//! - What is counted: a [`Schema`] says the dimensions, measures and aggregates; a [`Fact`] is one line of input. A [`Key`]
//!   names a cell by a [`Coord`] for each dimension, a [`Pattern`] several cells, and a [`Row`] is a cell's key with its answers.
//! - A cube that is kept right: a [`Builder`] takes [`Item`]s, each a [`Change`] of a source, and has the [`Cube`] of the facts
//!   that there are after each of them, for look-ups, slices, roll-ups and drill-downs; `crates/sales_example` is a program on it.
//! - Whole feeds: a [`Feed`] reads the items of one; [`build_plain`] and [`build`] take the feeds of all sources, the first on
//!   the caller's thread, the second on threads, as [`Settings`] say; [`build_where`] counts the facts of interest alone, of which
//!   each [`Condition`] holds.
//! - Texts: [`run`] prints the cube of feeds, and [`run_plain`] does so on the caller's thread; [`answer`] writes the answer to
//!   a [`Question`] over what was [`Built`], [`print_rows`] and [`print_cells`] make the text of rows and of cells, and
//!   [`merge`] makes one printed cube of several.
#![tactic(auto)]

pub use cube_build::{
    Builder, Built, Counts, FeedingFault, Gate, OpenGate, Settings, build, build_plain, build_where,
};
pub use cube_cells::{Cell, Cube, KeyedCell, OrderedCells};
pub use cube_core::{
    Agg, Answer, Change, Comparison, Condition, Coord, CoordRef, Fact, Field, HashKey, Item, Key,
    LineFault, Partial, Pattern, QueryFault, Refusal, Row, Schema, SchemaFault, Sequence, Shard,
    Squares, Test, Text, Wide, hold, push_decimal,
};
pub use cube_feed::{Feed, FeedFault, read_condition};
pub use cube_ledger::{BuildFault, Ledger};
pub use cube_lines::{WriteFault, write_whole};
pub use cube_merge::{InputFault, MergeFault, merge};
pub use cube_text::{print_cells, print_rows};
pub use cube_tool::{Question, Reporter, RunFault, TextFault, answer, run, run_plain};
