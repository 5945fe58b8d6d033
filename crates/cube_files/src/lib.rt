//! What files of people's own say of themselves.
//!
//! [`schema_text`] makes the text of a schema that reads a file by the names of its columns, from the file's first bytes and
//! from what is asked of its columns.
#![tactic(auto)]

mod schema_guess;

pub use schema_guess::{Asked, GuessFault, SAMPLE_BYTES, schema_text};
