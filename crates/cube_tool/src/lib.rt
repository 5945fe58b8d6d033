//! The calls of the data cube's users: from feeds to a printed cube.
#![tactic(auto)]

mod answers;
pub mod command;
mod fault;
mod fed;
mod question;
mod reporter;
mod runs;
mod walked;

pub use answers::{
    answer, write_cube, write_drill, write_plain_cube, write_refusals, write_roll_up, write_slice,
};
pub use cube_build::{Gate, OpenGate, Settings};
pub use cube_live::print_refusals;
pub use cube_merge::{InputFault, MergeFault};
pub use cube_text::{print_cells, print_rows};
pub use fault::{RunFault, TextFault};
pub use fed::Fed;
pub use question::Question;
pub use reporter::Reporter;
pub use runs::{run, run_plain};
