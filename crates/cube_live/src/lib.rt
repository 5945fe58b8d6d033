//! A cube that is kept right change by change, and sessions over it.
//!
//! [`open`] takes the feeds that come before a session, [`request_of`] says what a record of one asks, and [`Live`] takes
//! changes and answers questions. [`serve`] takes the records of an input to its end and writes the reply to each, and a
//! [`Journal`] is told of each change before it is applied.
#![tactic(auto)]

mod journal;
mod live;
mod number;
mod opening;
mod parse;
mod refusals;
mod reply;
mod request;
mod rests;
mod rows;
mod session;

pub use journal::{Journal, JournalFault, NoJournal};
pub use live::{Live, LiveFault};
pub use number::count_of;
pub use opening::{open, open_unsettled};
pub use parse::request_of;
pub use refusals::print_refusals;
pub use reply::{code_text, ok_line};
pub use request::{Question, Request, RequestFault};
pub use rests::{NeverRests, Rests};
pub use session::{SessionFault, serve};
