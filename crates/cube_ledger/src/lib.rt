//! Books and ledgers: from the items of many sources to the facts that are present, and the refusals.
//!
//! A [`Book`] keeps the facts of one source, an [`Account`] its refusals too, and a [`Ledger`] the accounts of all.
#![tactic(auto)]

mod account;
mod book;
mod build;
mod code;
mod fault;
pub mod laws;
mod ledger;
mod ruling;
mod taking;

pub use account::Account;
pub use book::{Book, BookFault, Delta};
pub use build::build_ledger;
pub use code::id_of;
pub use fault::BuildFault;
pub use ledger::Ledger;
pub use ruling::Ruling;
