//! Numbers that are kept: the multiset that clauses speak of, and the forms that keep one.
//!
//! [`Counted`] is a multiset of numbers, which makes the least and the greatest value right under deletes, and whose
//! statistics are exact: its numbers in order, how many are different, which stands at a place, and the sum of their
//! squares. It takes one of several forms, two of which are [`Single`], one number however often, and [`Narrow`], a list
//! of numbers of 32 bits. [`Summary`] keeps how many there are, the least and the greatest, where no number is taken
//! away; [`Numbers`] is what is asked of either. [`held`] has what is asked of values that an answer lists.
#![tactic(auto)]

mod counted;
mod counted_numbers;
pub mod held;
pub mod laws;
mod log;
mod narrow;
mod numbers;
mod ordered;
mod paid;
mod percentile;
mod repeats;
mod short;
mod single;
mod squares;
mod summary;
mod table;
mod trace;
mod up_to;

pub use counted::Counted;
pub use narrow::Narrow;
pub use numbers::Numbers;
pub use percentile::percentile_place;
pub use repeats::is_repetitive;
pub use single::Single;
pub use summary::Summary;
