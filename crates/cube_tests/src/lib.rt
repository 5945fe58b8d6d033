//! Tests that need code: runs in threads with gates that hold them, readers and writers that fail, and links.
#![tactic(auto)]

#[cfg(test)]
mod failures;
#[cfg(test)]
mod faults;
#[cfg(test)]
mod feeds;
#[cfg(test)]
mod gates;
#[cfg(test)]
mod held;
#[cfg(test)]
mod meetings;
#[cfg(test)]
mod tests;
#[cfg(test)]
mod texts;
#[cfg(test)]
mod turn;
#[cfg(test)]
mod writers;
