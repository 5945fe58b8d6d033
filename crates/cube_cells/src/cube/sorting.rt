//! Items put in the order of their codes on several threads.
ghost use Rattle.std.specs.Prelude.{◌<◌, OnOk};
ghost use Rattle.std.specs.Cmp.Lexicographic.{slice_cmp};
ghost use Rattle.std.specs.List.Sorted.{IsPermutation, IsSortedBy};
ghost use Rattle.std.specs.Ordering.{is_lt, nat_cmp};
ghost use Rattle.std.specs.Thread.{IsSend, IsSync};

use super::bottom_up::Item;
use cube_values::Numbers;
use std::alloc::AllocError;
use std::thread::{Threads, join_mut};

/// How many items are too few for several threads.
pub const FEW: usize = 4_096;

/// Puts items in the order of their codes. Each of about so many threads puts a piece of them in order, and the pieces are
/// merged; with one thread, or few items, no thread is started. The only error is that memory ran out.
pub fn put_in_order<T: Threads + Sync, N: Numbers + Send + Sync>(
    rt: &T,
    threads: usize,
    items: &mut Vec<Item<N>>,
) -> Result<(), AllocError>
    ensures same { IsPermutation items.old.items items.new.items }
    ensures order { OnOk result
        (IsSortedBy (λ a b. is_lt (slice_cmp nat_cmp a.codes.codes b.codes.codes)) items.new.items) }
{
    if threads < 2 || items.len() < FEW {
        items.sort_unstable_by(|a, b| a.codes.cmp(&b.codes));
        return Ok(());
    }
    sort_pieces(rt, threads, items);
    items.sort_by(|a, b| a.codes.cmp(&b.codes))
}

// Puts about so many pieces of items in order, each on a thread of its own. What sorts all of them then finds them in order.
#[cycle(pieces)]
fn sort_pieces<T: Threads + Sync, N: Numbers + Send + Sync>(
    rt: &T,
    pieces: usize,
    items: &mut [Item<N>],
)
    ensures { IsPermutation items.old items.new }
{
    if pieces < 2 {
        items.sort_unstable_by(|a, b| a.codes.cmp(&b.codes));
    } else {
        let (low, high) = items.split_at_mut(items.len() / 2);
        sort_both(rt, pieces, low, high);
    }
}

// Puts the pieces of both halves of items in order.
#[cycle(pieces)]
fn sort_both<T: Threads + Sync, N: Numbers + Send + Sync>(
    rt: &T,
    pieces: usize,
    low: &mut [Item<N>],
    high: &mut [Item<N>],
)
    requires { 1 < pieces }
    ensures low { IsPermutation low.old low.new }
    ensures high { IsPermutation high.old high.new }
{
    let mut front = ||
        requires { IsSync T.row × IsSend N.row × IsSync N.row × (1 < pieces) }
        ensures { IsPermutation low.entry.now low.exit.now }
    { sort_pieces(rt, pieces.div_ceil(2), low) };
    let mut back = ||
        requires { IsSync T.row × IsSend N.row × IsSync N.row × (1 < pieces) }
        ensures { IsPermutation high.entry.now high.exit.now }
    { sort_pieces(rt, pieces.div_ceil(2), high) };
    join_mut(rt, &mut front, &mut back);
}
