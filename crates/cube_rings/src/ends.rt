//! What the feeders' ends say of a run.
ghost use Rattle.std.specs.Prelude.{◌≡◌, ◌≤◌, length, IfNone, IfSome, IsTrue, IsFalse};
ghost use Rattle.std.specs.List.{All};
ghost use Rattle.cube_rings.specs.Ends.{HasNoStop, IsFirstStop, IsSealed, IsFirstUnsealed};

use crate::parcel::FeederEnd;
use cube_feed::FeedFault;

/// The lowest source whose end has a stop, with that stop; entry s - 1 is source s.
pub fn first_stop(ends: &[FeederEnd]) -> Option<(u32, FeedFault)>
    requires { length ends.now ≤ 64 }
    ensures none { IfNone result (All HasNoStop ends.now) }
    ensures some { IfSome result (λ first. IsFirstStop ends.now first.0 first.1) }
{
    let mut source = 1u32;
    for end in ends {
        if let Some(fault) = end.stop {
            return Some((source, fault));
        }
        source += 1;
    }
    None
}

// Whether each of the first so many links gave a receipt.
fn is_sealed(end: &FeederEnd, builders: u32) -> bool
    requires { builders ≤ 8 }
    ensures sealed { IsTrue result → IsSealed builders end.now }
    ensures not { IsFalse result → IsSealed builders end.now → ⊥ }
{
    for j in 0..builders as usize {
        if end.receipts[j].is_none() {
            return false;
        }
    }
    true
}

/// The lowest source that lacks a receipt of its link to one of the first `builders` builders; entry s - 1 is
/// source s.
pub fn first_unsealed(ends: &[FeederEnd], builders: u32) -> Option<u32>
    requires few { length ends.now ≤ 64 }
    requires builders { (1 ≤ builders) × (builders ≤ 8) }
    ensures none { IfNone result (All (IsSealed builders) ends.now) }
    ensures some { IfSome result (IsFirstUnsealed builders ends.now) }
{
    let mut source = 1u32;
    for end in ends {
        if !is_sealed(end, builders) {
            return Some(source);
        }
        source += 1;
    }
    None
}
