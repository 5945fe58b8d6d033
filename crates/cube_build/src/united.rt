//! The ledgers of shards, put together as the ledger of the whole feed.
ghost use Rattle.std.specs.Prelude.{◌≡◌, ◌∷◌, [], List, flat_map, IfOk};
ghost use Rattle.cube_core.specs.declared.change.Refusal.{Refusal as TheRefusal};
ghost use Rattle.cube_ledger.specs.Ledger.{new_account};
ghost use Rattle.cube_build.specs.Sharded.{AreMerged, AreUnitedCounts, HasRefusals, Rise, refused_numbers};

use crate::counts::Counts;
use crate::fill::finest_with;
use crate::trace::LedgerTrace;
use cube_cells::{Cube, Numbers};
use cube_core::{Condition, Refusal};
use cube_ledger::Ledger;
use std::alloc::{AllocError, Global};
use std::thread::Threads;

/// The counts of the facts of interest of one source, made by so many threads: it has the facts of all accounts of a ledger,
/// and their refusals in the order of their numbers, which are noted in an empty ledger. The books are let go of. The only error
/// is that memory ran out, or that two refusals have one number.
pub(crate) fn unite<T: Threads + Sync, N: Numbers + Send + Sync>(
    rt: &T,
    alloc: Global,
    threads: usize,
    apart: Ledger,
    fresh: Ledger,
    conditions: &[Condition],
) -> Result<Counts<N>, AllocError>
    requires fresh { fresh.accounts ≡ new_account ∷ [] }
    requires schema { apart.schema ≡ fresh.schema }
    ensures { IfOk result (AreUnitedCounts conditions.now apart) }
{
    let mut apart = apart;
    let refused = merged_refusals(alloc, &apart, fresh)?;
    apart.keep(conditions);
    let cube = Cube::finest_over(alloc, apart.schema())?;
    let cube = finest_with(rt, alloc, threads, &cube, &apart)?;
    let trace = LedgerTrace::uniting(&apart, &refused);
    apart.forget(rt);
    Ok(Counts::new(refused, cube, trace))
}

// An empty ledger of one source with the refusals of all accounts of another, in the order of their numbers. The only error
// is that memory ran out, or that two have one number.
fn merged_refusals(alloc: Global, apart: &Ledger, fresh: Ledger) -> Result<Ledger, AllocError>
    requires { fresh.accounts ≡ new_account ∷ [] }
    ensures { IfOk result (λ refused. (refusals : List TheRefusal) × AreMerged apart.now.accounts refusals
        × HasRefusals fresh.schema refusals refused) }
{
    let mut refusals = all_refusals(alloc, apart)?;
    refusals.sort_unstable_by_key(|refusal| refusal.number);
    refuse_all(fresh, &refusals)
}

// The refusals of all accounts, account after account. The only error is that memory ran out.
fn all_refusals(alloc: Global, apart: &Ledger) -> Result<Vec<Refusal>, AllocError>
    ensures { IfOk result (λ refusals.
        refusals.items ≡ flat_map (λ account. account.refusals) apart.now.accounts) }
{
    let mut refusals = Vec::new(alloc);
    for account in apart.accounts() {
        refusals.extend_from_slice(account.refusals())?;
    }
    Ok(refusals)
}

// Notes refusals in an empty ledger of one source. The only error is that memory ran out, or that their numbers don't rise.
fn refuse_all(fresh: Ledger, refusals: &[Refusal]) -> Result<Ledger, AllocError>
    requires { fresh.accounts ≡ new_account ∷ [] }
    ensures rise { IfOk result (λ refused. Rise 0 (refused_numbers refusals.now)) }
    ensures refused { IfOk result (HasRefusals fresh.schema refusals.now) }
{
    let mut refused = fresh;
    let mut last = 0;
    for refusal in refusals {
        if refusal.number <= last {
            return Err(AllocError);
        }
        refused.refuse(1, refusal.number, refusal.code)?;
        last = refusal.number;
    }
    Ok(refused)
}
