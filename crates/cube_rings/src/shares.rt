//! Cutting the links of all sources into the shares of builders, and putting them together again.
ghost use Rattle.std.specs.Prelude.{◌≡◌, ◌≤◌, ◌∷◌, [], ℕ, sum_by, vec_len, IfOk};
ghost use Rattle.std.specs.List.{All};
ghost use Rattle.cube_rings.specs.Wholes.{IsWholeOf};

use crate::gatherer::{Gatherer, Place};
use crate::lots::LotInlet;
use cube_feed::TakesItems;
use std::alloc::{AllocError, Global};

/// Gives each of these builders the links of its sources: the first those of the first sources, the next of those that
/// follow, and so on. The only error is that memory ran out.
pub fn cut_up<B: TakesItems>(
    alloc: Global,
    whole: Gatherer<Vec<B>>,
) -> Result<Vec<Gatherer<B>>, AllocError>
    requires sources { sum_by B.sources whole.builder.items ≡ vec_len whole.inlets }
    requires most { vec_len whole.inlets ≤ 64 }
    ensures whole { IfOk result (λ shares. IsWholeOf shares.items whole) }
    ensures sources { IfOk result (λ shares.
        All (λ share. vec_len share.inlets ≡ B.sources share.builder) shares.items) }
{
    let Gatherer {
        builder: builders,
        place: _,
        inlets,
        wanting: _,
    } = whole;
    let all = inlets.len();
    let mut inlets = inlets;
    let mut shares = Vec::with_capacity(alloc, builders.len())?;
    for builder in builders {
        let before = (all - inlets.len()) as u32;
        let rest = inlets.split_off(builder.sources() as usize)?;
        shares.push(Gatherer {
            builder,
            place: Place { builder: 0, before },
            inlets,
            wanting: false,
        })?;
        inlets = rest;
    }
    Ok(shares)
}

/// Puts the builders of all shares together, with the links of all sources in their order. The only error is that memory ran
/// out.
pub fn put_together<B: Drop>(
    alloc: Global,
    shares: Vec<Gatherer<B>>,
) -> Result<Gatherer<Vec<B>>, AllocError>
    ensures { IfOk result (IsWholeOf shares.items) }
{
    let mut builders = Vec::with_capacity(alloc, shares.len())?;
    let mut inlets: Vec<LotInlet> = Vec::new(alloc);
    let mut wanting = false;
    for share in shares {
        let mut share = share;
        wanting = wanting || share.wanting;
        inlets.append(&mut share.inlets)?;
        builders.push(share.builder)?;
    }
    Ok(Gatherer {
        builder: builders,
        place: Place {
            builder: 0,
            before: 0,
        },
        inlets,
        wanting,
    })
}
