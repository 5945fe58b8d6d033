//! What is made before a thread starts.
ghost use Rattle.std.specs.Prelude.{◌≡◌, ◌≤◌, ◌∷◌, [], map, sum_by, vec_len, IfOk};
ghost use Rattle.std.specs.List.{All};
ghost use Rattle.cube_rings.specs.Starting.{IsReady, MayStart};
ghost use Rattle.cube_rings.specs.Shares.{AreLinkedInShares};
ghost use Rattle.cube_feed.specs.Feed.{rest_of_feed};
ghost use Rattle.cube_rings.specs.Wiring.{AreLinked};

use crate::gatherer::Gatherer;
use crate::roster::{Feeder, Roster};
use crate::shares::cut_up;
use crate::wiring::{feeders_of, gatherers_of, words_for};
use cube_core::Schema;
use cube_feed::TakesItems;
use std::alloc::{AllocError, Global};
use std::io::Read;

/// The builders and the feeders of a run, linked, and room for what their threads give back.
#[derive(Drop)]
pub struct Setup<'e, R: Read + Drop, B: TakesItems> {
    pub gatherers: Vec<Gatherer<B>>,
    pub feeders: Vec<Feeder<'e, R>>,
    pub roster: Roster<B>,
}

// A roster with room and posts for so many sources and builders.
fn roster_of<B: TakesItems>(
    alloc: Global,
    sources: usize,
    count: usize,
) -> Result<Roster<B>, AllocError>
    requires sources { sources ≤ 64 }
    requires builders { (1 ≤ count) × (count ≤ 8) }
    ensures { IfOk result (MayStart count sources) }
{
    let (words, posts) = words_for(alloc, sources + count)?;
    Ok(Roster {
        words,
        posts,
        ends: Vec::with_capacity(alloc, sources)?,
        gatherers: Vec::with_capacity(alloc, count)?,
    })
}

// Builders with their links, and the feeders of all readers, each linked to every builder. The only error is that memory ran
// out.
fn link_up<'e, R: Read + Drop, B: Drop>(
    alloc: Global,
    schema: &'e Schema,
    readers: Vec<R>,
    capacity: usize,
    builders: Vec<B>,
) -> Result<(Vec<Gatherer<B>>, Vec<Feeder<'e, R>>), AllocError>
    requires capacity { (1 ≤ capacity) × (capacity ≤ 65536) }
    requires builders { vec_len builders ≤ 8 }
    ensures linked { IfOk result (λ ends.
        AreLinked (map (λ feeder. feeder.outlets.items) ends.1.items) ends.0.items) }
    ensures feeds { IfOk result (λ ends. map (λ feeder. feeder.feed.to_come) ends.1.items
        ≡ map (λ reader. rest_of_feed schema.now (R.Read.remaining reader)) readers.items) }
    ensures builders { IfOk result (λ ends.
        map (λ gatherer. gatherer.builder) ends.0.items ≡ builders.items) }
{
    let mut gatherers = gatherers_of(alloc, builders, readers.len())?;
    let feeders = feeders_of(alloc, schema, readers, capacity, gatherers.as_mut_slice())?;
    Ok((gatherers, feeders))
}

/// Links a feeder of each reader to every builder. The only error is that memory ran out.
pub fn set_up<'e, R: Read + Drop, B: TakesItems>(
    alloc: Global,
    schema: &'e Schema,
    readers: Vec<R>,
    capacity: usize,
    builders: Vec<B>,
) -> Result<Setup<'e, R, B>, AllocError>
    requires readers { vec_len readers ≤ 64 }
    requires capacity { (1 ≤ capacity) × (capacity ≤ 65536) }
    requires builders { (1 ≤ vec_len builders) × (vec_len builders ≤ 8) }
    ensures linked { IfOk result (λ setup. AreLinked
        (map (λ feeder. feeder.outlets.items) setup.feeders.items) setup.gatherers.items) }
    ensures feeds { IfOk result (λ setup. map (λ feeder. feeder.feed.to_come) setup.feeders.items
        ≡ map (λ reader. rest_of_feed schema.now (R.Read.remaining reader)) readers.items) }
    ensures builders { IfOk result (λ setup.
        map (λ gatherer. gatherer.builder) setup.gatherers.items ≡ builders.items) }
    ensures count { IfOk result (λ setup. vec_len setup.gatherers ≡ vec_len builders) }
    ensures start { IfOk result (λ setup.
        MayStart (vec_len setup.gatherers) (vec_len setup.feeders) setup.roster) }
{
    let sources = readers.len();
    let count = builders.len();
    let (gatherers, feeders) = link_up(alloc, schema, readers, capacity, builders)?;
    let roster = roster_of(alloc, sources, count)?;
    Ok(Setup {
        gatherers,
        feeders,
        roster,
    })
}

/// Links a feeder of each reader to the builder of its share: the first builder has the first readers, as many as it has
/// sources, and so on. The only error is that memory ran out.
pub fn set_up_shares<'e, R: Read + Drop, B: TakesItems>(
    alloc: Global,
    schema: &'e Schema,
    readers: Vec<R>,
    capacity: usize,
    builders: Vec<B>,
) -> Result<Setup<'e, R, B>, AllocError>
    requires readers { vec_len readers ≤ 64 }
    requires capacity { (1 ≤ capacity) × (capacity ≤ 65536) }
    requires builders { (1 ≤ vec_len builders) × (vec_len builders ≤ 8) }
    requires sources { sum_by B.sources builders.items ≡ vec_len readers }
    requires new { All (λ builder. B.stands builder builder []) builders.items }
    ensures linked { IfOk result (λ setup. AreLinkedInShares
        (map (λ feeder. feeder.outlets.items) setup.feeders.items) builders
        setup.gatherers.items) }
    ensures feeds { IfOk result (λ setup. map (λ feeder. feeder.feed.to_come) setup.feeders.items
        ≡ map (λ reader. rest_of_feed schema.now (R.Read.remaining reader)) readers.items) }
    ensures sources { IfOk result (λ setup.
        All (λ share. vec_len share.inlets ≡ B.sources share.builder) setup.gatherers.items) }
    ensures ready { IfOk result (λ setup.
        All (IsReady B.sources B.stands) setup.gatherers.items) }
    ensures start { IfOk result (λ setup.
        MayStart (vec_len setup.gatherers) (vec_len setup.feeders) setup.roster) }
{
    let sources = readers.len();
    let count = builders.len();
    let one = only(alloc, builders)?;
    let (wholes, feeders) = link_up(alloc, schema, readers, capacity, one)?;
    let mut wholes = wholes;
    let gatherers = cut_up(alloc, wholes.swap_remove(0))?;
    let roster = roster_of(alloc, sources, count)?;
    Ok(Setup {
        gatherers,
        feeders,
        roster,
    })
}

/// A list of one element. The only error is that memory ran out.
pub(crate) fn only<X: Drop>(alloc: Global, one: X) -> Result<Vec<X>, AllocError>
    ensures { IfOk result (λ list. list.items ≡ one ∷ []) }
{
    let mut list = Vec::with_capacity(alloc, 1)?;
    list.push(one)?;
    Ok(list)
}
