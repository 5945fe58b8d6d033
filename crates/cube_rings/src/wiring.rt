//! The links from the feeders to the builders, made before any thread starts.
ghost use Rattle.std.specs.Prelude.{◌≡◌, ◌≤◌, [], map, vec_len, IfOk, OnOk};
ghost use Rattle.std.specs.List.{All};
ghost use Rattle.cube_feed.specs.Feed.{rest_of_feed};
ghost use Rattle.cube_rings.specs.Wiring.{Grows, Connects, AreLinked};

use crate::gatherer::{Gatherer, Place};
use crate::link_ends::{Inlet, Outlet, link};
use crate::lots::{LotOutlet, lot_link, lot_size};
use crate::roster::Feeder;
use crate::words::Word;
use cube_core::Schema;
use cube_feed::Feed;
use std::alloc::{AllocError, Global};
use std::io::Read;

// A link to a builder, over which so many lines go in a lot.
fn link_to<B: Drop>(
    alloc: Global,
    capacity: usize,
    size: usize,
    gatherer: &mut Gatherer<B>,
) -> Result<LotOutlet, AllocError>
    requires { (1 ≤ capacity) × (capacity ≤ 65536) }
    ensures { IfOk result (Grows gatherer.old gatherer.new) }
{
    let (outlet, inlet) = lot_link(alloc, capacity, size)?;
    gatherer.inlets.push(inlet)?;
    Ok(outlet)
}

// A link from one source to each builder.
fn connect<B: Drop>(
    alloc: Global,
    capacity: usize,
    size: usize,
    gatherers: &mut [Gatherer<B>],
) -> Result<Vec<LotOutlet>, AllocError>
    requires { (1 ≤ capacity) × (capacity ≤ 65536) }
    ensures { IfOk result (λ outlets. Connects gatherers.old gatherers.new outlets.items) }
{
    let mut outlets = Vec::with_capacity(alloc, gatherers.len())?;
    for gatherer in gatherers.iter_mut() {
        let outlet = link_to(alloc, capacity, size, gatherer)?;
        outlets.push(outlet)?;
    }
    Ok(outlets)
}

// The feeder of a reader, linked to every builder.
fn feeder_of<'e, R: Read + Drop, B: Drop>(
    alloc: Global,
    schema: &'e Schema,
    reader: R,
    capacity: usize,
    size: usize,
    gatherers: &mut [Gatherer<B>],
) -> Result<Feeder<'e, R>, AllocError>
    requires { (1 ≤ capacity) × (capacity ≤ 65536) }
    ensures connects { IfOk result (λ feeder.
        Connects gatherers.old gatherers.new feeder.outlets.items) }
    ensures feed { IfOk result (λ feeder.
        feeder.feed.to_come ≡ rest_of_feed schema.now (R.Read.remaining reader)) }
{
    let outlets = connect(alloc, capacity, size, gatherers)?;
    let feed = Feed::new(alloc, schema, reader);
    Ok(Feeder { feed, outlets })
}

/// The feeders of all readers, each linked to every builder.
pub(crate) fn feeders_of<'e, R: Read + Drop, B: Drop>(
    alloc: Global,
    schema: &'e Schema,
    readers: Vec<R>,
    capacity: usize,
    gatherers: &mut [Gatherer<B>],
) -> Result<Vec<Feeder<'e, R>>, AllocError>
    requires capacity { (1 ≤ capacity) × (capacity ≤ 65536) }
    requires none { All (λ gatherer. gatherer.inlets.items ≡ []) gatherers.old }
    ensures linked { IfOk result (λ feeders.
        AreLinked (map (λ feeder. feeder.outlets.items) feeders.items) gatherers.new) }
    ensures feeds { IfOk result (λ feeders. map (λ feeder. feeder.feed.to_come) feeders.items
        ≡ map (λ reader. rest_of_feed schema.now (R.Read.remaining reader)) readers.items) }
    ensures builders { OnOk result (map (λ gatherer. gatherer.builder) gatherers.new
        ≡ map (λ gatherer. gatherer.builder) gatherers.old) }
{
    let mut feeders = Vec::with_capacity(alloc, readers.len())?;
    let size = lot_size(capacity, readers.len());
    for reader in readers {
        let feeder = feeder_of(alloc, schema, reader, capacity, size, gatherers)?;
        feeders.push(feeder)?;
    }
    Ok(feeders)
}

/// The builders, each with room for a link from each source.
pub(crate) fn gatherers_of<B: Drop>(
    alloc: Global,
    builders: Vec<B>,
    sources: usize,
) -> Result<Vec<Gatherer<B>>, AllocError>
    requires { vec_len builders ≤ 8 }
    ensures builders { IfOk result (λ gatherers.
        map (λ gatherer. gatherer.builder) gatherers.items ≡ builders.items) }
    ensures none { IfOk result (λ gatherers.
        All (λ gatherer. gatherer.inlets.items ≡ []) gatherers.items) }
{
    let mut gatherers = Vec::with_capacity(alloc, builders.len())?;
    for builder in builders {
        let inlets = Vec::with_capacity(alloc, sources)?;
        let place = Place {
            builder: gatherers.len() as u32,
            before: 0,
        };
        gatherers.push(Gatherer {
            builder,
            place,
            inlets,
            wanting: false,
        })?;
    }
    Ok(gatherers)
}

/// The two ends of so many links for a word each.
pub(crate) fn words_for(
    alloc: Global,
    count: usize,
) -> Result<(Vec<Outlet<Word>>, Vec<Inlet<Word>>), AllocError>
    ensures { IfOk result (λ ends. vec_len ends.1 ≡ count) }
{
    let mut words = Vec::with_capacity(alloc, count)?;
    let mut posts = Vec::with_capacity(alloc, count)?;
    for _ in 0..count {
        let (word, post) = link(alloc, 1)?;
        words.push(word)?;
        posts.push(post)?;
    }
    Ok((words, posts))
}
