//! Starting and joining the feeders.
ghost use Rattle.std.specs.Prelude.{◌≡◌, ◌≤◌, ◌+◌, vec_len, vec_capacity, OnOk, IfSome};
ghost use Rattle.std.specs.List.{All, AllZip};
ghost use Rattle.cube_rings.specs.Feeding.{Feeds};
ghost use Rattle.cube_rings.specs.Starting.{RosterHasRoom, IsReady, HasGathered, Keeps, StartsLast};

use crate::feeding::feed_out;
use crate::gate::Gate;
use crate::gatherer::Gatherer;
use crate::gathering::gather;
use crate::link_ends::Inlet;
use crate::parcel::FeederEnd;
use crate::roster::{Feeder, NoThread, Roster};
use crate::words::{Word, tell_all, wait_for_word};
use cube_feed::TakesItems;
use std::alloc::Global;
use std::io::Read;
use std::snapshot::Snapshot;
use std::sync::Wait;
use std::thread::{Promise, PromisedHandle, Scope, Threads};

// What a feeder's thread promises of its end.
#[derive(Drop)]
struct PromisesFeed<'e, R: Read + Drop> {
    feeder: Snapshot<Feeder<'e, R>>,
}

impl<'e, R: Read + Drop> Promise<Option<FeederEnd>> for PromisesFeed<'e, R> {
    ghost kept_by = { λ p r. IfSome r
        (Feeds p.feeder.value.feed.to_come p.feeder.value.outlets.items) };
}

fn feed_on_word<W: Wait, R: Read + Drop, G: Gate>(
    rt: &W,
    alloc: Global,
    source: u32,
    post: Inlet<Word>,
    feeder: Feeder<'_, R>,
    gate: &G,
) -> Option<FeederEnd>
    requires { (1 ≤ vec_len feeder.outlets) × (vec_len feeder.outlets ≤ 8) }
    ensures { IfSome result (Feeds feeder.entry.feed.to_come feeder.entry.outlets.items) }
{
    let Feeder { feed, outlets } = feeder;
    match wait_for_word(rt, post) {
        Word::Go => Some(feed_out(rt, alloc, source, feed, outlets, gate)),
        Word::Stop => None,
    }
}

/// Gathers from all links of a builder, and notes whether memory ran out.
pub(crate) fn gather_all<W: Wait, B: TakesItems, G: Gate>(
    rt: &W,
    gatherer: &mut Gatherer<B>,
    gate: &G,
)
    requires { IsReady B.sources B.stands gatherer.old }
    ensures { HasGathered B.stands gatherer.old gatherer.new }
{
    let answer = gather(
        rt,
        gatherer.place,
        &mut gatherer.builder,
        gatherer.inlets.as_mut_slice(),
        gate,
    );
    gatherer.wanting = answer.is_err();
}

// Starts the last of the feeders, and gives back the others. What a feeder holds is large, so it is in no call of the
// recursion over the feeders.
#[inline(never)]
fn start_last<
    's,
    'e: 's,
    T: Threads + Wait + Sync + 'e,
    R: Read + Drop + Send + 'e,
    G: Gate + Sync + 'e,
>(
    rt: &'e T,
    alloc: Global,
    scope: &Scope<'s, &'e ()>,
    gate: &'e G,
    feeders: Vec<Feeder<'e, R>>,
    post: Inlet<Word>,
) -> (
    Vec<Feeder<'e, R>>,
    Option<PromisedHandle<Option<FeederEnd>, PromisesFeed<'e, R>>>,
)
    requires some { 1 ≤ vec_len feeders }
    requires most { vec_len feeders ≤ 64 }
    requires outlets { All
        (λ feeder. (1 ≤ vec_len feeder.outlets) × (vec_len feeder.outlets ≤ 8)) feeders.items }
    ensures { StartsLast feeders.entry.items result.0.items
        (λ feeder. IfSome result.1 (λ child. child.promise.feeder.value ≡ feeder)) }
{
    let source = feeders.len() as u32;
    let mut feeders = feeders;
    let feeder = feeders.pop().unwrap();
    let promise = PromisesFeed {
        feeder: Snapshot::of(&feeder),
    };
    let started = scope.spawn_with(
        promise,
        move || -> Option<FeederEnd>
            requires { (1 ≤ vec_len feeder.outlets) × (vec_len feeder.outlets ≤ 8) }
            ensures { IfSome result (Feeds feeder.entry.feed.to_come feeder.entry.outlets.items) }
        { feed_on_word(rt, alloc, source, post, feeder, gate) },
    );
    (feeders, started.ok())
}

// Keeps what a feeder left, for which there is room, where it and all that were started after it came to their ends.
fn keep_end<B: Drop>(
    answer: Result<(), NoThread>,
    end: Option<FeederEnd>,
    roster: &mut Roster<B>,
) -> Result<(), NoThread>
    requires { OnOk answer (vec_len roster.old.ends + 1 ≤ vec_capacity roster.old.ends) }
    ensures ends { OnOk result (Keeps answer end roster.old.ends.items roster.new.ends.items) }
    ensures room { vec_capacity roster.old.ends ≤ vec_capacity roster.new.ends }
    ensures gatherers { roster.new.gatherers ≡ roster.old.gatherers }
{
    match (answer, end) {
        (Ok(()), Some(end)) => {
            let Ok(()) = roster.ends.push(end) else {
                unreachable!()
            };
            Ok(())
        }
        _ => Err(NoThread),
    }
}

/// Starts the feeders, the last source's first, gathers beside them into the first builder, and joins them.
///
/// Where a thread couldn't be started those that were are told to stop, and nothing is read.
pub(crate) fn with_feeders<
    's,
    'e: 's,
    T: Threads + Wait + Sync + 'e,
    R: Read + Drop + Send + 'e,
    B: TakesItems,
    G: Gate + Sync + 'e,
>(
    rt: &'e T,
    alloc: Global,
    scope: &Scope<'s, &'e ()>,
    gate: &'e G,
    feeders: Vec<Feeder<'e, R>>,
    own: &mut Gatherer<B>,
    roster: &mut Roster<B>,
) -> Result<(), NoThread>
    requires outlets { All
        (λ feeder. (1 ≤ vec_len feeder.outlets) × (vec_len feeder.outlets ≤ 8)) feeders.items }
    requires room { RosterHasRoom (vec_len feeders) (vec_len feeders) roster.old }
    requires ready { IsReady B.sources B.stands own.old }
    ensures ends { OnOk result (AllZip
        (λ feeder end. Feeds feeder.feed.to_come feeder.outlets.items end)
        feeders.entry.items roster.new.ends.items) }
    ensures room { OnOk result (vec_capacity roster.old.ends ≤ vec_capacity roster.new.ends) }
    ensures own { OnOk result (HasGathered B.stands own.old own.new) }
    ensures gatherers { roster.new.gatherers ≡ roster.old.gatherers }
{
    if feeders.is_empty() {
        tell_all(&mut roster.words, Word::Go);
        gather_all(rt, own, gate);
        return Ok(());
    }
    let post = roster.posts.pop().unwrap();
    let (feeders, started) = start_last(rt, alloc, scope, gate, feeders, post);
    let Some(child) = started else {
        tell_all(&mut roster.words, Word::Stop);
        return Err(NoThread);
    };
    let answer = with_feeders(rt, alloc, scope, gate, feeders, own, roster);
    keep_end(answer, child.join(rt), roster)
}
