//! Starting and joining the builders.
ghost use Rattle.std.specs.Prelude.{◌≡◌, ◌≤◌, ◌+◌, ◌∷◌, [], vec_len, vec_capacity, OnOk, IfSome};
ghost use Rattle.std.specs.List.{All, AllZip};
ghost use Rattle.cube_rings.specs.Feeding.{Feeds};
ghost use Rattle.cube_rings.specs.Starting.{MayStart, IsReady, HasGathered, Keeps};

use crate::gate::Gate;
use crate::gatherer::Gatherer;
use crate::link_ends::Inlet;
use crate::parcel::Parcel;
use crate::roster::{Feeder, NoThread, Roster};
use crate::starting_feeders::{gather_all, with_feeders};
use crate::words::{Word, tell_all, wait_for_word};
use cube_feed::TakesItems;
use std::alloc::Global;
use std::io::Read;
use std::snapshot::Snapshot;
use std::sync::Wait;
use std::thread::{Promise, PromisedHandle, Scope, Threads};

// What a builder's thread promises of what it gives back.
#[derive(Drop)]
struct PromisesGather<B: TakesItems> {
    old: Snapshot<Gatherer<B>>,
}

impl<B: TakesItems> Promise<Option<Gatherer<B>>> for PromisesGather<B> {
    ghost kept_by = { λ p r. IfSome r (HasGathered B.stands p.old.value) };
}

fn gather_on_word<W: Wait, B: TakesItems, G: Gate>(
    rt: &W,
    post: Inlet<Word>,
    gatherer: Gatherer<B>,
    gate: &G,
) -> Option<Gatherer<B>>
    requires { IsReady B.sources B.stands gatherer }
    ensures { IfSome result (HasGathered B.stands gatherer) }
{
    let mut gatherer = gatherer;
    match wait_for_word(rt, post) {
        Word::Go => {
            gather_all(rt, &mut gatherer, gate);
            Some(gatherer)
        }
        Word::Stop => None,
    }
}

// Keeps what a builder gathered, for which there is room, where it and all that were started after it came to their ends.
fn keep<B: TakesItems>(
    answer: Result<(), NoThread>,
    gatherer: Option<Gatherer<B>>,
    roster: &mut Roster<B>,
) -> Result<(), NoThread>
    requires { OnOk answer (vec_len roster.old.gatherers + 1 ≤ vec_capacity roster.old.gatherers) }
    ensures gatherers { OnOk result
        (Keeps answer gatherer roster.old.gatherers.items roster.new.gatherers.items) }
    ensures room { vec_capacity roster.old.gatherers ≤ vec_capacity roster.new.gatherers }
    ensures ends { roster.new.ends ≡ roster.old.ends }
{
    match (answer, gatherer) {
        (Ok(()), Some(gatherer)) => {
            let Ok(()) = roster.gatherers.push(gatherer) else {
                unreachable!()
            };
            Ok(())
        }
        _ => Err(NoThread),
    }
}

// Starts a builder, which waits for a word before it gathers.
fn start<'s, 'e: 's, T: Threads + Wait + Sync + 'e, B: TakesItems + Send + 'e, G: Gate + Sync + 'e>(
    rt: &'e T,
    scope: &Scope<'s, &'e ()>,
    gate: &'e G,
    gatherer: Gatherer<B>,
    post: Inlet<Word>,
) -> Option<PromisedHandle<Option<Gatherer<B>>, PromisesGather<B>>>
    requires ready { IsReady B.sources B.stands gatherer }
    ensures { IfSome result (λ child. child.promise.old.value ≡ gatherer) }
{
    let promise = PromisesGather {
        old: Snapshot::of(&gatherer),
    };
    let started = scope.spawn_with(
        promise,
        move || -> Option<Gatherer<B>>
            requires { IsReady B.sources B.stands gatherer }
            ensures { IfSome result (HasGathered B.stands gatherer) }
        { gather_on_word(rt, post, gatherer, gate) },
    );
    started.ok()
}

// Starts the feeders, gathers into the first builder on this thread, and keeps what it gathered.
fn with_first<
    's,
    'e: 's,
    T: Threads + Wait + Sync + 'e,
    R: Read + Drop + Send + 'e,
    B: TakesItems,
    G: Gate + Sync + 'e,
>(
    rt: &'e T,
    alloc: Global,
    scope: &Scope<'s, &'e ()>,
    gate: &'e G,
    gatherer: Gatherer<B>,
    feeders: Vec<Feeder<'e, R>>,
    roster: &mut Roster<B>,
) -> Result<(), NoThread>
    requires outlets { All
        (λ feeder. (1 ≤ vec_len feeder.outlets) × (vec_len feeder.outlets ≤ 8)) feeders.items }
    requires start { MayStart 1 (vec_len feeders) roster.old }
    requires ready { IsReady B.sources B.stands gatherer }
    ensures ends { OnOk result (AllZip
        (λ feeder end. Feeds feeder.feed.to_come feeder.outlets.items end)
        feeders.entry.items roster.new.ends.items) }
    ensures gatherers { OnOk result
        (AllZip (HasGathered B.stands) (gatherer ∷ []) roster.new.gatherers.items) }
    ensures room { OnOk result
        (vec_capacity roster.old.gatherers ≤ vec_capacity roster.new.gatherers) }
{
    let mut gatherer = gatherer;
    let answer = with_feeders(rt, alloc, scope, gate, feeders, &mut gatherer, roster);
    keep(answer, Some(gatherer), roster)
}

/// Starts all builders but the first, the last one first, then the feeders, and joins them all. The first builder
/// gathers on the caller's thread.
///
/// Where a thread couldn't be started those that were are told to stop, and nothing is read.
pub(crate) fn with_builders<
    's,
    'e: 's,
    T: Threads + Wait + Sync + 'e,
    R: Read + Drop + Send + 'e,
    B: TakesItems + Send + 'e,
    G: Gate + Sync + 'e,
>(
    rt: &'e T,
    alloc: Global,
    scope: &Scope<'s, &'e ()>,
    gate: &'e G,
    builders: Vec<Gatherer<B>>,
    feeders: Vec<Feeder<'e, R>>,
    roster: &mut Roster<B>,
) -> Result<(), NoThread>
    requires outlets { All
        (λ feeder. (1 ≤ vec_len feeder.outlets) × (vec_len feeder.outlets ≤ 8)) feeders.items }
    requires start { MayStart (vec_len builders) (vec_len feeders) roster.old }
    requires ready { All (IsReady B.sources B.stands) builders.items }
    ensures ends { OnOk result (AllZip
        (λ feeder end. Feeds feeder.feed.to_come feeder.outlets.items end)
        feeders.entry.items roster.new.ends.items) }
    ensures gatherers { OnOk result
        (AllZip (HasGathered B.stands) builders.items roster.new.gatherers.items) }
    ensures room { OnOk result
        (vec_capacity roster.old.gatherers ≤ vec_capacity roster.new.gatherers) }
{
    let mut builders = builders;
    let gatherer = builders.pop().unwrap();
    if builders.is_empty() {
        return with_first(rt, alloc, scope, gate, gatherer, feeders, roster);
    }
    let post = roster.posts.pop().unwrap();
    let Some(child) = start(rt, scope, gate, gatherer, post) else {
        tell_all(&mut roster.words, Word::Stop);
        return Err(NoThread);
    };
    let answer = with_builders(rt, alloc, scope, gate, builders, feeders, roster);
    keep(answer, child.join(rt), roster)
}
