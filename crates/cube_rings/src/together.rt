//! All threads of a run, in one scope.
ghost use Rattle.std.specs.Prelude.{◌≤◌, vec_len, OnOk};
ghost use Rattle.std.specs.List.{All, AllZip};
ghost use Rattle.cube_rings.specs.Feeding.{Feeds};
ghost use Rattle.cube_rings.specs.Starting.{MayStart, IsReady, HasGathered};

use crate::gate::Gate;
use crate::gatherer::Gatherer;
use crate::roster::{Feeder, NoThread, Roster};
use crate::starting_builders::with_builders;
use cube_feed::TakesItems;
use std::alloc::Global;
use std::io::Read;
use std::sync::Wait;
use std::thread;
use std::thread::Threads;

/// Runs the builders and the feeders in threads of their own, the first builder on the caller's, and gives back
/// what they did.
pub fn run_together<
    'e,
    T: Threads + Wait + Sync + 'e,
    R: Read + Drop + Send + 'e,
    B: TakesItems + Send + 'e,
    G: Gate + Sync + 'e,
>(
    rt: &'e T,
    alloc: Global,
    gate: &'e G,
    builders: Vec<Gatherer<B>>,
    feeders: Vec<Feeder<'e, R>>,
    roster: Roster<B>,
) -> (Roster<B>, Result<(), NoThread>)
    requires outlets { All
        (λ feeder. (1 ≤ vec_len feeder.outlets) × (vec_len feeder.outlets ≤ 8)) feeders.items }
    requires start { MayStart (vec_len builders) (vec_len feeders) roster }
    requires ready { All (IsReady B.sources B.stands) builders.items }
    ensures ends { OnOk result.1 (AllZip
        (λ feeder end. Feeds feeder.feed.to_come feeder.outlets.items end)
        feeders.entry.items result.0.ends.items) }
    ensures gatherers { OnOk result.1
        (AllZip (HasGathered B.stands) builders.items result.0.gatherers.items) }
{
    thread::scope(
        thread::scope_env(),
        rt,
        move |scope| -> (Roster<B>, Result<(), NoThread>)
            requires outlets { All
                (λ feeder. (1 ≤ vec_len feeder.outlets) × (vec_len feeder.outlets ≤ 8))
                feeders.items }
            requires start { MayStart (vec_len builders) (vec_len feeders) roster }
            requires ready { All (IsReady B.sources B.stands) builders.items }
            ensures ends { OnOk result.1 (AllZip
                (λ feeder end. Feeds feeder.feed.to_come feeder.outlets.items end)
                feeders.entry.items result.0.ends.items) }
            ensures gatherers { OnOk result.1
                (AllZip (HasGathered B.stands) builders.items result.0.gatherers.items) }
        {
            let mut roster = roster;
            let answer = with_builders(rt, alloc, scope, gate, builders, feeders, &mut roster);
            (roster, answer)
        },
    )
}
