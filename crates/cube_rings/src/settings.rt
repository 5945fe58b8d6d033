//! How a build in threads is made.
ghost use Rattle.std.specs.Prelude.{◌≡◌, ◌≤◌, IfNone, IfSome};
ghost use Rattle.cube_rings.specs.Settings.{AreSettings};

use std::marker::Model;

/// How a build in threads is made: the room of each link, the number of builders, and the number of threads.
///
/// Nothing that a build gives depends on them.
#[derive(Debug, Drop)]
pub struct Settings {
    capacity: usize,
    builders: u32,
    threads: usize,
}

impl Model for Settings {
    ghost use Rattle.cube_rings.specs.Settings.{SettingsView, AreSettings};

    ghost Value = { SettingsView };

    ghost view = { λ s. record { capacity = s.capacity; builders = s.builders; threads = s.threads } };

    ghost invariant = { λ s. AreSettings s.capacity s.builders s.threads };
}

impl Settings {
    /// Settings of links with room for 1 to 65536 lots, 1 to 8 builders, and 1 to 16 threads that work side by
    /// side once the feeds have ended, and take the feeds where there is one builder; `None` where a number is out of
    /// these bounds.
    pub fn new(capacity: usize, builders: u32, threads: usize) -> Option<Settings>
        ensures some { IfSome result (λ settings. (settings.capacity ≡ capacity)
            × (settings.builders ≡ builders) × (settings.threads ≡ threads)) }
        ensures none { IfNone result (AreSettings capacity builders threads → ⊥) }
    {
        let is_lawful = (1..=65536).contains(&capacity)
            && (1..=8).contains(&builders)
            && (1..=16).contains(&threads);
        if is_lawful {
            Some(Settings {
                capacity,
                builders,
                threads,
            })
        } else {
            None
        }
    }

    /// The room of each link in lots.
    pub fn capacity(&self) -> usize
        ensures value { result ≡ self.now.capacity }
        ensures bounds { (1 ≤ result) × (result ≤ 65536) }
    {
        self.capacity
    }

    /// The number of builders.
    pub fn builders(&self) -> u32
        ensures value { result ≡ self.now.builders }
        ensures bounds { (1 ≤ result) × (result ≤ 8) }
    {
        self.builders
    }

    /// The most threads that work side by side once the feeds have ended, and that take the feeds for one builder.
    pub fn threads(&self) -> usize
        ensures value { result ≡ self.now.threads }
        ensures bounds { (1 ≤ result) × (result ≤ 16) }
    {
        self.threads
    }
}
