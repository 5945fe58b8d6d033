//! The place of a percentile.
ghost use Rattle.std.specs.Prelude.{◌≡◌, ◌≤◌, true};
ghost use Rattle.cube_core.specs.Answer.{percentile_place};
ghost use Rattle.cube_core.specs.Layout.{is_level};

/// The place of a percentile of this level among so many values, counted from 1.
pub fn percentile_place(units: u16, places: u8, count: u64) -> u64
    requires some { 1 ≤ count }
    requires level { is_level units places ≡ true }
    ensures place { result ≡ percentile_place units places count }
    ensures first { 1 ≤ result }
    ensures last { result ≤ count }
{
    let scale = 10u128.pow(u32::from(places));
    let place = (u128::from(units) * u128::from(count) + scale - 1) / scale;
    place.max(1) as u64
}
