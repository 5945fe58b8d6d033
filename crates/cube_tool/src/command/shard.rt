//! The word of a share.
ghost use Rattle.std.specs.Prelude.{◌≡◌, IfSome, option_map};
ghost use Rattle.cube_core.specs.Shard.{IsShard};
ghost use Rattle.cube_tool.specs.ShardWord.{halves_of, shard_named, shard_numbered};

use cube_core::Shard;
use cube_live::count_of;

/// The share of the feeds that a word names, as `J/N`: J from 1 to N, and N from 1 to 65536, each in digits alone with no
/// leading zero. None for any other word.
pub fn read_shard(word: &str) -> Option<Shard>
    ensures named { result ≡ shard_named word.now }
    ensures lawful { IfSome result IsShard }
{
    let (place, count) = halves_of(word)?;
    let place = count_of(place.as_bytes())?;
    let count = count_of(count.as_bytes())?;
    shard_numbered(place, count)
}

// What stands before the first slash, and what after it, where there is one.
fn halves_of(word: &str) -> Option<(&str, &str)>
    ensures { option_map (λ halves. (halves.0.now, halves.1.now)) result ≡ halves_of word.now }
{
    word.split_once('/')
}

// The share that is so many-th of so many.
fn shard_numbered(place: u64, count: u64) -> Option<Shard>
    ensures numbered { result ≡ shard_numbered place count }
    ensures lawful { IfSome result IsShard }
{
    if 1 <= place && place <= count && count <= 65536 {
        Some(Shard {
            place: (place - 1) as u32,
            count: count as u32,
        })
    } else {
        None
    }
}
