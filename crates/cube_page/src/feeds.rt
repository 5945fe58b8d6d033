//! Feeds that stand one behind another.
ghost use Rattle.std.specs.Prelude.{◌≡◌, map, IfOk};
ghost use Rattle.cube_page.specs.Page.{feeds_in};

use std::alloc::{AllocError, Global};

/// The feeds that stand one behind another in some bytes, by their lengths; where there are too few bytes, the last feeds
/// have fewer. The only error is that memory ran out.
pub(crate) fn feeds_in<'b>(
    alloc: Global,
    bytes: &'b [u8],
    lengths: &[usize],
) -> Result<Vec<&'b [u8]>, AllocError>
    ensures { IfOk result (λ feeds. map (λ feed. feed.now) feeds.items ≡ feeds_in lengths.now bytes.now) }
{
    let mut feeds = Vec::with_capacity(alloc, lengths.len())?;
    let mut rest = bytes;
    for length in lengths {
        let (feed, behind) = rest.split_at(rest.len().min(*length));
        feeds.push(feed)?;
        rest = behind;
    }
    Ok(feeds)
}
