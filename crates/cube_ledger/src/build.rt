//! The ledger of whole feeds, one source after another.
ghost use Rattle.std.specs.Prelude.{◌≡◌, ◌≤◌, ℕ, List, Option, length, map, vec_len, IfOk, IfErr, OnOk};
ghost use Rattle.cube_ledger.specs.Build.{Builds, ExplainsBuild, IsToCome, StopsFeed, TakesFeed};

use crate::fault::BuildFault;
use crate::ledger::Ledger;
use cube_core::Schema;
use cube_feed::Feed;
use std::alloc::Global;
use std::io::Read;

/// Takes the feeds of at most 64 sources, one source after another, into a ledger.
///
/// The ledger is made before a record is read. On Ok every feed is good, and the ledger stands at their items. The first
/// fault ends it: `Memory` where no ledger was made, `Full` where a growth was refused later, or the fault of a source's
/// feed, where the feeds of all lower sources are good.
pub fn build_ledger<R: Read + Drop>(
    alloc: Global,
    schema: &Schema,
    readers: Vec<R>,
) -> Result<Ledger, BuildFault>
    requires { vec_len readers ≤ 64 }
    ensures ok { IfOk result (Builds schema.now (map R.Read.remaining readers.items)) }
    ensures err { IfErr result (ExplainsBuild schema.now (map R.Read.remaining readers.items)) }
{
    let Ok(mut ledger) = Ledger::new(alloc, schema, readers.len() as u32) else {
        return Err(BuildFault::Memory);
    };
    let mut source = 0;
    for reader in readers {
        source += 1;
        take_feed(alloc, schema, &mut ledger, source, reader)?;
    }
    Ok(ledger)
}

// Takes all items of the feed of a source.
fn take_feed<R: Read + Drop>(
    alloc: Global,
    schema: &Schema,
    ledger: &mut Ledger,
    source: u32,
    reader: R,
) -> Result<(), BuildFault>
    requires first { 1 ≤ source }
    requires last { source ≤ length ledger.old.accounts }
    requires schema { ledger.old.schema ≡ schema.now }
    ensures ok { OnOk result
        (TakesFeed schema.now (R.Read.remaining reader) source ledger.old ledger.new) }
    ensures err { IfErr result (StopsFeed schema.now (R.Read.remaining reader) source) }
{
    let mut feed = Feed::new(alloc, schema, reader);
    take_items(ledger, source, &mut feed)
}

// Takes all items that are to come of the feed of a source.
fn take_items<R: Read + Drop>(
    ledger: &mut Ledger,
    source: u32,
    feed: &mut Feed<'_, R>,
) -> Result<(), BuildFault>
    requires first { 1 ≤ source }
    requires last { source ≤ length ledger.old.accounts }
    requires schema { feed.old.schema ≡ ledger.old.schema }
    ensures ok { OnOk result ((bytes : Option (List ℕ)) → IsToCome bytes feed.old →
        TakesFeed feed.old.schema bytes source ledger.old ledger.new) }
    ensures err { IfErr result (λ fault. (bytes : Option (List ℕ)) → IsToCome bytes feed.old →
        StopsFeed feed.old.schema bytes source fault) }
{
    loop {
        let item = match feed.next() {
            Ok(Some(item)) => item,
            Ok(None) => return Ok(()),
            Err(fault) => return Err(BuildFault::Feed { source, fault }),
        };
        if ledger.apply_taken(source, item).is_err() {
            return Err(BuildFault::Full);
        }
    }
}
