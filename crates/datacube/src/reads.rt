//! How the words say that feeds are read: which share of them, and how many bytes a record may have; and how many cells
//! their cube may have.
ghost use Rattle.std.specs.Prelude.{◌≡◌, IfSome};
ghost use Rattle.cube_core.specs.Layout.{IsRecordBound};
ghost use Rattle.cube_core.specs.Shard.{IsShard};
ghost use Rattle.cube_tool.specs.MaxRecord.{record_bound};

use cube_console::{Request, unlawful_max_cells, unlawful_max_record, unlawful_shard};
use cube_core::{Schema, Shard};
use cube_tool::command::{
    Failure, Status, answer_words, read_max_cells, read_max_record, read_shard, record_bound,
};

/// How feeds are read, and how large their cube may be.
#[derive(Clone, Copy)]
pub(crate) struct Reads {
    /// The share of them.
    pub(crate) shard: Shard,
    /// How many bytes a record may have, where the words say it.
    pub(crate) max_record: Option<u64>,
    /// How many cells the cube may have, where the words say it.
    pub(crate) max_cells: Option<u64>,
}

/// The same schema, whose feeds are read so.
pub(crate) fn read_so(schema: Schema, reads: Reads) -> Schema
    requires shard { IsShard reads.shard }
    requires max_record { IfSome reads.max_record IsRecordBound }
    ensures { result ≡ record schema { shard = reads.shard; max_record_bytes = record_bound schema reads.max_record } }
{
    let most = record_bound(&schema, reads.max_record);
    schema.with_shard(reads.shard).with_max_record_bytes(most)
}

// The words of the share and of the bytes that a record may have, where there are any.
fn words_of<'a>(request: &Request<'a>) -> (Option<&'a str>, Option<&'a str>) {
    match request {
        Request::Print { run, .. }
        | Request::Refusals { run }
        | Request::Slice { run, .. }
        | Request::Drill { run, .. }
        | Request::RollUp { run, .. } => (run.shard, run.max_record),
        Request::Live { live } => (live.shard, live.max_record),
        Request::Table { table } => (table.shard, table.max_record),
        _ => (None, None),
    }
}

/// The share of the feeds that is read: the whole, where the words leave it out, and none where they name no share.
pub(crate) fn shard_of(request: &Request) -> Option<Shard>
    ensures { IfSome result IsShard }
{
    match words_of(request).0 {
        Some(word) => read_shard(word),
        None => Some(Shard::whole()),
    }
}

/// How many bytes a record of a feed may have, where the words say it, and none where what they say is no such number.
pub(crate) fn max_record_of(request: &Request) -> Option<Option<u64>>
    ensures { IfSome result (λ named. IfSome named IsRecordBound) }
{
    match words_of(request).1 {
        Some(word) => Some(Some(read_max_record(word)?)),
        None => Some(None),
    }
}

/// How many cells the cube may have, where the words say it, and none where what they say is no such number.
pub(crate) fn max_cells_of(request: &Request) -> Option<Option<u64>> {
    let word = match request {
        Request::Print { run, .. }
        | Request::Slice { run, .. }
        | Request::Drill { run, .. }
        | Request::RollUp { run, .. } => run.max_cells,
        Request::Table { table } => table.max_cells,
        _ => None,
    };
    match word {
        Some(word) => Some(Some(read_max_cells(word)?)),
        None => Some(None),
    }
}

/// Says that the words name no share.
pub(crate) fn refuse_shard(rt: &HostRuntime) -> Result<Status, Failure> {
    let alloc = rt.alloc();
    let refusal = unlawful_shard(alloc);
    answer_words(alloc, &refusal, &mut rt.stdout(), &mut rt.stderr())
}

/// Says that the words name no number of bytes that a record may have.
pub(crate) fn refuse_max_record(rt: &HostRuntime) -> Result<Status, Failure> {
    let alloc = rt.alloc();
    let refusal = unlawful_max_record(alloc);
    answer_words(alloc, &refusal, &mut rt.stdout(), &mut rt.stderr())
}

/// Says that the words name no number of cells that a cube may have.
pub(crate) fn refuse_max_cells(rt: &HostRuntime) -> Result<Status, Failure> {
    let alloc = rt.alloc();
    let refusal = unlawful_max_cells(alloc);
    answer_words(alloc, &refusal, &mut rt.stdout(), &mut rt.stderr())
}
