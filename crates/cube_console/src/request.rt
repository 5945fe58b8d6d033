//! What a command line asks for.
ghost use Rattle.std.specs.Prelude.{◌≡◌, ◌≤◌, ℕ, List, Option, Some, None, IsOk, IfOk, IfSome, codes, length, map, option_map};
ghost use Rattle.clap.specs.Words.{Row, all_of, first_of, found_of, one_of, rows_of, subcommand_rows_of};
ghost use Rattle.cube_console.specs.CommandLine.{AreLiveWords, AreMergeWords, AreRunWords, AreSchemaWords, AreSharedWords, AreTableWords, AreViewWords, RunHasRoom, TableHasRoom, ViewHasRoom, IsNumberOf, IsRequest, IsUpTo, LiveHasRoom, is_given, words_of};

use clap::ArgMatches;
use std::alloc::{AllocError, Global};

/// How many changes wait for a commit at most, however many the words say.
const MOST_WAITING: usize = 1_000_000;

/// The least number of columns that the words may bound an aligned line by.
const LEAST_WIDTH: usize = 20;

/// The most that they may.
const MOST_WIDTH: usize = 10_000;

/// The form in which a cube is written, as the words say it.
#[derive(Clone, Copy, PartialEq, Eq, Debug)]
pub struct ViewWords {
    /// Whether each line is one of JSON.
    pub json: bool,
    /// Whether the columns are aligned.
    pub aligned: bool,
    /// How many columns an aligned line takes at most, 20 to 10000; none where the words leave it out. Without effect on
    /// other forms.
    pub width: Option<usize>,
}

/// The files and the options of a command with feeds.
#[derive(Drop)]
pub struct RunWords<'a> {
    /// The path of the schema file.
    pub schema: &'a str,
    /// The paths of the feeds, of which the first is source 1. There may be none over a store.
    pub feeds: Vec<&'a str>,
    /// The capacity of each link, 1 to 65536.
    pub ring: usize,
    /// The number of builders, 1 to 8.
    pub builders: u32,
    /// The number of threads, 1 to 16; none where the words leave it out.
    pub threads: Option<usize>,
    /// The share of the feeds that is read, as the words spell it; none where they leave it out.
    pub shard: Option<&'a str>,
    /// How many bytes a record of a feed may have, as the words spell it; none where they leave it out.
    pub max_record: Option<&'a str>,
    /// Whether no progress is shown.
    pub quiet: bool,
    /// The path of the store whose changes come after the feeds; none where the words leave it out.
    pub store: Option<&'a str>,
    /// Whether nothing is supposed of what a torn write left of the store; without effect where there is none.
    pub wary: bool,
    /// The form in which the cube is written; of `refusals`, which has none of these options, as it is printed.
    pub view: ViewWords,
    /// The conditions for the facts that count, as the words spell them; of `refusals` none.
    pub conditions: Vec<&'a str>,
    /// Whether a refused line is a failure; of `refusals` it isn't.
    pub strict: bool,
    /// How many cells the cube may have, as the words spell it; none where they leave it out, and of `refusals`.
    pub max_cells: Option<&'a str>,
    /// Whether more lines say why it failed, where standard error is no terminal too.
    pub why: bool,
}

/// The files and the options of `live`.
#[derive(Drop)]
pub struct LiveWords<'a> {
    /// The path of the schema file.
    pub schema: &'a str,
    /// The paths of the feeds, of which the first is source 1. There may be none.
    pub feeds: Vec<&'a str>,
    /// The capacity of each link, 1 to 65536.
    pub ring: usize,
    /// The number of threads, 1 to 16; none where the words leave it out.
    pub threads: Option<usize>,
    /// The share of the feeds and of the changes that is read, as the words spell it; none where they leave it out.
    pub shard: Option<&'a str>,
    /// How many bytes a record of a feed may have, as the words spell it; none where they leave it out.
    pub max_record: Option<&'a str>,
    /// Whether no progress is shown.
    pub quiet: bool,
    /// The path of the store that keeps the changes; none where the words leave it out.
    pub store: Option<&'a str>,
    /// Whether nothing is supposed of what a torn write leaves of the store; without effect where there is none.
    pub wary: bool,
    /// How many changes wait for a commit at most, 1 to 1000000; without effect where there is no store.
    pub commit_every: usize,
    /// Whether more lines say why it failed, where standard error is no terminal too.
    pub why: bool,
}

/// The files and the options of `merge`.
#[derive(Drop)]
pub struct MergeWords<'a> {
    /// The path of the schema file.
    pub schema: &'a str,
    /// The paths of the cubes, at least one.
    pub cubes: Vec<&'a str>,
    /// Whether the merged cube is written in the partial form, so that it can be merged again.
    pub partial: bool,
    /// Whether all cubes are read to their ends before the first line is written.
    pub check: bool,
    /// Whether no progress is shown.
    pub quiet: bool,
    /// Whether more lines say why it failed, where standard error is no terminal too.
    pub why: bool,
}

/// The file and the options of `schema`.
#[derive(Drop)]
pub struct SchemaWords<'a> {
    /// The path of the file.
    pub file: &'a str,
    /// The columns that are dimensions, one CSV record; none where the words leave them out.
    pub by: Option<&'a str>,
    /// The columns that are measures, one CSV record; none where the words leave them out.
    pub of: Option<&'a str>,
    /// Whether more lines say why it failed, where standard error is no terminal too.
    pub why: bool,
}

/// The files and the options of `table`.
#[derive(Drop)]
pub struct TableWords<'a> {
    /// The paths of the files, at least one, of which the first is source 1.
    pub files: Vec<&'a str>,
    /// The columns that are dimensions, one CSV record; none where the words leave them out.
    pub by: Option<&'a str>,
    /// The columns that are measures, one CSV record; none where the words leave them out.
    pub of: Option<&'a str>,
    /// The capacity of each link, 1 to 65536.
    pub ring: usize,
    /// The number of builders, 1 to 8.
    pub builders: u32,
    /// The number of threads, 1 to 16; none where the words leave it out.
    pub threads: Option<usize>,
    /// The share of the files that is read, as the words spell it; none where they leave it out.
    pub shard: Option<&'a str>,
    /// How many bytes a record of a feed may have, as the words spell it; none where they leave it out.
    pub max_record: Option<&'a str>,
    /// Whether no progress is shown.
    pub quiet: bool,
    /// The form in which the cube is written.
    pub view: ViewWords,
    /// The conditions for the facts that count, as the words spell them.
    pub conditions: Vec<&'a str>,
    /// Whether a refused line is a failure.
    pub strict: bool,
    /// How many cells the cube may have, as the words spell it; none where they leave it out.
    pub max_cells: Option<&'a str>,
    /// Whether more lines say why it failed, where standard error is no terminal too.
    pub why: bool,
}

/// What the words of a command line ask for.
#[derive(Drop)]
pub enum Request<'a> {
    /// No words: the cube of the feed on standard input, under the sample schema.
    Sample,
    /// `check SCHEMA`: whether the schema file at this path is right.
    Check {
        schema: &'a str,
        why: bool,
    },
    /// `explain [CODE...]`: what a code or a line of the program means, which may be several words, or what all mean
    /// where there are none.
    Explain {
        code: Vec<&'a str>,
        why: bool,
    },
    /// `print SCHEMA FEED...`: the cube of the feeds, in the partial form with `--partial`.
    Print {
        run: RunWords<'a>,
        partial: bool,
    },
    /// `refusals SCHEMA FEED...`: the refused lines of the feeds.
    Refusals {
        run: RunWords<'a>,
    },
    /// `slice SCHEMA CELL FEED...`: the lines of the cube that a pattern matches.
    Slice {
        run: RunWords<'a>,
        cell: &'a str,
    },
    /// `drill SCHEMA CELL DIM FEED...`: the lines below a cell along a dimension.
    Drill {
        run: RunWords<'a>,
        cell: &'a str,
        dimension: &'a str,
    },
    /// `rollup SCHEMA CELL DIM FEED...`: the line above a cell along a dimension.
    RollUp {
        run: RunWords<'a>,
        cell: &'a str,
        dimension: &'a str,
    },
    /// `live SCHEMA [FEED...]`: a cube that is kept right change by change, and asked in between, over a store or none.
    Live {
        live: LiveWords<'a>,
    },
    /// `merge SCHEMA CUBE...`: the cube of all the facts of printed cubes.
    Merge {
        merge: MergeWords<'a>,
    },
    /// `schema FILE`: the text of a schema that reads the file by the names of its columns.
    Schema {
        words: SchemaWords<'a>,
    },
    /// `table FILE...`: the cube of the files, under the schema of the first one.
    Table {
        table: TableWords<'a>,
    },
}

/// The request that parsed words make; none where a command lacks a word. The only error is that memory ran out.
pub(crate) fn request_of<'a>(
    alloc: Global,
    matches: &ArgMatches<'a>,
) -> Result<Option<Request<'a>>, AllocError>
    ensures makes { IfOk result (IsRequest (subcommand_rows_of matches.now)) }
    ensures explain { (rows : List Row) → subcommand_rows_of matches.now ≡ Some (codes "explain", rows) →
        IfOk result (λ request. ¬ (request ≡ None)) }
{
    match matches.subcommand() {
        Some((name, words)) => command_of(alloc, name, words),
        None => Ok(Some(Request::Sample)),
    }
}

// A number of an option that isn't from 1 to its bound.
#[derive(Drop)]
struct OutOfBounds;

// The request that a command makes with its words.
fn command_of<'a>(
    alloc: Global,
    name: &str,
    words: &ArgMatches<'a>,
) -> Result<Option<Request<'a>>, AllocError>
    ensures makes { IfOk result (IsRequest (Some (name.now, rows_of (found_of words.now)))) }
    ensures explain { name.now ≡ codes "explain" → IfOk result (λ request. ¬ (request ≡ None)) }
{
    if name == "explain" {
        let code = all_words(alloc, words, "CODE")?;
        let why = has_flag(words, "why");
        return Ok(Some(Request::Explain { code, why }));
    }
    if name == "check" {
        return Ok(check_request(words));
    }
    if name == "live" {
        return live_request(alloc, words);
    }
    if name == "merge" {
        return merge_request(alloc, words);
    }
    if name == "schema" {
        return Ok(schema_request(words));
    }
    if name == "table" {
        return table_request(alloc, words);
    }
    match run_words(alloc, words)? {
        Some(run) => Ok(run_request(name, run, words)),
        None => Ok(None),
    }
}

// The request that `check` makes.
fn check_request<'a>(words: &ArgMatches<'a>) -> Option<Request<'a>>
    ensures { IsRequest (Some (codes "check", rows_of (found_of words.now))) result }
{
    let schema = word_of(words, "SCHEMA")?;
    let why = has_flag(words, "why");
    Some(Request::Check { schema, why })
}

// The request that `live` makes.
fn live_request<'a>(
    alloc: Global,
    words: &ArgMatches<'a>,
) -> Result<Option<Request<'a>>, AllocError>
    ensures { IfOk result (IsRequest (Some (codes "live", rows_of (found_of words.now)))) }
{
    let (Some(live), Ok(Some(commit_every))) = (
        live_words(alloc, words)?,
        number_of(words, "commit-every", MOST_WAITING),
    ) else {
        return Ok(None);
    };
    Ok(Some(Request::Live {
        live: LiveWords {
            commit_every,
            ..live
        },
    }))
}

// The request that `merge` makes.
fn merge_request<'a>(
    alloc: Global,
    words: &ArgMatches<'a>,
) -> Result<Option<Request<'a>>, AllocError>
    ensures { IfOk result (IsRequest (Some (codes "merge", rows_of (found_of words.now)))) }
{
    match merge_words(alloc, words)? {
        Some(merge) => Ok(Some(Request::Merge { merge })),
        None => Ok(None),
    }
}

// The request that `schema` makes.
fn schema_request<'a>(words: &ArgMatches<'a>) -> Option<Request<'a>>
    ensures { IsRequest (Some (codes "schema", rows_of (found_of words.now))) result }
{
    let file = word_of(words, "FILE")?;
    Some(Request::Schema {
        words: SchemaWords {
            file,
            by: word_of(words, "by"),
            of: word_of(words, "of"),
            why: has_flag(words, "why"),
        },
    })
}

// The request that `table` makes.
fn table_request<'a>(
    alloc: Global,
    words: &ArgMatches<'a>,
) -> Result<Option<Request<'a>>, AllocError>
    ensures { IfOk result (IsRequest (Some (codes "table", rows_of (found_of words.now)))) }
{
    match table_words(alloc, words)? {
        Some(table) => Ok(Some(Request::Table { table })),
        None => Ok(None),
    }
}

// The request that a command with feeds makes.
fn run_request<'a>(name: &str, run: RunWords<'a>, words: &ArgMatches<'a>) -> Option<Request<'a>>
    requires words { AreRunWords (rows_of (found_of words.now)) run }
    requires room { RunHasRoom run }
    requires check { ¬ (name.now ≡ codes "check") }
    requires explain { ¬ (name.now ≡ codes "explain") }
    requires live { ¬ (name.now ≡ codes "live") }
    requires merge { ¬ (name.now ≡ codes "merge") }
    requires schema { ¬ (name.now ≡ codes "schema") }
    requires table { ¬ (name.now ≡ codes "table") }
    ensures { IsRequest (Some (name.now, rows_of (found_of words.now))) result }
{
    match name {
        "print" => {
            let partial = has_flag(words, "partial");
            Some(Request::Print { run, partial })
        }
        "refusals" => Some(Request::Refusals { run }),
        "slice" => {
            let cell = word_of(words, "CELL")?;
            Some(Request::Slice { run, cell })
        }
        "drill" => {
            let cell = word_of(words, "CELL")?;
            let dimension = word_of(words, "DIM")?;
            Some(Request::Drill {
                run,
                cell,
                dimension,
            })
        }
        "rollup" => {
            let cell = word_of(words, "CELL")?;
            let dimension = word_of(words, "DIM")?;
            Some(Request::RollUp {
                run,
                cell,
                dimension,
            })
        }
        _ => None,
    }
}

// The files and the options of a command with feeds; none only where a word is missing or a number out of bounds.
fn run_words<'a>(alloc: Global, words: &ArgMatches<'a>) -> Result<Option<RunWords<'a>>, AllocError>
    ensures words { IfOk result
        (λ run. IfSome run (AreRunWords (rows_of (found_of words.now)))) }
    ensures room { IfOk result (λ run. IfSome run RunHasRoom) }
    ensures none { (run : RunWords) → AreRunWords (rows_of (found_of words.now)) run → RunHasRoom run →
        IfOk result (λ found. ¬ (found ≡ None)) }
{
    let (Some(live), Ok(Some(builders)), Some(view)) = (
        live_words(alloc, words)?,
        number_of(words, "builders", 8),
        view_words(words),
    ) else {
        return Ok(None);
    };
    if live.feeds.is_empty() && live.store.is_none() {
        return Ok(None);
    }
    let conditions = all_words(alloc, words, "where")?;
    Ok(Some(RunWords {
        schema: live.schema,
        feeds: live.feeds,
        ring: live.ring,
        builders: builders as u32,
        threads: live.threads,
        shard: live.shard,
        max_record: live.max_record,
        quiet: live.quiet,
        store: live.store,
        wary: live.wary,
        view,
        conditions,
        strict: has_flag(words, "strict"),
        max_cells: word_of(words, "max-cells"),
        why: live.why,
    }))
}

// The form in which a cube is written; none only where the number of columns is out of bounds.
fn view_words(words: &ArgMatches) -> Option<ViewWords>
    ensures words { IfSome result (AreViewWords (rows_of (found_of words.now))) }
    ensures room { IfSome result ViewHasRoom }
    ensures none { (view : ViewWords) → AreViewWords (rows_of (found_of words.now)) view → ViewHasRoom view →
        ¬ (result ≡ None) }
{
    let Ok(width) = number_of(words, "width", MOST_WIDTH) else {
        return None;
    };
    if let Some(columns) = width
        && columns < LEAST_WIDTH
    {
        return None;
    }
    Some(ViewWords {
        json: has_flag(words, "json"),
        aligned: has_flag(words, "aligned"),
        width,
    })
}

// The files and the options of `live`; none only where the schema is missing or a number out of bounds.
fn live_words<'a>(
    alloc: Global,
    words: &ArgMatches<'a>,
) -> Result<Option<LiveWords<'a>>, AllocError>
    ensures words { IfOk result
        (λ live. IfSome live (AreLiveWords (rows_of (found_of words.now)))) }
    ensures room { IfOk result (λ live. IfSome live LiveHasRoom) }
    ensures none { (live : LiveWords) → AreLiveWords (rows_of (found_of words.now)) live → LiveHasRoom live →
        IfOk result (λ found. ¬ (found ≡ None)) }
{
    let Some(shared) = shared_words(alloc, words)? else {
        return Ok(None);
    };
    Ok(Some(LiveWords {
        store: word_of(words, "store"),
        wary: has_flag(words, "wary"),
        ..shared
    }))
}

// The files and the options of `live` that each command with feeds has too, without a store; none only where the schema
// is missing or a number out of bounds.
fn shared_words<'a>(
    alloc: Global,
    words: &ArgMatches<'a>,
) -> Result<Option<LiveWords<'a>>, AllocError>
    ensures words { IfOk result
        (λ live. IfSome live (AreSharedWords (rows_of (found_of words.now)))) }
    ensures room { IfOk result (λ live. IfSome live LiveHasRoom) }
    ensures none { (live : LiveWords) → AreSharedWords (rows_of (found_of words.now)) live → LiveHasRoom live →
        IfOk result (λ found. ¬ (found ≡ None)) }
{
    let (Some(schema), Ok(Some(ring)), Ok(threads)) = (
        word_of(words, "SCHEMA"),
        number_of(words, "ring", 65536),
        number_of(words, "threads", 16),
    ) else {
        return Ok(None);
    };
    let feeds = all_words(alloc, words, "FEED")?;
    Ok(Some(LiveWords {
        schema,
        feeds,
        ring,
        threads,
        shard: word_of(words, "shard"),
        max_record: word_of(words, "max-record"),
        quiet: has_flag(words, "quiet"),
        store: None,
        wary: false,
        commit_every: MOST_WAITING,
        why: has_flag(words, "why"),
    }))
}

// The files and the options of `merge`; none only where a word is missing.
fn merge_words<'a>(
    alloc: Global,
    words: &ArgMatches<'a>,
) -> Result<Option<MergeWords<'a>>, AllocError>
    ensures words { IfOk result
        (λ merge. IfSome merge (AreMergeWords (rows_of (found_of words.now)))) }
    ensures cubes { IfOk result (λ merge. IfSome merge (λ some. 1 ≤ length some.cubes.items)) }
    ensures none { (merge : MergeWords) → AreMergeWords (rows_of (found_of words.now)) merge → 1 ≤ length merge.cubes.items →
        IfOk result (λ found. ¬ (found ≡ None)) }
{
    let Some(schema) = word_of(words, "SCHEMA") else {
        return Ok(None);
    };
    let cubes = all_words(alloc, words, "CUBE")?;
    if cubes.is_empty() {
        return Ok(None);
    }
    Ok(Some(MergeWords {
        schema,
        cubes,
        partial: has_flag(words, "partial"),
        check: has_flag(words, "check"),
        quiet: has_flag(words, "quiet"),
        why: has_flag(words, "why"),
    }))
}

// The files and the options of `table`; none only where a file is missing or a number out of bounds.
fn table_words<'a>(
    alloc: Global,
    words: &ArgMatches<'a>,
) -> Result<Option<TableWords<'a>>, AllocError>
    ensures words { IfOk result
        (λ table. IfSome table (AreTableWords (rows_of (found_of words.now)))) }
    ensures room { IfOk result (λ table. IfSome table TableHasRoom) }
    ensures none { (table : TableWords) → AreTableWords (rows_of (found_of words.now)) table → TableHasRoom table →
        IfOk result (λ found. ¬ (found ≡ None)) }
{
    let (Ok(Some(ring)), Ok(Some(builders)), Ok(threads), Some(view)) = (
        number_of(words, "ring", 65536),
        number_of(words, "builders", 8),
        number_of(words, "threads", 16),
        view_words(words),
    ) else {
        return Ok(None);
    };
    let files = all_words(alloc, words, "FILE")?;
    if files.is_empty() {
        return Ok(None);
    }
    let conditions = all_words(alloc, words, "where")?;
    Ok(Some(TableWords {
        files,
        by: word_of(words, "by"),
        of: word_of(words, "of"),
        ring,
        builders: builders as u32,
        threads,
        shard: word_of(words, "shard"),
        max_record: word_of(words, "max-record"),
        quiet: has_flag(words, "quiet"),
        view,
        conditions,
        strict: has_flag(words, "strict"),
        max_cells: word_of(words, "max-cells"),
        why: has_flag(words, "why"),
    }))
}

// The word of this name, if there is one.
fn word_of<'a>(words: &ArgMatches<'a>, name: &str) -> Option<&'a str>
    ensures { option_map (λ text. text.now) result
        ≡ first_of name.now (rows_of (found_of words.now)) }
{
    words.get_str(name)
}

// All words of this name, in their order.
fn all_words<'a>(
    alloc: Global,
    words: &ArgMatches<'a>,
    name: &str,
) -> Result<Vec<&'a str>, AllocError>
    ensures { IfOk result (λ all. map (λ word. word.now) all.items
        ≡ words_of name.now (rows_of (found_of words.now))) }
{
    let mut all = Vec::new(alloc);
    let Some(found) = words.get_strs(name) else {
        return Ok(all);
    };
    all.extend_from_slice(found)?;
    Ok(all)
}

// Whether an option without a value is given.
fn has_flag(words: &ArgMatches, option: &str) -> bool
    ensures { result ≡ is_given (one_of option.now (rows_of (found_of words.now))) }
{
    words.get_one::<bool>(option).unwrap_or(false)
}

// The number that an option has, if it has one. The error is only for a text that isn't a number from 1 to this bound.
fn number_of<'a>(
    words: &ArgMatches<'a>,
    option: &str,
    most: usize,
) -> Result<Option<usize>, OutOfBounds>
    ensures number { IfOk result (IsNumberOf (one_of option.now (rows_of (found_of words.now)))) }
    ensures bounds { IfOk result (λ number. IfSome number (IsUpTo most)) }
    ensures err { (number : Option ℕ) → IsNumberOf (one_of option.now (rows_of (found_of words.now))) number →
        IfSome number (IsUpTo most) → IsOk result }
{
    let Ok(number) = words.try_get_one::<usize>(option) else {
        return Err(OutOfBounds);
    };
    match number {
        Some(number) if number < 1 || most < number => Err(OutOfBounds),
        number => Ok(number),
    }
}
