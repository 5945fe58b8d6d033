//! The program `datacube`: it reads the words, opens what they name, and ends with the status of the one call of
//! `cube_tool` that does the work.
#![tactic(auto)]

ghost use Rattle.std.specs.Prelude.{◌≡◌, ◌≤◌, length, vec_len, IfOk, IfSome};
ghost use Rattle.cube_core.specs.Layout.{IsRecordBound};
ghost use Rattle.cube_core.specs.Shard.{IsShard};
ghost use Rattle.cube_tool.specs.Answering.{Fits};
ghost use Rattle.cube_console.specs.CommandLine.{RunHasRoom, IsInBounds, IsUpTo, LiveHasRoom};

mod kept;
mod named;
mod own_files;
mod pauses;
mod reads;
mod terms;
mod views;
mod watch;
mod why;

use crate::kept::{ask_kept, serve_kept};
use crate::named::named_cubes;
use crate::own_files::{explain_own_file, print_table, write_schema};
use crate::reads::{
    Reads, max_cells_of, max_record_of, read_so, refuse_max_cells, refuse_max_record, refuse_shard,
    shard_of,
};
use crate::terms::terms_of;
use crate::views::{mixes_views, refuse_views, told_of, view_of};
use crate::watch::Watch;
use crate::why::{say_refused, say_repeated, say_why, says_why, wants_why};
use cube_build::Settings;
use cube_console::{
    Counts, CubeReader, FeedReader, LiveWords, MergeWords, Output, Phase, Progress, Request,
    RunWords, clashing_words, read_words, unreadable_words,
};
use cube_core::{HashKey, Schema};
use cube_store_commands::StoredFailure;
use cube_tool::command::{
    FEED_NOTES, Failure, LATER_NOTES, Question, RUN_NOTES, SCHEMA_NOTES, STORE_NOTES, Status,
    answer_words, ask, check, check_cubes, explain, first_repeated, live, merge_cubes, read_cell,
    read_dimension, read_pattern, read_schema, run_sample,
};
use cube_tool::{Fed, InputFault, MergeFault, RunFault};
use cube_why::code_words;
use std::fs::File;
use std::io::{IsTerminal, Stderr};
use std::process::ExitCode;
use std::sync::Wait;
use std::thread::Threads;
use std::time::Clock;
use std::{env, io, mem, thread};

/// The most threads that a run works with once its feeds have ended.
const MOST_THREADS: usize = 16;

/// The word for standard input, as a schema, a feed or a cube.
const STANDARD_INPUT: &str = "-";

/// What a command with feeds asks, as its words say it.
#[derive(Clone, Copy)]
enum Asked<'w> {
    Cube { is_partial: bool },
    Slice { cell: &'w str },
    Drill { cell: &'w str, dimension: &'w str },
    RollUp { cell: &'w str, dimension: &'w str },
    Refusals,
}

fn main(rt: HostRuntime) -> ExitCode {
    let status = match run(&rt, &rt) {
        Ok(status) => status,
        Err(failure) => {
            let _ = rt.eprintln(failure);
            failure.status()
        }
    };
    ExitCode::from(status.code())
}

// `threads` is the runtime too, as what starts threads.
fn run<T: Threads + Wait + Clock + Copy + Send + Sync + 'static>(
    rt: &HostRuntime,
    threads: &T,
) -> Result<Status, StoredFailure> {
    let alloc = rt.alloc();
    let words = match words_of(rt) {
        Ok(words) => words,
        Err(error) => {
            let refusal = unreadable_words(alloc, &error);
            return told(answer_words(alloc, &refusal, &mut rt.stdout(), &mut rt.stderr()));
        }
    };
    match read_words(alloc, words.as_slice()) {
        Ok(request) => explained(rt, threads, &request),
        Err(answer) => told(answer_words(alloc, &answer, &mut rt.stdout(), &mut rt.stderr())),
    }
}

/// How a request without a store ended, as one that may have a store.
fn told(ended: Result<Status, Failure>) -> Result<Status, StoredFailure> {
    Ok(ended?)
}

/// The words of the command line, of which the first is the program's name.
fn words_of(rt: &HostRuntime) -> io::Result<Vec<String>> {
    Ok(env::args(rt)?.collect(rt.alloc())?)
}

/// Does what is asked for, and says more of why it failed, where that is wanted.
fn explained<T: Threads + Wait + Clock + Copy + Send + Sync + 'static>(
    rt: &HostRuntime,
    threads: &T,
    request: &Request,
) -> Result<Status, StoredFailure>
    requires { IsInBounds request.now }
{
    if !wants_why(rt, request) {
        return watched(rt, threads, request);
    }
    say_repeated(rt, request);
    match watched(rt, threads, request) {
        Ok(status) => Ok(status),
        Err(failure) => {
            let _ = rt.eprintln(failure);
            say_why(rt, request, &failure);
            Ok(failure.status())
        }
    }
}

/// Does what is asked for, and shows how far it is, where that is wanted.
fn watched<T: Threads + Wait + Clock + Copy + Send + Sync + 'static>(
    rt: &HostRuntime,
    threads: &T,
    request: &Request,
) -> Result<Status, StoredFailure>
    requires { IsInBounds request.now }
{
    let is_shown = shows_progress(rt, request);
    let is_shared = rt.stdout().is_terminal();
    let progress = Progress::new(threads, rt.alloc(), rt.stderr(), is_shown, is_shared);
    if !is_shown {
        return obey(rt, threads, request, &progress);
    }
    let seen = &progress;
    thread::scope(
        thread::scope_env(),
        threads,
        |scope| -> Result<Status, StoredFailure>
            requires { IsInBounds request.now }
        {
            let _ = scope.spawn(move || seen.show_until_over());
            let ended = obey(rt, threads, request, seen);
            seen.end();
            ended
        },
    )
}

/// Whether it is shown how far a request is: it reads feeds or cubes, its words don't leave that out, and standard error
/// is a terminal whose lines can be written over.
fn shows_progress(rt: &HostRuntime, request: &Request) -> bool {
    let is_quiet = match request {
        Request::Print { run, .. }
        | Request::Refusals { run }
        | Request::Slice { run, .. }
        | Request::Drill { run, .. }
        | Request::RollUp { run, .. } => run.quiet,
        Request::Live { live } => live.quiet,
        Request::Merge { merge } => merge.quiet,
        Request::Table { table } => table.quiet,
        _ => true,
    };
    !is_quiet && rt.stderr().is_terminal() && can_write_over(rt)
}

/// Whether the lines of the terminal can be written over, as the variable TERM tells.
fn can_write_over(rt: &HostRuntime) -> bool {
    match env::var(rt, "TERM") {
        Ok(term) => !term.is_empty() && term.as_str() != "dumb",
        Err(_) => false,
    }
}

/// Does what is asked for.
fn obey<T: Threads + Wait + Clock + Copy + Send + Sync + 'static>(
    rt: &HostRuntime,
    threads: &T,
    request: &Request,
    progress: &Progress<'_, T, Stderr>,
) -> Result<Status, StoredFailure>
    requires { IsInBounds request.now }
{
    let Some(shard) = shard_of(request) else {
        return told(refuse_shard(rt));
    };
    let Some(max_record) = max_record_of(request) else {
        return told(refuse_max_record(rt));
    };
    let Some(max_cells) = max_cells_of(request) else {
        return told(refuse_max_cells(rt));
    };
    if has_clash(request) {
        return told(refuse_clash(rt));
    }
    if mixes_views(request) {
        return told(refuse_views(rt));
    }
    let reads = Reads {
        shard,
        max_record,
        max_cells,
    };
    obey_words(rt, threads, request, reads, progress)
}

/// Does what is asked for, over feeds that are read so.
fn obey_words<T: Threads + Wait + Clock + Copy + Send + Sync + 'static>(
    rt: &HostRuntime,
    threads: &T,
    request: &Request,
    reads: Reads,
    progress: &Progress<'_, T, Stderr>,
) -> Result<Status, StoredFailure>
    requires bounds { IsInBounds request.now }
    requires shard { IsShard reads.shard }
    requires max_record { IfSome reads.max_record IsRecordBound }
{
    match request {
        Request::Sample => told(print_sample(rt)),
        Request::Check { schema, .. } => told(check_file(rt, schema)),
        Request::Explain { code, .. } => told(explain_words(rt, code)),
        Request::Print { run, partial } => {
            let is_partial = *partial;
            answer(
                rt,
                threads,
                run,
                reads,
                Asked::Cube { is_partial },
                progress,
            )
        }
        Request::Refusals { run } => answer(rt, threads, run, reads, Asked::Refusals, progress),
        Request::Slice { run, cell } => {
            answer(rt, threads, run, reads, Asked::Slice { cell }, progress)
        }
        Request::Drill {
            run,
            cell,
            dimension,
        } => {
            let asked = Asked::Drill { cell, dimension };
            answer(rt, threads, run, reads, asked, progress)
        }
        Request::RollUp {
            run,
            cell,
            dimension,
        } => {
            let asked = Asked::RollUp { cell, dimension };
            answer(rt, threads, run, reads, asked, progress)
        }
        Request::Live { live } => serve(rt, threads, live, reads, progress),
        Request::Merge { merge } => told(merge_files(rt, merge, progress)),
        Request::Schema { words } => told(write_schema(rt, words)),
        Request::Table { table } => told(print_table(rt, threads, table, reads, progress)),
    }
}

/// What is said where standard input is a terminal, and no words ask for anything.
const KEYBOARD: &str =
    "datacube: reading a feed from the keyboard, which Ctrl-D ends; for help: datacube --help";

/// Prints the cube of standard input under the sample schema; where that is a terminal, it is said so first.
fn print_sample(rt: &HostRuntime) -> Result<Status, Failure> {
    if rt.stdin().is_terminal() {
        let _ = rt.eprintln(KEYBOARD);
    }
    run_sample(rt.alloc(), drawn_key(rt)?, rt.stdin(), &mut rt.stdout())
}

/// Checks the schema file at a path.
fn check_file(rt: &HostRuntime, path: &str) -> Result<Status, Failure> {
    check(rt.alloc(), open_schema(rt, path)?, &mut rt.stdout())
}

/// A key of the run's own, under which ids and texts are hashed.
fn drawn_key(rt: &HostRuntime) -> Result<HashKey, Failure> {
    match HashKey::drawn(rt) {
        Ok(key) => Ok(key),
        Err(_) => Err(Failure::NoRandomKey),
    }
}

/// Says what the codes mean that words name, as a person may have copied them, or what all mean where there are none.
fn explain_words(rt: &HostRuntime, words: &[&str]) -> Result<Status, Failure> {
    if words.is_empty() {
        return explain_code(rt, None);
    }
    let Ok(codes) = code_words(rt.alloc(), words) else {
        return Err(Failure::Run(RunFault::Full));
    };
    for code in &codes {
        explain_code(rt, Some(code.as_str()))?;
    }
    Ok(Status::Done)
}

/// Says what a code means, or what all mean: the tables of notes one after the other, up to one that has the code.
fn explain_code(rt: &HostRuntime, code: Option<&str>) -> Result<Status, Failure> {
    let mut said = explain_schema(rt, code);
    if goes_on(&said, code) {
        said = explain_feed(rt, code);
    }
    if goes_on(&said, code) {
        said = explain_run(rt, code);
    }
    if goes_on(&said, code) {
        said = explain_later(rt, code);
    }
    if goes_on(&said, code) {
        said = explain_store(rt, code);
    }
    if goes_on(&said, code) {
        said = explain_own_file(rt, code);
    }
    said
}

/// Whether the next table is to be looked at: the last has no such code, or all codes are asked for.
fn goes_on(said: &Result<Status, Failure>, code: Option<&str>) -> bool {
    match said {
        Err(Failure::UnknownCode) => true,
        Err(_) => false,
        Ok(_) => code.is_none(),
    }
}

/// Says what a code of schemas means, or what all of them do.
fn explain_schema(rt: &HostRuntime, code: Option<&str>) -> Result<Status, Failure> {
    explain(rt.alloc(), &SCHEMA_NOTES, code, &mut rt.stdout())
}

/// Says what a code of lines, feeds, patterns or cells means, or what all of them do.
fn explain_feed(rt: &HostRuntime, code: Option<&str>) -> Result<Status, Failure> {
    explain(rt.alloc(), &FEED_NOTES, code, &mut rt.stdout())
}

/// Says what a code of runs, refused lines or files means, or what all of them do.
fn explain_run(rt: &HostRuntime, code: Option<&str>) -> Result<Status, Failure> {
    explain(rt.alloc(), &RUN_NOTES, code, &mut rt.stdout())
}

/// Says what a code of sessions or merges means, or what all of them do.
fn explain_later(rt: &HostRuntime, code: Option<&str>) -> Result<Status, Failure> {
    explain(rt.alloc(), &LATER_NOTES, code, &mut rt.stdout())
}

/// Says what a code of a store means, or what all of them do.
fn explain_store(rt: &HostRuntime, code: Option<&str>) -> Result<Status, Failure> {
    explain(rt.alloc(), &STORE_NOTES, code, &mut rt.stdout())
}

/// Answers a command with feeds, over the changes in a store too where the words name one.
fn answer<T: Threads + Wait + Clock + Sync>(
    rt: &HostRuntime,
    threads: &T,
    words: &RunWords,
    reads: Reads,
    asked: Asked,
    progress: &Progress<'_, T, Stderr>,
) -> Result<Status, StoredFailure>
    requires room { RunHasRoom words.now }
    requires shard { IsShard reads.shard }
    requires max_record { IfSome reads.max_record IsRecordBound }
{
    let schema = schema_of(rt, words.schema, &words.feeds, 1, reads)?;
    match words.store {
        Some(path) => ask_kept(rt, threads, words, path, &schema, reads, asked, progress),
        None => told(answer_fed(rt, threads, words, &schema, reads, asked, progress)),
    }
}

/// Answers a command with feeds over these alone, the cube under the schema or its partial form.
fn answer_fed<T: Threads + Wait + Clock + Sync>(
    rt: &HostRuntime,
    threads: &T,
    words: &RunWords,
    schema: &Schema,
    reads: Reads,
    asked: Asked,
    progress: &Progress<'_, T, Stderr>,
) -> Result<Status, Failure>
    requires room { RunHasRoom words.now }
    requires feeds { (1 ≤ length words.now.feeds.items) × (length words.now.feeds.items ≤ 64) }
{
    if let Asked::Cube { is_partial: true } = asked {
        let partial = schema.partial(rt.alloc())?;
        return answer_under(rt, threads, words, &partial, reads, asked, progress);
    }
    answer_under(rt, threads, words, schema, reads, asked, progress)
}

/// Whether the words name a store, and an option that works on the feeds alone: the partial form, or several builders.
fn has_clash(request: &Request) -> bool {
    match request {
        Request::Print { run, partial } => run.store.is_some() && (*partial || run.builders != 1),
        Request::Refusals { run }
        | Request::Slice { run, .. }
        | Request::Drill { run, .. }
        | Request::RollUp { run, .. } => run.store.is_some() && run.builders != 1,
        _ => false,
    }
}

/// Says that a store and such an option don't go together.
fn refuse_clash(rt: &HostRuntime) -> Result<Status, Failure> {
    let alloc = rt.alloc();
    let refusal = clashing_words(alloc);
    answer_words(alloc, &refusal, &mut rt.stdout(), &mut rt.stderr())
}

/// Answers a command with feeds under a schema.
fn answer_under<T: Threads + Wait + Clock + Sync>(
    rt: &HostRuntime,
    threads: &T,
    words: &RunWords,
    schema: &Schema,
    reads: Reads,
    asked: Asked,
    progress: &Progress<'_, T, Stderr>,
) -> Result<Status, Failure>
    requires room { RunHasRoom words.now }
    requires feeds { (1 ≤ length words.now.feeds.items) × (length words.now.feeds.items ≤ 64) }
{
    let alloc = rt.alloc();
    let question = question_of(rt, schema, asked)?;
    let terms = terms_of(rt, schema, &words.conditions, words.strict, reads.max_cells)?;
    let feeds = open_feeds(rt, &words.feeds, progress.counts())?;
    let settings = settings_of(threads, words.ring, words.builders, words.threads);
    progress.begin(Phase::Reading { feeds: feeds.len() });
    let watch = Watch { progress };
    let out = &mut view_of(rt, words.view, schema, progress)?;
    match ask(
        threads, alloc, schema, feeds, &settings, &question, &terms, &watch, out,
    ) {
        Ok((status, fed)) => {
            if status == Status::LinesRefused && !matches!(question, Question::Refusals) {
                tell_refused(rt, words.why, schema, &words.feeds, &fed, progress);
            }
            // The process ends after this, so what was taken isn't taken apart.
            mem::forget(fed);
            Ok(status)
        }
        Err(failure) => Err(told_of(failure, out)),
    }
}

/// Says how many lines were refused, and why the first one was, where that is wanted; the line of the progress is gone then.
pub(crate) fn tell_refused<T: Wait + Clock>(
    rt: &HostRuntime,
    is_wanted: bool,
    schema: &Schema,
    feeds: &[&str],
    fed: &Fed,
    progress: &Progress<'_, T, Stderr>,
) {
    if is_wanted || says_why(rt) {
        progress.end();
        say_refused(rt, schema, feeds, fed);
    }
}

/// The question that words ask under a schema.
fn question_of(rt: &HostRuntime, schema: &Schema, asked: Asked) -> Result<Question, Failure>
    ensures { IfOk result (Fits schema.now) }
{
    let alloc = rt.alloc();
    match asked {
        Asked::Cube { is_partial: _ } => Ok(Question::Cube),
        Asked::Refusals => Ok(Question::Refusals),
        Asked::Slice { cell } => {
            let pattern = read_pattern(alloc, schema, cell)?;
            Ok(Question::Slice { pattern })
        }
        Asked::Drill { cell, dimension } => {
            let key = read_cell(alloc, schema, cell)?;
            let dimension = read_dimension(schema, dimension)?;
            Ok(Question::Drill { key, dimension })
        }
        Asked::RollUp { cell, dimension } => {
            let key = read_cell(alloc, schema, cell)?;
            let dimension = read_dimension(schema, dimension)?;
            Ok(Question::RollUp { key, dimension })
        }
    }
}

/// Serves the records of standard input over a cube that is kept right, with a store where the words name one.
fn serve<T: Threads + Wait + Clock + Copy + Send + Sync + 'static>(
    rt: &HostRuntime,
    threads: &T,
    words: &LiveWords,
    reads: Reads,
    progress: &Progress<'_, T, Stderr>,
) -> Result<Status, StoredFailure>
    requires room { LiveHasRoom words.now }
    requires shard { IsShard reads.shard }
    requires max_record { IfSome reads.max_record IsRecordBound }
{
    let schema = schema_of(rt, words.schema, &words.feeds, 0, reads)?;
    match words.store {
        Some(path) => serve_kept(rt, threads, words, path, &schema, progress),
        None => told(serve_fed(rt, threads, words, &schema, progress)),
    }
}

/// Serves the records of standard input over a cube that is kept right, without a store.
fn serve_fed<T: Threads + Wait + Clock + Sync>(
    rt: &HostRuntime,
    threads: &T,
    words: &LiveWords,
    schema: &Schema,
    progress: &Progress<'_, T, Stderr>,
) -> Result<Status, Failure>
    requires room { LiveHasRoom words.now }
    requires feeds { length words.now.feeds.items ≤ 64 }
{
    let feeds = open_feeds(rt, &words.feeds, progress.counts())?;
    let wanted = session_threads(threads, words.threads);
    let settings = settings_of(threads, words.ring, 1, wanted);
    progress.begin(Phase::Reading { feeds: feeds.len() });
    let watch = Watch { progress };
    let (alloc, input, out) = (rt.alloc(), rt.stdin(), &mut rt.stdout());
    live(threads, alloc, schema, feeds, &settings, &watch, input, out)
}

/// Merges printed cubes.
fn merge_files<T: Wait + Clock>(
    rt: &HostRuntime,
    words: &MergeWords,
    progress: &Progress<'_, T, Stderr>,
) -> Result<Status, Failure> {
    let schema = merge_schema(rt, words)?;
    merge_for(rt, words, &schema, progress)
}

/// Merges printed cubes of a schema's partial form into one of the schema, or of that form where the words say so.
fn merge_for<T: Wait + Clock>(
    rt: &HostRuntime,
    words: &MergeWords,
    schema: &Schema,
    progress: &Progress<'_, T, Stderr>,
) -> Result<Status, Failure>
    requires { length words.now.cubes.items ≤ 64 }
{
    let partial = schema.partial(rt.alloc())?;
    let wanted = if words.partial { &partial } else { schema };
    merge_under(rt, words, &partial, wanted, progress)
}

/// The schema of cubes to merge, once it is seen that there are at most 64, that standard input is named once at most, and
/// that no path and no regular file stands twice.
fn merge_schema(rt: &HostRuntime, words: &MergeWords) -> Result<Schema, Failure>
    ensures { IfOk result (λ _. length words.now.cubes.items ≤ 64) }
{
    if words.cubes.len() > 64 {
        return Err(Failure::TooManyCubes);
    }
    if inputs_among(words.schema, &words.cubes) > 1 {
        return Err(Failure::InputTaken);
    }
    let schema = read_schema(rt.alloc(), open_schema(rt, words.schema)?)?;
    match first_repeated(named_cubes(rt, &words.cubes)?.as_slice()) {
        Some(place) => Err(Failure::SamePath { input: place + 1 }),
        None => Ok(schema),
    }
}

/// Merges printed cubes of a partial schema into one of the wanted, once they are checked, where the words say so.
fn merge_under<T: Wait + Clock>(
    rt: &HostRuntime,
    words: &MergeWords,
    partial: &Schema,
    wanted: &Schema,
    progress: &Progress<'_, T, Stderr>,
) -> Result<Status, Failure>
    requires { length words.now.cubes.items ≤ 64 }
{
    let alloc = rt.alloc();
    if words.check {
        let cubes = open_cubes(rt, &words.cubes, progress.counts())?;
        progress.begin(Phase::Checking { cubes: cubes.len() });
        check_cubes(alloc, partial, wanted, cubes)?;
    }
    let cubes = open_cubes(rt, &words.cubes, progress.counts())?;
    progress.begin(Phase::Merging { cubes: cubes.len() });
    let out = &mut Output::new(rt.stdout(), progress);
    merge_cubes(alloc, partial, wanted, cubes, out)
}

/// The settings of a run: those that the words give, and else as many threads as the machine has.
fn settings_of<T: Threads>(rt: &T, ring: usize, builders: u32, threads: Option<usize>) -> Settings
    requires ring { (1 ≤ ring) × (ring ≤ 65536) }
    requires builders { (1 ≤ builders) × (builders ≤ 8) }
    requires threads { IfSome threads (IsUpTo 16) }
{
    let threads = match threads {
        Some(threads) => threads,
        None => processors(rt),
    };
    let Some(settings) = Settings::new(ring, builders, threads) else {
        unreachable!()
    };
    settings
}

/// How many threads a session works with: those that the words give, and else half as many more as the machine has, at most
/// 16. Then its parts are smaller, and none of the processors waits long for the last one.
fn session_threads<T: Threads>(rt: &T, threads: Option<usize>) -> Option<usize>
    requires { IfSome threads (IsUpTo 16) }
    ensures { IfSome result (IsUpTo 16) }
{
    if threads.is_some() {
        return threads;
    }
    let count = processors(rt);
    Some((count + count / 2).min(MOST_THREADS))
}

/// How many threads the machine runs at once, 1 to 16.
fn processors<T: Threads>(rt: &T) -> usize
    ensures { (1 ≤ result) × (result ≤ 16) }
{
    match thread::available_parallelism(rt) {
        Ok(count) => count.get().clamp(1, MOST_THREADS),
        Err(_) => 1,
    }
}

/// The schema of a command with feeds, which are read so, and which hashes under a key of the run's own, once it is seen that
/// there are at most 64 feeds, and that standard input is named so many times at most.
fn schema_of(
    rt: &HostRuntime,
    path: &str,
    feeds: &[&str],
    most_inputs: usize,
    reads: Reads,
) -> Result<Schema, Failure>
    requires shard { IsShard reads.shard }
    requires max_record { IfSome reads.max_record IsRecordBound }
    ensures { IfOk result (λ _. length feeds.now ≤ 64) }
{
    if feeds.len() > 64 {
        return Err(Failure::TooManyFeeds);
    }
    if inputs_among(path, feeds) > most_inputs {
        return Err(Failure::InputTaken);
    }
    let schema = read_schema(rt.alloc(), open_schema(rt, path)?)?;
    Ok(read_so(schema, reads).with_hash_key(drawn_key(rt)?))
}

/// How many of a schema's path and other paths name standard input.
fn inputs_among(schema: &str, paths: &[&str]) -> usize {
    let others = paths.iter().filter(|path| **path == STANDARD_INPUT).count();
    others.saturating_add(usize::from(schema == STANDARD_INPUT))
}

/// The file that a word names: its own path, but for standard input.
fn path_of(word: &str) -> &str {
    if word == STANDARD_INPUT {
        "/dev/stdin"
    } else {
        word
    }
}

fn open_schema(rt: &HostRuntime, path: &str) -> Result<File, Failure> {
    match File::open(rt, path_of(path)) {
        Ok(file) => Ok(file),
        Err(_) => Err(Failure::Unreadable),
    }
}

/// The files of the feeds, opened in their order.
fn open_feeds<'c>(
    rt: &HostRuntime,
    paths: &[&str],
    counts: Option<&'c Counts>,
) -> Result<Vec<FeedReader<'c, File>>, Failure>
    requires { length paths.now ≤ 64 }
    ensures { IfOk result (λ files. vec_len files ≡ length paths.now) }
{
    let mut files = Vec::new(rt.alloc());
    for path in paths {
        let file = open_feed(rt, path, files.len() as u32 + 1)?;
        if files.push(FeedReader::new(file, counts)).is_err() {
            return Err(Failure::Run(RunFault::Memory));
        }
    }
    Ok(files)
}

/// The file of the feed of a source, opened.
fn open_feed(rt: &HostRuntime, path: &str, source: u32) -> Result<File, Failure> {
    match File::open(rt, path_of(path)) {
        Ok(file) => Ok(file),
        Err(_) => Err(Failure::FeedUnreadable { source }),
    }
}

/// The files of the cubes to merge, opened in their order.
fn open_cubes<'c>(
    rt: &HostRuntime,
    paths: &[&str],
    counts: Option<&'c Counts>,
) -> Result<Vec<CubeReader<'c, File>>, Failure>
    requires { length paths.now ≤ 64 }
{
    let mut files = Vec::new(rt.alloc());
    for path in paths {
        let input = files.len() + 1;
        let Ok(file) = File::open(rt, path_of(path)) else {
            let (fault, record) = (InputFault::Read, 0);
            return Err(Failure::Merge(MergeFault::Input {
                fault,
                input,
                record,
            }));
        };
        if files.push(CubeReader::new(file, counts)).is_err() {
            return Err(Failure::Merge(MergeFault::Memory));
        }
    }
    Ok(files)
}
