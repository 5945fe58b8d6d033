//! The session whose changes are kept in a store, and the questions over what a store has.
ghost use Rattle.std.specs.Prelude.{◌≡◌, ◌≤◌, length, vec_len, IfOk};
ghost use Rattle.cube_tool.specs.Answering.{Fits};
ghost use Rattle.cube_console.specs.CommandLine.{RunHasRoom, LiveHasRoom};

use crate::pauses::SessionPauses;
use crate::reads::Reads;
use crate::terms::terms_of;
use crate::views::{stored_told_of, view_of};
use crate::watch::Watch;
use crate::{Asked, open_feed, open_schema, question_of, session_threads, settings_of};
use cube_console::{Counts, FeedReader, LiveWords, Phase, Progress, RunWords, read_ahead};
use cube_core::Schema;
use cube_live::{NeverRests, Rests};
use cube_store::{
    ChangeJournal, FeedNote, FileFault, NoteFault, StoreFault, Unknown, Wary, close, note_of,
    open_files, open_made_files, open_path, prepare_path,
};
use cube_store_commands::{
    Commits, SessionInput, StoredFailure, StoredFeeds, ask_stored, live_stored,
};
use cube_tool::RunFault;
use cube_tool::command::{Failure, Question, Status, Terms};
use sqlite_disk::{Disk, Start};
use sqlite_std_file::FileFrom;
use sqlite_store::FileStore;
use sqlite_trees::store::Store;
use std::fs::File;
use std::hash::{BuildHasher, RandomState};
use std::io::{Read, Seek, Stderr};
use std::sync::Wait;
use std::thread::Threads;
use std::time::Clock;

/// Where a store is, and how it starts.
#[derive(Drop)]
struct Place<'p, S: Start> {
    path: &'p str,
    start: S,
}

/// The feeds of a command, opened, and what a store notes of them.
#[derive(Drop)]
struct NotedFeeds<'c> {
    readers: Vec<FeedReader<'c, File>>,
    notes: Vec<FeedNote>,
}

/// A question, and on what terms it is asked.
#[derive(Drop)]
struct AskedOn {
    question: Question,
    terms: Terms,
}

impl<'c> NotedFeeds<'c> {
    /// The feeds, before the changes of a store.
    fn before<S>(self, store: S) -> StoredFeeds<FeedReader<'c, File>, S>
        ensures { vec_len result.readers ≡ vec_len self.entry.readers }
    {
        StoredFeeds {
            readers: self.readers,
            notes: self.notes,
            store,
        }
    }
}

/// Serves the records of standard input over a cube that is kept right, and keeps their changes in the store at a path.
pub(crate) fn serve_kept<T: Threads + Wait + Clock + Copy + Send + Sync + 'static>(
    rt: &HostRuntime,
    threads: &T,
    words: &LiveWords,
    path: &str,
    schema: &Schema,
    progress: &Progress<'_, T, Stderr>,
) -> Result<Status, StoredFailure>
    requires room { LiveHasRoom words.now }
    requires feeds { length words.now.feeds.items ≤ 64 }
{
    if words.wary {
        let start = Wary;
        serve_from(rt, threads, words, Place { path, start }, schema, progress)
    } else {
        let start = Unknown;
        serve_from(rt, threads, words, Place { path, start }, schema, progress)
    }
}

/// The same, with a store that starts so.
fn serve_from<T: Threads + Wait + Clock + Copy + Send + Sync + 'static, S: Start>(
    rt: &HostRuntime,
    threads: &T,
    words: &LiveWords,
    place: Place<'_, S>,
    schema: &Schema,
    progress: &Progress<'_, T, Stderr>,
) -> Result<Status, StoredFailure>
    requires room { LiveHasRoom words.now }
    requires feeds { length words.now.feeds.items ≤ 64 }
{
    let noted = noted_feeds(rt, words.schema, &words.feeds, progress.counts())?;
    let feeds = noted.before(open_store(rt, place.path, place.start, true)?);
    serve_and_close(rt, threads, words, schema, feeds, progress)
}

/// The same, over the feeds and the store that were opened. The store is closed.
fn serve_and_close<T: Threads + Wait + Clock + Copy + Send + Sync + 'static, D: Disk + Drop>(
    rt: &HostRuntime,
    threads: &T,
    words: &LiveWords,
    schema: &Schema,
    feeds: StoredFeeds<FeedReader<'_, File>, FileStore<D>>,
    progress: &Progress<'_, T, Stderr>,
) -> Result<Status, StoredFailure>
    requires room { LiveHasRoom words.now }
    requires feeds { vec_len feeds.readers ≤ 64 }
{
    match serve_over(rt, threads, words, schema, feeds, progress) {
        Ok((status, journal)) => {
            copy_and_close(journal)?;
            Ok(status)
        }
        Err((failure, store)) => {
            drop(store.close());
            Err(failure)
        }
    }
}

/// The same, over a store of any kind, which is given back. A thread of its own reads standard input ahead, so that the session
/// sees where it rests; where none can be had, the session reads it, and sees no rest.
fn serve_over<T: Threads + Wait + Clock + Copy + Send + Sync + 'static, S: Store>(
    rt: &HostRuntime,
    threads: &T,
    words: &LiveWords,
    schema: &Schema,
    feeds: StoredFeeds<FeedReader<'_, File>, S>,
    progress: &Progress<'_, T, Stderr>,
) -> Result<(Status, ChangeJournal<S>), (StoredFailure, S)>
    requires room { LiveHasRoom words.now }
    requires feeds { vec_len feeds.readers ≤ 64 }
{
    match read_ahead(threads, rt.alloc(), rt.stdin()) {
        Some((reader, pauses)) => {
            let rests = SessionPauses { pauses };
            serve_input(rt, threads, words, schema, feeds, reader, rests, progress)
        }
        None => {
            let (reader, rests) = (rt.stdin(), NeverRests);
            serve_input(rt, threads, words, schema, feeds, reader, rests, progress)
        }
    }
}

/// The same, over an input, and what tells whether it rests.
fn serve_input<T: Threads + Wait + Clock + Sync, S: Store, I: Read + Drop, P: Rests + Drop>(
    rt: &HostRuntime,
    threads: &T,
    words: &LiveWords,
    schema: &Schema,
    feeds: StoredFeeds<FeedReader<'_, File>, S>,
    reader: I,
    rests: P,
    progress: &Progress<'_, T, Stderr>,
) -> Result<(Status, ChangeJournal<S>), (StoredFailure, S)>
    requires room { LiveHasRoom words.now }
    requires feeds { vec_len feeds.readers ≤ 64 }
{
    let wanted = session_threads(threads, words.threads);
    let settings = settings_of(threads, words.ring, 1, wanted);
    progress.begin(Phase::Reading {
        feeds: feeds.readers.len(),
    });
    let watch = Watch { progress };
    let commits = Commits {
        rests,
        most_waiting: words.commit_every as u64,
    };
    let input = SessionInput { reader, commits };
    let (alloc, out) = (rt.alloc(), &mut rt.stdout());
    live_stored(threads, alloc, schema, feeds, &settings, &watch, input, out)
}

/// Answers a command with feeds over these and the changes in the store at a path. The log isn't copied into the file, so that
/// both stay as they are.
pub(crate) fn ask_kept<T: Threads + Wait + Clock + Sync>(
    rt: &HostRuntime,
    threads: &T,
    words: &RunWords,
    path: &str,
    schema: &Schema,
    reads: Reads,
    asked: Asked,
    progress: &Progress<'_, T, Stderr>,
) -> Result<Status, StoredFailure>
    requires room { RunHasRoom words.now }
    requires feeds { length words.now.feeds.items ≤ 64 }
{
    let question = question_of(rt, schema, asked)?;
    let terms = terms_of(rt, schema, &words.conditions, words.strict, reads.max_cells)?;
    let asked = &AskedOn { question, terms };
    if words.wary {
        let start = Wary;
        ask_from(
            rt,
            threads,
            words,
            Place { path, start },
            schema,
            asked,
            progress,
        )
    } else {
        let start = Unknown;
        ask_from(
            rt,
            threads,
            words,
            Place { path, start },
            schema,
            asked,
            progress,
        )
    }
}

/// The same, with a store that starts so.
fn ask_from<T: Threads + Wait + Clock + Sync, S: Start>(
    rt: &HostRuntime,
    threads: &T,
    words: &RunWords,
    place: Place<'_, S>,
    schema: &Schema,
    asked: &AskedOn,
    progress: &Progress<'_, T, Stderr>,
) -> Result<Status, StoredFailure>
    requires room { RunHasRoom words.now }
    requires feeds { length words.now.feeds.items ≤ 64 }
    requires question { Fits schema.now asked.now.question }
{
    let noted = noted_feeds(rt, words.schema, &words.feeds, progress.counts())?;
    let feeds = noted.before(open_store(rt, place.path, place.start, false)?);
    ask_and_close(rt, threads, words, schema, feeds, asked, progress)
}

/// The same, over the feeds and the store that were opened. The store is closed.
fn ask_and_close<T: Threads + Wait + Clock + Sync, D: Disk + Drop>(
    rt: &HostRuntime,
    threads: &T,
    words: &RunWords,
    schema: &Schema,
    feeds: StoredFeeds<FeedReader<'_, File>, FileStore<D>>,
    asked: &AskedOn,
    progress: &Progress<'_, T, Stderr>,
) -> Result<Status, StoredFailure>
    requires room { RunHasRoom words.now }
    requires feeds { vec_len feeds.readers ≤ 64 }
    requires question { Fits schema.now asked.now.question }
{
    let (ended, store) = match ask_over(rt, threads, words, schema, feeds, asked, progress) {
        Ok((status, store)) => (Ok(status), store),
        Err((failure, store)) => (Err(failure), store),
    };
    drop(store.close());
    ended
}

/// The same, over a store of any kind, which is given back.
fn ask_over<T: Threads + Wait + Clock + Sync, S: Store>(
    rt: &HostRuntime,
    threads: &T,
    words: &RunWords,
    schema: &Schema,
    feeds: StoredFeeds<FeedReader<'_, File>, S>,
    asked: &AskedOn,
    progress: &Progress<'_, T, Stderr>,
) -> Result<(Status, S), (StoredFailure, S)>
    requires room { RunHasRoom words.now }
    requires feeds { vec_len feeds.readers ≤ 64 }
    requires question { Fits schema.now asked.now.question }
{
    let settings = settings_of(threads, words.ring, 1, words.threads);
    progress.begin(Phase::Reading {
        feeds: feeds.readers.len(),
    });
    let watch = Watch { progress };
    let out = &mut match view_of(rt, words.view, schema, progress) {
        Ok(out) => out,
        Err(failure) => return Err((StoredFailure::Failure(failure), feeds.store)),
    };
    let (alloc, question, terms) = (rt.alloc(), &asked.question, &asked.terms);
    match ask_stored(
        threads, alloc, schema, feeds, &settings, question, terms, &watch, out,
    ) {
        Ok(ended) => Ok(ended),
        Err((failure, store)) => Err((stored_told_of(failure, out), store)),
    }
}

/// Copies a store's log into its file, and closes both.
fn copy_and_close<D: Disk + Drop>(journal: ChangeJournal<FileStore<D>>) -> Result<(), StoreFault> {
    match close(journal) {
        Ok(files) => {
            drop(files);
            Ok(())
        }
        Err((fault, store)) => {
            drop(store.close());
            Err(StoreFault::Call(fault))
        }
    }
}

/// The store at a path, which is made where there is none if `makes` holds. A file that is no store is left as it was, with
/// nothing beside it that wasn't there.
fn open_store<S: Start>(
    rt: &HostRuntime,
    path: &str,
    start: S,
    makes: bool,
) -> Result<FileStore<FileFrom<S>>, StoreFault> {
    let beside = prepare_path(rt, path, makes)?;
    let files = open_path(rt, path, start)?;
    let Ok(seeds) = RandomState::new(rt) else {
        return Err(StoreFault::CantOpen);
    };
    let seed = seeds.hash_one(&0u8);
    let opened = if makes {
        open_files(rt.alloc(), files, seed)
    } else {
        open_made_files(rt.alloc(), files, seed)
    };
    match opened {
        Ok(store) => Ok(store),
        Err((fault, files)) => {
            if fault == FileFault::NotAStore {
                beside.forget(rt);
            }
            drop(files);
            Err(StoreFault::from(fault))
        }
    }
}

/// The files of the feeds, opened in their order, and what a store notes of the schema's file and of theirs: each is read to
/// its end, noted, and begun again.
fn noted_feeds<'c>(
    rt: &HostRuntime,
    schema: &str,
    paths: &[&str],
    counts: Option<&'c Counts>,
) -> Result<NotedFeeds<'c>, Failure>
    requires { length paths.now ≤ 64 }
    ensures { IfOk result (λ noted. vec_len noted.readers ≡ length paths.now) }
{
    let mut notes = Vec::new(rt.alloc());
    push_note(rt, &mut notes, 0, &mut open_schema(rt, schema)?)?;
    let mut readers = Vec::new(rt.alloc());
    for path in paths {
        let source = readers.len() as u32 + 1;
        let mut file = open_feed(rt, path, source)?;
        push_note(rt, &mut notes, source, &mut file)?;
        if readers.push(FeedReader::new(file, counts)).is_err() {
            return Err(Failure::Run(RunFault::Memory));
        }
    }
    Ok(NotedFeeds { readers, notes })
}

/// Notes what the file of a source has, which is read to its end and begun again; 0 is the schema's.
fn push_note(
    rt: &HostRuntime,
    notes: &mut Vec<FeedNote>,
    source: u32,
    file: &mut File,
) -> Result<(), Failure> {
    let note = match note_of(rt.alloc(), file) {
        Ok(note) => note,
        Err(NoteFault::Memory) => return Err(Failure::Run(RunFault::Memory)),
        Err(NoteFault::Read) => return Err(unreadable(source)),
    };
    if file.rewind().is_err() {
        return Err(unreadable(source));
    }
    match notes.push(note) {
        Ok(()) => Ok(()),
        Err(_) => Err(Failure::Run(RunFault::Memory)),
    }
}

/// What is said where the file of a source can't be read; 0 is the schema's.
fn unreadable(source: u32) -> Failure {
    if source == 0 {
        Failure::Unreadable
    } else {
        Failure::FeedUnreadable { source }
    }
}
