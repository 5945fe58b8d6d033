//! A session: records in, replies out.
ghost use Rattle.std.specs.Prelude.{◌≡◌, ◌≤◌, ◌<◌, ◌+◌, ◌^◌, ◌++◌, drop, length, IfOk, IfErr, IfSome, OnOk, OnErr};
ghost use Rattle.std.specs.Io.KnownBytes.{Appends};
ghost use Rattle.csv.specs.Records.{fields_of};
ghost use Rattle.cube_core.specs.Arrival.{Arrivals};
ghost use Rattle.cube_feed.specs.Reading.{Advances, taken_by, uncounted};
ghost use Rattle.cube_core.specs.FeedRecords.{is_read};
ghost use Rattle.cube_core.specs.Layout.{Layout};
ghost use Rattle.cube_live.specs.Keeping.{EndsIn, FailsKept, KeepsOn, LeavesTaken, keeping_after, keeping_changed, keeping_with, made_sure, with_change};
ghost use Rattle.cube_live.specs.Live.{CanAsk, LiveStandsAt, TakesNext};
ghost use Rattle.cube_live.specs.Serving.{ExplainsChange, IsInputFault, IsJournalFault, Replied, ReplyFails, Serves, ServingFails, TakesChange, WritesNone, WritesPart, WritesReply, BreaksReply};
ghost use Rattle.cube_live.specs.declared.request.Request.TheVariants as request;

use crate::journal::{Journal, JournalFault};
use crate::live::Live;
use crate::parse::request_of;
use crate::reply::{code_line, ok_line};
use crate::request::{Question, Request, RequestFault};
use crate::rests::Rests;
use csv::ByteRecord;
use cube_core::{Change, LineFault};
use cube_feed::{FeedFault, RecordReader, change_of_record, is_read, put_rest};
use cube_lines::write_whole;
use std::alloc::{AllocError, Global};
use std::io::{Read, Write};
use std::thread::Threads;

/// Why a session ended before its input did.
#[derive(Clone, Copy, Debug, PartialEq, Eq)]
pub enum SessionFault {
    /// The input couldn't be read.
    Read,
    /// A change follows the last record that the schema takes of a source.
    TooMany(u32),
    /// A growth was refused.
    Full,
    /// The writer failed after so many bytes had gone out since the session began.
    Write(u64),
    /// The journal doesn't keep a change.
    Journal(JournalFault),
}

impl From<AllocError> for SessionFault {
    ghost use Rattle.cube_live.specs.declared.session.SessionFault.TheVariants.{Full};
    ghost use Rattle.std.specs.Prelude.{◌≡◌};

    ghost from_gives = { λ _ fault. fault ≡ Full };

    fn from(_: AllocError) -> SessionFault {
        SessionFault::Full
    }
}

/// Takes the records of a session to their end, and writes the reply to each, which is flushed before the next is read.
///
/// The writer is given nothing but whole replies, but where it fails. A change has no reply: it is told to the journal, and
/// then applied. A question is answered after the journal has made sure of all changes before it, and the cubes have
/// followed them. Where the input rests before a record, the journal makes sure of all changes too.
///
/// However it ends, the journal keeps the changes among a first part of the records, and has made sure of all that stood
/// before any answer of which a byte went out. Where it fails the replies to all records that were taken went out, but to
/// the one in hand, and where the writing fails the first bytes of them.
pub fn serve<T: Threads + Sync, R: Read, P: Rests, W: Write, J: Journal>(
    rt: &T,
    alloc: Global,
    live: &mut Live<'_>,
    records: &mut RecordReader<R>,
    rests: &mut P,
    journal: &mut J,
    out: &mut W,
) -> Result<(), SessionFault>
    ensures ok { OnOk result (IfSome records.old.left (λ taken. Serves live.old.schema taken
        live.old live.new (W.contents out.old) (W.contents out.new))) }
    ensures err { IfErr result (λ fault. IfSome records.old.left (λ taken. ServingFails live.old.schema taken fault
        live.old (W.contents out.old) (W.contents out.new))) }
    ensures kept { OnOk result (IfSome records.old.left (λ taken.
        KeepsOn J.keeps J.keeps journal.old (λ k. made_sure (keeping_after live.old.schema k taken)) journal.new)) }
    ensures err_kept { IfErr result (λ fault. IfSome records.old.left (λ taken.
        FailsKept J.keeps J.breaks journal.old journal.new live.old.schema taken live.old fault
        (W.contents out.old) (W.contents out.new))) }
    ensures reached { IfErr result (λ fault. IfSome records.old.left (λ taken.
        LeavesTaken live.old.schema taken live.old fault records.old.taken records.new.taken
        (W.contents out.old) (W.contents out.new))) }
    ensures schema { live.new.schema ≡ live.old.schema }
{
    let mut rest = ByteRecord::new(alloc);
    let mut sent = 0;
    for turn in 0..u64::MAX {
        settle_at_rest(rests, journal)?;
        if !advance(records)? {
            return settle(journal);
        }
        match take_record(
            rt,
            alloc,
            live,
            records.fields(),
            &mut rest,
            journal,
            out,
            sent,
        ) {
            Ok(total) => sent = total,
            Err(fault) => return Err(fault),
        }
    }
    Err(SessionFault::Full)
}

// Takes the next record, if there is one.
fn advance<R: Read>(records: &mut RecordReader<R>) -> Result<bool, SessionFault>
    ensures takes { IfOk result (λ found. Advances records.old.left found (uncounted records.new)) }
    ensures counts { IfOk result (λ found. records.new.taken ≡ taken_by records.old.taken found) }
    ensures taken { OnErr result (records.new.taken ≡ records.old.taken) }
    ensures fault { IfErr result IsInputFault }
{
    match records.advance() {
        Ok(found) => Ok(found),
        Err(FeedFault::Memory) => Err(SessionFault::Full),
        Err(_) => Err(SessionFault::Read),
    }
}

// Has the journal make sure of all changes that it took, where the input rests.
fn settle_at_rest<P: Rests, J: Journal>(rests: &mut P, journal: &mut J) -> Result<(), SessionFault>
    ensures fault { IfErr result IsJournalFault }
    ensures kept { OnOk result (KeepsOn J.keeps J.keeps journal.old (λ k. k) journal.new) }
    ensures err_kept { OnErr result (KeepsOn J.keeps J.breaks journal.old (λ k. k) journal.new) }
{
    if rests.rests() {
        return settle(journal);
    }
    Ok(())
}

// Has the journal make sure of all changes that it took.
fn settle<J: Journal>(journal: &mut J) -> Result<(), SessionFault>
    ensures fault { IfErr result IsJournalFault }
    ensures kept { OnOk result (KeepsOn J.keeps J.keeps journal.old made_sure journal.new) }
    ensures still { OnOk result (KeepsOn J.keeps J.keeps journal.old (λ k. k) journal.new) }
    ensures err_kept { OnErr result (KeepsOn J.keeps J.breaks journal.old (λ k. k) journal.new) }
{
    match journal.settle() {
        Ok(()) => Ok(()),
        Err(fault) => Err(SessionFault::Journal(fault)),
    }
}

// Takes a record, and writes the reply to it. The answer is how many bytes went out since the session began.
fn take_record<T: Threads + Sync, W: Write, J: Journal>(
    rt: &T,
    alloc: Global,
    live: &mut Live<'_>,
    fields: &ByteRecord,
    rest: &mut ByteRecord,
    journal: &mut J,
    out: &mut W,
    sent: u64,
) -> Result<u64, SessionFault>
    ensures ok { IfOk result (λ total. (arrivals : Arrivals) → LiveStandsAt live.old arrivals →
        Replied live.old.schema arrivals (fields_of fields.now) live.new sent total
        (W.contents out.old) (W.contents out.new)) }
    ensures err { IfErr result (λ fault. (arrivals : Arrivals) → LiveStandsAt live.old arrivals →
        ReplyFails live.old.schema arrivals (fields_of fields.now) sent fault
        (W.contents out.old) (W.contents out.new)) }
    ensures kept { OnOk result (KeepsOn J.keeps J.keeps journal.old
        (λ k. keeping_with live.old.schema k (fields_of fields.now)) journal.new) }
    ensures err_kept { IfErr result (λ fault. EndsIn J.keeps J.breaks fault journal.old
        (λ k. keeping_with live.old.schema k (fields_of fields.now)) journal.new) }
    ensures schema { live.new.schema ≡ live.old.schema }
{
    match request_of(alloc, live.schema(), fields)? {
        Request::Change(source) => {
            match change(alloc, live, source, fields, rest, journal) {
                Ok(()) => Ok(sent),
                Err(fault) => Err(fault),
            }
        }
        Request::Ask(question) => answer(rt, alloc, live, &question, journal, out, sent),
        Request::Wrong(fault) => refuse(alloc, &fault, journal, out, sent),
    }
}

// Answers a question. The result is how many bytes went out since the session began.
fn answer<T: Threads + Sync, W: Write, J: Journal>(
    rt: &T,
    alloc: Global,
    live: &mut Live<'_>,
    question: &Question,
    journal: &mut J,
    out: &mut W,
    sent: u64,
) -> Result<u64, SessionFault>
    requires ask { CanAsk live.old.schema question.now }
    ensures ok { IfOk result (λ total. (arrivals : Arrivals) → LiveStandsAt live.old arrivals →
        WritesReply live.old.schema arrivals (request.Ask question.now) sent total
        (W.contents out.old) (W.contents out.new)) }
    ensures err { IfErr result (λ fault. (arrivals : Arrivals) → LiveStandsAt live.old arrivals →
        BreaksReply live.old.schema arrivals (request.Ask question.now) sent fault
        (W.contents out.old) (W.contents out.new)) }
    ensures same { live.new ≡ live.old }
    ensures kept { OnOk result (KeepsOn J.keeps J.keeps journal.old made_sure journal.new) }
    ensures err_kept { IfErr result (λ fault. EndsIn J.keeps J.breaks fault journal.old made_sure journal.new) }
{
    settle(journal)?;
    let text = live.text_of(rt, question)?;
    let line = ok_line(alloc, text.len())?;
    write_reply(out, &line, &text, sent)
}

// Says what is wrong with a record. The result is how many bytes went out since the session began.
fn refuse<W: Write, J: Journal>(
    alloc: Global,
    fault: &RequestFault,
    journal: &mut J,
    out: &mut W,
    sent: u64,
) -> Result<u64, SessionFault>
    ensures ok { IfOk result (λ total. (s : Layout) (arrivals : Arrivals) →
        WritesReply s arrivals (request.Wrong fault.now) sent total
        (W.contents out.old) (W.contents out.new)) }
    ensures err { IfErr result (λ why. (s : Layout) (arrivals : Arrivals) →
        BreaksReply s arrivals (request.Wrong fault.now) sent why
        (W.contents out.old) (W.contents out.new)) }
    ensures kept { OnOk result (KeepsOn J.keeps J.keeps journal.old made_sure journal.new) }
    ensures err_kept { IfErr result (λ why. EndsIn J.keeps J.breaks why journal.old made_sure journal.new) }
{
    settle(journal)?;
    let line = code_line(alloc, fault)?;
    write_reply(out, &line, &[], sent)
}

// Takes what the fields after the first say of a source, once the journal was told of the record; what is in another
// shard is left alone.
fn change<J: Journal>(
    alloc: Global,
    live: &mut Live<'_>,
    source: u32,
    fields: &ByteRecord,
    rest: &mut ByteRecord,
    journal: &mut J,
) -> Result<(), SessionFault>
    requires first { 1 ≤ source }
    requires last { source ≤ 64 }
    ensures takes { OnOk result (TakesChange source (drop 1 (fields_of fields.now)) live.old live.new) }
    ensures fault { IfErr result
        (ExplainsChange (is_read live.old.schema (drop 1 (fields_of fields.now))) source live.old) }
    ensures kept { OnOk result (KeepsOn J.keeps J.keeps journal.old
        (λ k. keeping_changed live.old.schema k source (fields_of fields.now)) journal.new) }
    ensures err_kept { IfErr result (λ why. EndsIn J.keeps J.breaks why journal.old
        (λ k. keeping_changed live.old.schema k source (fields_of fields.now)) journal.new) }
    ensures schema { live.new.schema ≡ live.old.schema }
{
    put_rest(fields, 1, rest)?;
    if !is_read(live.schema(), rest) {
        return Ok(());
    }
    if !live.has_room(source) {
        return Err(SessionFault::TooMany(source));
    }
    note(journal, source, fields)?;
    let what = change_of_record(alloc, live.schema(), rest)?;
    apply(live, source, what)
}

// Has the cube take what a record says of a source that has room for it, which is refused only where memory runs out.
fn apply(
    live: &mut Live<'_>,
    source: u32,
    what: Result<Change, LineFault>,
) -> Result<(), SessionFault>
    requires first { 1 ≤ source }
    requires last { source ≤ 64 }
    ensures takes { OnOk result (TakesNext source what live.old live.new) }
    ensures fault { IfErr result (λ fault. fault ≡ SessionFault.Full) }
    ensures schema { live.new.schema ≡ live.old.schema }
{
    match live.apply(source, what) {
        Ok(()) => Ok(()),
        Err(_) => Err(SessionFault::Full),
    }
}

// Tells the journal of a change.
fn note<J: Journal>(journal: &mut J, source: u32, fields: &ByteRecord) -> Result<(), SessionFault>
    ensures fault { IfErr result IsJournalFault }
    ensures kept { OnOk result (KeepsOn J.keeps J.keeps journal.old
        (λ k. with_change k source (fields_of fields.now)) journal.new) }
    ensures err_kept { OnErr result (KeepsOn J.keeps J.breaks journal.old
        (λ k. with_change k source (fields_of fields.now)) journal.new) }
{
    match journal.note(source, fields) {
        Ok(()) => Ok(()),
        Err(fault) => Err(SessionFault::Journal(fault)),
    }
}

// Writes a line and a text, and counts them with the bytes that were sent before.
fn write_reply<W: Write>(
    out: &mut W,
    line: &[u8],
    text: &[u8],
    sent: u64,
) -> Result<u64, SessionFault>
    ensures ok { IfOk result (λ total. (total ≡ sent + length (line.now ++ text.now))
        × Appends (W.contents out.old) (W.contents out.new) (line.now ++ text.now)) }
    ensures err { IfErr result (λ fault. WritesNone (line.now ++ text.now) sent fault
        (W.contents out.old) (W.contents out.new)) }
{
    let Some(before) = sent.checked_add(line.len() as u64) else {
        return Err(SessionFault::Full);
    };
    let Some(total) = before.checked_add(text.len() as u64) else {
        return Err(SessionFault::Full);
    };
    write_part(out, line, sent)?;
    match write_part(out, text, before) {
        Ok(()) => Ok(total),
        Err(fault) => Err(fault),
    }
}

// Writes bytes whole, after so many that were sent before.
fn write_part<W: Write>(out: &mut W, bytes: &[u8], sent: u64) -> Result<(), SessionFault>
    requires { sent + length bytes.now < 2 ^ 64 }
    ensures ok { OnOk result (Appends (W.contents out.old) (W.contents out.new) bytes.now) }
    ensures err { IfErr result (λ fault. WritesPart bytes.now sent fault
        (W.contents out.old) (W.contents out.new)) }
{
    match write_whole(out, bytes) {
        Ok(()) => Ok(()),
        Err(fault) => Err(SessionFault::Write(sent + fault.sent as u64)),
    }
}
