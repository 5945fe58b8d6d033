//! Why a command failed, in more lines than one: where standard error is a terminal, or where the words or the variable
//! DATACUBE_WHY ask for it. The files are read again, once the command has failed.
use crate::own_files::own_schema;
use crate::path_of;
use crate::reads::{Reads, max_cells_of, max_record_of, read_so};
use cube_console::Request;
use cube_core::Schema;
use cube_lines::write_whole;
use cube_store_commands::StoredFailure;
use cube_tool::Fed;
use cube_tool::command::{read_condition, read_schema};
use cube_why::{
    FoundLine, KIND_ADVICE, Lines, Refused, Report, Said, advice_on, find_line, kind_of, lines_of,
    own_records, put_advice, put_condition, put_kind, put_word, refused_line, refused_of,
    refused_unread, tell_columns, tell_header, tell_limit, tell_long_record, tell_record,
    tell_repeated, tell_schema, tell_unclosed, unclosed_line,
};
use std::alloc::AllocError;
use std::fs::File;
use std::io::{IsTerminal, Read};
use std::{env, fs};

/// The variable that asks for more lines where it is 1.
const VARIABLE: &str = "DATACUBE_WHY";

/// How many bytes of a schema are read again at most.
const MOST_OF_SCHEMA: u64 = 1_048_576;

/// Whether more lines say why a request failed.
pub(crate) fn wants_why(rt: &HostRuntime, request: &Request) -> bool {
    asks_why(request) || says_why(rt)
}

/// Whether more lines say why a command failed, whatever its words are: on a terminal, or by the variable.
pub(crate) fn says_why(rt: &HostRuntime) -> bool {
    rt.stderr().is_terminal() || is_set(rt)
}

// Whether the variable asks for it.
fn is_set(rt: &HostRuntime) -> bool {
    match env::var(rt, VARIABLE) {
        Ok(value) => value.as_str() == "1",
        Err(_) => false,
    }
}

// Whether the words of a request ask for it.
fn asks_why(request: &Request) -> bool {
    match request {
        Request::Sample => false,
        Request::Check { why, .. } | Request::Explain { why, .. } => *why,
        Request::Print { run, .. }
        | Request::Refusals { run }
        | Request::Slice { run, .. }
        | Request::Drill { run, .. }
        | Request::RollUp { run, .. } => run.why,
        Request::Live { live } => live.why,
        Request::Merge { merge } => merge.why,
        Request::Schema { words } => words.why,
        Request::Table { table } => table.why,
    }
}

/// Says why a request failed, behind the line that its failure prints. Where memory runs out it says less.
pub(crate) fn say_why(rt: &HostRuntime, request: &Request, failure: &StoredFailure) {
    let mut report = Report::new(rt.alloc());
    let _ = put_why(rt, request, failure, &mut report);
    let _ = write_whole(&mut rt.stderr(), report.as_bytes());
}

/// Says what there is to do where no schema is made of a file that begins with these bytes.
pub(crate) fn say_columns(rt: &HostRuntime, path: &str, begin: &[u8]) {
    let mut report = Report::new(rt.alloc());
    let _ = tell_columns(rt.alloc(), path, begin, &mut report);
    let _ = write_whole(&mut rt.stderr(), report.as_bytes());
}

// Adds why a request failed.
fn put_why(
    rt: &HostRuntime,
    request: &Request,
    failure: &StoredFailure,
    report: &mut Report,
) -> Result<(), AllocError> {
    let alloc = rt.alloc();
    let line = format!(in alloc; "{failure}")?;
    let said = Said::of(line.as_str());
    let path = path_of_said(request, &said);
    let kind = kind_at(rt, path);
    if kind != "" {
        return put_kind(path, kind, report);
    }
    if said.source().is_some() {
        put_file(rt, request, &said, path, report)?;
    } else {
        put_words(rt, request, &said, path, report)?;
    }
    put_advice(alloc, line.as_str(), report)
}

// The path of the file that a failure is about: a feed, a cube or the schema; empty where it is about none.
fn path_of_said<'r>(request: &'r Request, said: &Said) -> &'r str {
    match said.source() {
        Some(source) => path_at(request, source).unwrap_or(""),
        None if said.is_of_schema() => match schema_path(request) {
            Some(path) => path,
            None => "",
        },
        None => "",
    }
}

// Adds what is wrong with the file of a source.
fn put_file(
    rt: &HostRuntime,
    request: &Request,
    said: &Said,
    path: &str,
    report: &mut Report,
) -> Result<(), AllocError> {
    if path == "" {
        return Ok(());
    }
    match schema_again(rt, request) {
        Some(schema) => put_cause(rt, &schema, said, path, report),
        None => put_kind(path, "", report),
    }
}

// Adds what is wrong with the file of a source under a schema.
fn put_cause(
    rt: &HostRuntime,
    schema: &Schema,
    said: &Said,
    path: &str,
    report: &mut Report,
) -> Result<(), AllocError> {
    if said.code == "G7" {
        return put_line(rt, schema, said, path, report);
    }
    match said.inner {
        Some("F3") => put_header(rt, schema, path, report),
        Some("F4") => put_limit(rt, schema, path, report),
        Some("F5") => put_unclosed(rt, schema, path, report),
        Some("F6") => put_long_record(rt, schema, path, said.second.unwrap_or(0), report),
        _ => put_kind(path, "", report),
    }
}

// The path of a source.
fn path_at<'r>(request: &'r Request, source: u64) -> Option<&'r str> {
    let place = usize::try_from(source).ok()?.checked_sub(1)?;
    match paths_of(request).get(place) {
        Some(path) => Some(*path),
        None => None,
    }
}

// The paths of the feeds of a request.
fn paths_of<'r, 'w>(request: &'r Request<'w>) -> &'r [&'w str] {
    match request {
        Request::Print { run, .. }
        | Request::Refusals { run }
        | Request::Slice { run, .. }
        | Request::Drill { run, .. }
        | Request::RollUp { run, .. } => run.feeds.as_slice(),
        Request::Live { live } => live.feeds.as_slice(),
        Request::Merge { merge } => merge.cubes.as_slice(),
        Request::Table { table } => table.files.as_slice(),
        _ => &[],
    }
}

// The conditions of a request.
fn conditions_of<'r, 'w>(request: &'r Request<'w>) -> &'r [&'w str] {
    match request {
        Request::Print { run, .. }
        | Request::Slice { run, .. }
        | Request::Drill { run, .. }
        | Request::RollUp { run, .. } => run.conditions.as_slice(),
        Request::Table { table } => table.conditions.as_slice(),
        _ => &[],
    }
}

// The path of the schema of a request.
fn schema_path<'w>(request: &Request<'w>) -> Option<&'w str> {
    match request {
        Request::Check { schema, .. } => Some(*schema),
        Request::Print { run, .. }
        | Request::Refusals { run }
        | Request::Slice { run, .. }
        | Request::Drill { run, .. }
        | Request::RollUp { run, .. } => Some(run.schema),
        Request::Live { live } => Some(live.schema),
        Request::Merge { merge } => Some(merge.schema),
        _ => None,
    }
}

// The schema of a request, whose feeds are read as it says.
fn schema_again(rt: &HostRuntime, request: &Request) -> Option<Schema> {
    let schema = plain_schema_again(rt, request)?;
    let shard = schema.shard();
    let reads = Reads {
        shard,
        max_record: max_record_of(request)?,
        max_cells: max_cells_of(request)?,
    };
    Some(read_so(schema, reads))
}

// The schema of a request, read again; of `table` made again.
fn plain_schema_again(rt: &HostRuntime, request: &Request) -> Option<Schema> {
    if let Request::Table { table } = request {
        return own_schema(rt, table);
    }
    let file = again(rt, schema_path(request)?)?;
    read_schema(rt.alloc(), file).ok()
}

// A file that can be read again: a regular one.
fn again(rt: &HostRuntime, path: &str) -> Option<File> {
    let found = fs::metadata(rt, path_of(path)).ok()?;
    if !found.is_file() {
        return None;
    }
    File::open(rt, path_of(path)).ok()
}

// On which lines records of a file begin, among them the data record with a number, 0 being the header; none where it can't be
// read again.
fn lines_at(rt: &HostRuntime, schema: &Schema, path: &str, number: u64) -> Lines {
    match again(rt, path) {
        Some(file) => lines_of(schema, file, number),
        None => Lines::none(),
    }
}

// Adds what is wrong with the header of a file.
fn put_header(
    rt: &HostRuntime,
    schema: &Schema,
    path: &str,
    report: &mut Report,
) -> Result<(), AllocError> {
    let lines = lines_at(rt, schema, path, 0);
    match again(rt, path) {
        Some(file) => tell_header(rt.alloc(), schema, path, file, &lines, report),
        None => put_kind(path, "", report),
    }
}

// Adds what is wrong with a refused line that is a failure, and with the last record of its file.
fn put_line(
    rt: &HostRuntime,
    schema: &Schema,
    said: &Said,
    path: &str,
    report: &mut Report,
) -> Result<(), AllocError> {
    let alloc = rt.alloc();
    let code = u8::try_from(said.third.unwrap_or(0)).unwrap_or(0);
    match found_at(rt, schema, path, said.second.unwrap_or(0)) {
        Some(line) => {
            tell_record(alloc, schema, path, &line, code, report)?;
            if line.lines.is_unclosed() && !line.is_unclosed() {
                return tell_unclosed(alloc, path, &line.lines, report);
            }
            Ok(())
        }
        None => put_kind(path, "", report),
    }
}

// The data record with a number of a file that can be read again.
fn found_at(rt: &HostRuntime, schema: &Schema, path: &str, number: u64) -> Option<FoundLine> {
    let lines = lines_at(rt, schema, path, number);
    let file = again(rt, path)?;
    find_line(rt.alloc(), schema, file, number, lines).ok()?
}

// Adds how many records the schema takes.
fn put_limit(
    rt: &HostRuntime,
    schema: &Schema,
    path: &str,
    report: &mut Report,
) -> Result<(), AllocError> {
    let number = u64::from(schema.max_records()).saturating_add(1);
    let lines = lines_at(rt, schema, path, number);
    tell_limit(rt.alloc(), schema, path, lines.line, report)
}

// Adds that a quote in the last record of a file is never closed.
fn put_unclosed(
    rt: &HostRuntime,
    schema: &Schema,
    path: &str,
    report: &mut Report,
) -> Result<(), AllocError> {
    let lines = lines_at(rt, schema, path, 0);
    if lines.open == 0 {
        return put_kind(path, "", report);
    }
    tell_unclosed(rt.alloc(), path, &lines, report)
}

// Adds which record of a file is too long, or that a quote in it is never closed.
fn put_long_record(
    rt: &HostRuntime,
    schema: &Schema,
    path: &str,
    number: u64,
    report: &mut Report,
) -> Result<(), AllocError> {
    let lines = lines_at(rt, schema, path, number);
    if lines.open > 0 && lines.records == number {
        return tell_unclosed(rt.alloc(), path, &lines, report);
    }
    tell_long_record(rt.alloc(), schema, path, number, lines.line, report)
}

// The name of the kind of a file, where it is one that isn't read as CSV.
fn kind_at(rt: &HostRuntime, path: &str) -> &'static str {
    if is_folder(rt, path) {
        return "folder";
    }
    let mut begin = [0u8; 4];
    let Some(mut file) = again(rt, path) else {
        return "";
    };
    match file.read(&mut begin) {
        Ok(count) => kind_of(begin.get(..count).unwrap_or(b"")).name(),
        Err(_) => "",
    }
}

// Whether a path is that of a folder.
fn is_folder(rt: &HostRuntime, path: &str) -> bool {
    match fs::metadata(rt, path_of(path)) {
        Ok(found) => found.is_dir(),
        Err(_) => false,
    }
}

// Adds what is wrong with the schema, where that is refused, and what the words are, where one of them is.
fn put_words(
    rt: &HostRuntime,
    request: &Request,
    said: &Said,
    path: &str,
    report: &mut Report,
) -> Result<(), AllocError> {
    if said.is_of_schema() {
        return put_schema(rt, said, path, report);
    }
    if !said.is_of_words() {
        return Ok(());
    }
    let Some(schema) = schema_again(rt, request) else {
        return Ok(());
    };
    if said.code == "P8" {
        return put_conditions(rt, &schema, conditions_of(request), report);
    }
    match request {
        Request::Slice { cell, .. } => put_word(rt.alloc(), &schema, "CELL", cell, report),
        Request::Drill {
            cell,
            dimension,
            ..
        }
        | Request::RollUp {
            cell,
            dimension,
            ..
        } => {
            put_word(rt.alloc(), &schema, "CELL", cell, report)?;
            put_word(rt.alloc(), &schema, "DIM", dimension, report)
        }
        _ => Ok(()),
    }
}

// Adds what is wrong with a schema.
fn put_schema(
    rt: &HostRuntime,
    said: &Said,
    path: &str,
    report: &mut Report,
) -> Result<(), AllocError> {
    if path == "" {
        return Ok(());
    }
    match bytes_at(rt, path) {
        Some(bytes) if said.code != "schema" && said.code != "S1" => {
            tell_schema(rt.alloc(), path, &bytes, said.code, report)
        }
        _ => put_kind(path, "", report),
    }
}

// The bytes of a file that can be read again, as many as a schema may have.
fn bytes_at(rt: &HostRuntime, path: &str) -> Option<Vec<u8>> {
    let file = again(rt, path)?;
    let mut bytes = Vec::new(rt.alloc());
    match file.take(MOST_OF_SCHEMA).read_to_end(&mut bytes) {
        Ok(_) => Some(bytes),
        Err(_) => None,
    }
}

// Adds the conditions that are none.
fn put_conditions(
    rt: &HostRuntime,
    schema: &Schema,
    words: &[&str],
    report: &mut Report,
) -> Result<(), AllocError> {
    for word in words {
        if read_condition(rt.alloc(), schema, word).is_err() {
            put_condition(rt.alloc(), schema, word, report)?;
        }
    }
    Ok(())
}

/// Says that a feed stands twice among those of a request, before one is read.
pub(crate) fn say_repeated(rt: &HostRuntime, request: &Request) {
    let paths = paths_of(request);
    if matches!(request, Request::Merge { .. }) {
        return;
    }
    let mut report = Report::new(rt.alloc());
    let mut source = 0u64;
    for path in paths {
        if stands_before(paths, source, path) {
            let _ = tell_repeated(rt.alloc(), source.saturating_add(1), path, &mut report);
        }
        source = source.saturating_add(1);
    }
    let _ = write_whole(&mut rt.stderr(), report.as_bytes());
}

// Whether a path stands among the first so many.
fn stands_before(paths: &[&str], count: u64, path: &str) -> bool {
    let mut left = count;
    for before in paths {
        if left == 0 {
            return false;
        }
        if *before == path {
            return true;
        }
        left = left.saturating_sub(1);
    }
    false
}

/// Says how many lines were refused, and what is wrong with the first one, where its file can be read again; and of which files
/// the last record has a quote that is never closed.
pub(crate) fn say_refused(rt: &HostRuntime, schema: &Schema, paths: &[&str], fed: &Fed) {
    if let Some(refused) = refused_of(fed.refused()) {
        let _ = put_refused(rt, schema, paths, &refused);
    }
}

// Tells of refused lines.
fn put_refused(
    rt: &HostRuntime,
    schema: &Schema,
    paths: &[&str],
    refused: &Refused,
) -> Result<(), AllocError> {
    let alloc = rt.alloc();
    let walks = walks_of(rt, schema, paths, refused)?;
    let source = (refused.source as usize).saturating_sub(1);
    let path = path_in(paths, source);
    let lines = lines_in(&walks, source);
    let text = match first_line(rt, schema, path, refused, lines)? {
        Some(line) => {
            let records = records_in(rt, schema, paths, &walks);
            refused_line(alloc, schema, refused, records, path, &line)?
        }
        None => refused_unread(alloc, refused, path)?,
    };
    let _ = write_whole(&mut rt.stderr(), &text);
    let mut report = Report::new(alloc);
    report.lines(advice_on(&KIND_ADVICE, kind_at(rt, path)))?;
    let _ = write_whole(&mut rt.stderr(), report.as_bytes());
    let is_told = lines.records == u64::from(refused.first.number);
    say_unclosed(rt, paths, &walks, source, is_told)
}

// On which lines the records of each file begin, among them the first one that was refused.
fn walks_of(
    rt: &HostRuntime,
    schema: &Schema,
    paths: &[&str],
    refused: &Refused,
) -> Result<Vec<Lines>, AllocError> {
    let mut walks = Vec::new(rt.alloc());
    let mut source = 0u32;
    for path in paths {
        source = source.saturating_add(1);
        let number = if source == refused.source {
            u64::from(refused.first.number)
        } else {
            0
        };
        walks.push(lines_at(rt, schema, path, number))?;
    }
    Ok(walks)
}

// The first refused line, read again.
fn first_line(
    rt: &HostRuntime,
    schema: &Schema,
    path: &str,
    refused: &Refused,
    lines: Lines,
) -> Result<Option<FoundLine>, AllocError> {
    match again(rt, path) {
        Some(file) => {
            let number = u64::from(refused.first.number);
            find_line(rt.alloc(), schema, file, number, lines)
        }
        None => Ok(None),
    }
}

// Says of each file but one that was told whether a quote in its last record is never closed.
fn say_unclosed(
    rt: &HostRuntime,
    paths: &[&str],
    walks: &[Lines],
    source: usize,
    is_told: bool,
) -> Result<(), AllocError> {
    let mut place = 0usize;
    for lines in walks {
        if lines.is_unclosed() && !(is_told && place == source) {
            let text = unclosed_line(rt.alloc(), path_in(paths, place), lines)?;
            let _ = write_whole(&mut rt.stderr(), &text);
        }
        place = place.saturating_add(1);
    }
    Ok(())
}

// The path at a place.
fn path_in<'w>(paths: &[&'w str], place: usize) -> &'w str {
    match paths.get(place) {
        Some(path) => *path,
        None => "",
    }
}

// The lines at a place.
fn lines_in(walks: &[Lines], place: usize) -> Lines {
    match walks.get(place) {
        Some(lines) => *lines,
        None => Lines::none(),
    }
}

// How many data records of the shard there are in all files; none where one of them can't be read again.
fn records_in(rt: &HostRuntime, schema: &Schema, paths: &[&str], walks: &[Lines]) -> Option<u64> {
    let mut records = 0u64;
    let mut place = 0usize;
    for path in paths {
        let lines = lines_in(walks, place);
        records = records.saturating_add(records_at(rt, schema, path, &lines)?);
        place = place.saturating_add(1);
    }
    Some(records)
}

// How many data records of the shard there are in a file, where it can be read again.
fn records_at(rt: &HostRuntime, schema: &Schema, path: &str, lines: &Lines) -> Option<u64> {
    if !lines.is_known {
        return None;
    }
    if schema.shard().count == 1 {
        return Some(lines.records);
    }
    own_records(rt.alloc(), schema, again(rt, path)?).ok()
}
