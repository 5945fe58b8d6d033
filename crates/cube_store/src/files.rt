//! A store's two files.
ghost use Rattle.std.specs.Prelude.{◌≡◌, ◌↔◌, true, false, length, IsTrue, IfOk, IfErr};
ghost use Rattle.sqlite_wal.specs.PageSize.{bytes_of};
ghost use Rattle.sqlite_wal.specs.Reads.{OnlyReads};
ghost use Rattle.sqlite_pool.specs.Opening.{IsBlankFile};
ghost use Rattle.sqlite_trees.specs.View.{IsClean};
ghost use Rattle.sqlite_store.specs.FileStore.{view};
ghost use Rattle.sqlite_store.specs.Unopened.{state_of, wanted_by, files_of, image, AreUsable};
ghost use Rattle.sqlite_std_file.specs.File.{file_is_usable, IsFresh};
ghost use Rattle.cube_store.specs.State.{stored_form, IsUnmade};
ghost use Rattle.cube_store.specs.Codes.{FailsByCall};
ghost use Rattle.cube_store.specs.Found.{store_schema, StoreOf, StoreIn, HasLooked, IsFoundAs};
ghost use Rattle.cube_store.specs.Found.{BeginsMaking, IsBegunIfBlank, HasNoTable, HoldsNothing};
ghost use Rattle.cube_store.specs.Found.{IsFound, IsFoundMade, seen_in, AreHonest, AreBothUsable};

use crate::form::RowForm;
use crate::store_fault::{CallFault, FileFault, StoreFault};
use crate::tables::{form_told, schema};
use sqlite_disk::{Disk, Files, Start};
use sqlite_pager::{Options, Pager};
use sqlite_pool::probe_blank;
use sqlite_std_file::FileFrom;
use sqlite_store::{FileStore, Unopened};
use sqlite_wal::{PageSize, probe_first_page};
use std::alloc::Global;

const PAGE_BYTES: usize = 4096;

/// The bytes 5 to 16 of the log that a making begins: the format's version, the page size and a
/// count of checkpoints that no other log has.
const MAKING_MARK: [u8; 12] = [0, 45, 226, 24, 0, 0, 16, 0, 255, 255, 255, 255];

/// The page size of a store.
pub(crate) fn page_size() -> PageSize
    ensures { bytes_of result ≡ 4096 }
{
    PageSize::new(PAGE_BYTES).unwrap()
}

/// Opens the two files at a path, and makes those that are missing. No other process can open them
/// until they are closed.
///
/// `Unknown` supposes that a torn write leaves each byte old or new; `Wary` supposes nothing, and
/// syncs twice a commit.
pub fn open_path<S: Start>(
    rt: &HostRuntime,
    path: &str,
    start: S,
) -> Result<Files<FileFrom<S>>, StoreFault>
    ensures log { IfOk result (λ files. IsTrue (file_is_usable S.Start files.log)) }
    ensures db { IfOk result (λ files. IsTrue (file_is_usable S.Start files.db)) }
    ensures fresh { IfOk result (λ files. IsFresh true files.log × IsFresh false files.db) }
{
    match sqlite_std_file::open(rt, path, start) {
        Ok(files) => Ok(files),
        Err(error) => Err(StoreFault::from(error)),
    }
}

/// Whether the files hold no database: none was made, or only the first bytes of one, as any single
/// byte counts.
fn hold_none<D: Disk>(alloc: Global, files: &mut Files<D>) -> Result<bool, FileFault>
    requires log { IsTrue (D.Disk.is_usable files.old.log) }
    requires db { IsTrue (D.Disk.is_usable files.old.db) }
    ensures ok { IfOk result (λ none. AreHonest D.Disk files.new
        → (IsTrue none ↔ IsBlankFile 4096 (seen_in D.Disk files.old))) }
    ensures cause { IfErr result (λ e. AreHonest D.Disk files.new → FailsByCall e) }
    ensures log { OnlyReads D.Disk files.old.log files.new.log }
    ensures db { OnlyReads D.Disk files.old.db files.new.db }
{
    match probe_blank(alloc, files, page_size(), false) {
        Ok(none) => Ok(none),
        Err(error) => Err(FileFault::from(error)),
    }
}

/// Whether the file is empty.
fn is_empty<D: Disk>(db: &mut D) -> Result<bool, CallFault>
    requires { IsTrue (D.Disk.is_usable db.old) }
    ensures ok { IfOk result (λ empty. IsTrue (D.Disk.is_clean db.new)
        → IsTrue empty → length (D.Disk.seen db.old) ≡ 0) }
    ensures same { OnlyReads D.Disk db.old db.new }
{
    match db.len() {
        Ok(length) => Ok(length == 0),
        Err(_) => Err(CallFault::Failed),
    }
}

/// Whether the log begins as a making's does.
fn begins_making<D: Disk>(log: &mut D) -> Result<bool, CallFault>
    requires { IsTrue (D.Disk.is_usable log.old) }
    ensures ok { IfOk result (λ begins. IsTrue (D.Disk.is_clean log.new)
        → IsTrue begins → BeginsMaking (D.Disk.seen log.old)) }
    ensures same { OnlyReads D.Disk log.old log.new }
{
    let Ok(length) = log.len() else {
        return Err(CallFault::Failed);
    };
    if length < 16 {
        return Ok(false);
    }
    let mut mark = [0; 12];
    match log.read_at(4, &mut mark) {
        Ok(()) => Ok(mark == MAKING_MARK),
        Err(_) => Err(CallFault::Failed),
    }
}

/// Whether the file is empty, or the log beside it begins as a making's does.
fn were_begun<D: Disk>(files: &mut Files<D>) -> Result<bool, CallFault>
    requires log { IsTrue (D.Disk.is_usable files.old.log) }
    requires db { IsTrue (D.Disk.is_usable files.old.db) }
    ensures ok { IfOk result (λ begun. AreHonest D.Disk files.new
        → IsTrue begun → IsBegunIfBlank (seen_in D.Disk files.old)) }
    ensures log { OnlyReads D.Disk files.old.log files.new.log }
    ensures db { OnlyReads D.Disk files.old.db files.new.db }
{
    if is_empty(&mut files.db)? {
        return Ok(true);
    }
    begins_making(&mut files.log)
}

/// Whether the files begin as each database of SQLite does. Recovery would write to others.
fn begin_well<D: Disk>(alloc: Global, files: &mut Files<D>) -> Result<bool, FileFault>
    requires log { IsTrue (D.Disk.is_usable files.old.log) }
    requires db { IsTrue (D.Disk.is_usable files.old.db) }
    ensures ok { IfOk result (λ well. AreHonest D.Disk files.new
        → StoreIn (seen_in D.Disk files.old) → IsTrue well) }
    ensures cause { IfErr result (λ e. AreHonest D.Disk files.new
        → StoreIn (seen_in D.Disk files.old) → FailsByCall e) }
    ensures log { OnlyReads D.Disk files.old.log files.new.log }
    ensures db { OnlyReads D.Disk files.old.db files.new.db }
{
    match probe_first_page(alloc, files, page_size()) {
        Ok(head) => Ok(head.0 == b'S'),
        Err(error) => Err(FileFault::from(error)),
    }
}

/// The files with the schema of a store in this form, of which nothing is known yet. It gives them
/// back where memory runs out.
fn unopened<D: Disk>(
    alloc: Global,
    files: Files<D>,
    options: Options,
    form: RowForm,
) -> Result<Unopened<D>, Files<D>>
    ensures files { IfOk result (λ it. files_of it ≡ (files.log, files.db)) }
    ensures size { IfOk result (λ it. (state_of it).page_size ≡ 4096) }
    ensures schema { IfOk result (λ it. wanted_by it ≡ store_schema form) }
    ensures back_log { IfErr result (λ left. left.log ≡ files.log) }
    ensures back_db { IfErr result (λ left. left.db ≡ files.db) }
{
    let pager = match Pager::new(alloc, files, page_size(), options) {
        Ok(pager) => pager,
        Err(failed) => return Err(failed.value),
    };
    match Unopened::new(alloc, pager, &schema(form)) {
        Ok(it) => Ok(it),
        Err(failed) => Err(failed.value.close()),
    }
}

/// Makes the two tables in files that hold nothing, or no more than a making that was cut short
/// leaves: that of changes has digests.
fn make_tables<D: Disk>(fresh: Unopened<D>) -> Result<FileStore<D>, (FileFault, Files<D>)>
    requires usable { AreUsable fresh }
    requires size { (state_of fresh).page_size ≡ 4096 }
    requires schema { wanted_by fresh ≡ store_schema RowForm.Chained }
    ensures made { IfOk result (λ it. IsClean (view it) → IsUnmade (view it)) }
    ensures form { IfOk result (λ it. stored_form (view it) ≡ RowForm.Chained) }
    ensures started { IfOk result (λ it. IsClean (view it) → ∥ HoldsNothing (image fresh) ∥₁) }
    ensures honest { IfOk result (λ it. IsClean (view it) → IsTrue (state_of fresh).is_clean) }
    ensures falls { IfErr result (λ e. AreHonest D.Disk e.1 → IsTrue (state_of fresh).is_clean) }
{
    match fresh.create() {
        Ok(store) => Ok(store),
        Err((error, left)) => Err((FileFault::from(error), left.close())),
    }
}

/// Makes the two tables, as `make_tables` does.
fn finish<D: Disk>(
    alloc: Global,
    files: Files<D>,
    options: Options,
) -> Result<FileStore<D>, (FileFault, Files<D>)>
    requires log { IsTrue (D.Disk.is_usable files.log) }
    requires db { IsTrue (D.Disk.is_usable files.db) }
    ensures made { IfOk result (λ it. IsClean (view it) → IsUnmade (view it)) }
    ensures form { IfOk result (λ it. stored_form (view it) ≡ RowForm.Chained) }
    ensures started { IfOk result (λ it. IsClean (view it)
        → ∥ HoldsNothing (seen_in D.Disk files) ∥₁) }
    ensures honest { IfOk result (λ it. IsClean (view it) → AreHonest D.Disk files) }
    ensures falls { IfErr result (λ e. AreHonest D.Disk e.1 → AreHonest D.Disk files) }
{
    match unopened(alloc, files, options, RowForm::Chained) {
        Ok(fresh) => make_tables(fresh),
        Err(left) => Err((FileFault::Call(CallFault::Memory), left)),
    }
}

/// Opens the store in this form that the files hold: recovers them, and checks each page.
fn open_store<D: Disk>(
    alloc: Global,
    files: Files<D>,
    options: Options,
    form: RowForm,
) -> Result<FileStore<D>, (FileFault, Files<D>)>
    requires log { IsTrue (D.Disk.is_usable files.log) }
    requires db { IsTrue (D.Disk.is_usable files.db) }
    ensures found { IfOk result (λ it. IsClean (view it)
        → IsFoundAs form (seen_in D.Disk files) (view it)) }
    ensures honest { IfOk result (λ it. IsClean (view it) → AreHonest D.Disk files) }
    ensures falls { IfErr result (λ e. AreHonest D.Disk e.1 → AreHonest D.Disk files) }
    ensures accepts { IfErr result (λ e. AreHonest D.Disk e.1
        → StoreOf form (seen_in D.Disk files) → FailsByCall e.0) }
{
    let fresh = match unopened(alloc, files, options, form) {
        Ok(fresh) => fresh,
        Err(left) => return Err((FileFault::Call(CallFault::Memory), left)),
    };
    match fresh.open() {
        Ok(store) => Ok(store),
        Err((error, left)) => Err((FileFault::from(error), left.close())),
    }
}

/// What the files list, as `look` says, and the files. Recovery is all that is written.
fn read_form<D: Disk>(
    mut fresh: Unopened<D>,
) -> Result<(Option<RowForm>, Files<D>), (FileFault, Files<D>)>
    requires usable { AreUsable fresh }
    requires size { (state_of fresh).page_size ≡ 4096 }
    ensures seen { IfOk result (λ r. AreHonest D.Disk r.1
        → HasLooked (image fresh) (seen_in D.Disk r.1) r.0) }
    ensures usable { IfOk result (λ r. AreBothUsable D.Disk r.1) }
    ensures honest { IfOk result (λ r. AreHonest D.Disk r.1 → IsTrue (state_of fresh).is_clean) }
    ensures accepts { IfErr result (λ e. AreHonest D.Disk e.1
        → StoreIn (image fresh) → FailsByCall e.0) }
{
    match fresh.read_catalog() {
        Ok(rows) => Ok((form_told(&rows), fresh.close())),
        Err(error) => Err((FileFault::from(error), fresh.close())),
    }
}

/// In which form the files list the table of changes, or that they list nothing, where they recover
/// to a database; nothing but its recovery is written.
fn look<D: Disk>(
    alloc: Global,
    mut files: Files<D>,
    options: Options,
) -> Result<(Option<RowForm>, Files<D>), (FileFault, Files<D>)>
    requires log { IsTrue (D.Disk.is_usable files.log) }
    requires db { IsTrue (D.Disk.is_usable files.db) }
    ensures seen { IfOk result (λ r. AreHonest D.Disk r.1
        → HasLooked (seen_in D.Disk files) (seen_in D.Disk r.1) r.0) }
    ensures usable { IfOk result (λ r. AreBothUsable D.Disk r.1) }
    ensures honest { IfOk result (λ r. AreHonest D.Disk r.1 → AreHonest D.Disk files) }
    ensures accepts { IfErr result (λ e. AreHonest D.Disk e.1
        → StoreIn (seen_in D.Disk files) → FailsByCall e.0) }
{
    match begin_well(alloc, &mut files) {
        Ok(true) => {}
        Ok(false) => return Err((FileFault::NotAStore, files)),
        Err(fault) => return Err((fault, files)),
    }
    match unopened(alloc, files, options, RowForm::Chained) {
        Ok(fresh) => read_form(fresh),
        Err(left) => Err((FileFault::Call(CallFault::Memory), left)),
    }
}

/// Makes the tables in a database that has none.
fn finish_first_page<D: Disk>(
    alloc: Global,
    mut files: Files<D>,
    options: Options,
) -> Result<FileStore<D>, (FileFault, Files<D>)>
    requires log { IsTrue (D.Disk.is_usable files.log) }
    requires db { IsTrue (D.Disk.is_usable files.db) }
    ensures made { IfOk result (λ it. IsClean (view it) → IsUnmade (view it)) }
    ensures form { IfOk result (λ it. stored_form (view it) ≡ RowForm.Chained) }
    ensures started { IfOk result (λ it. IsClean (view it)
        → ∥ HasNoTable (seen_in D.Disk files) ∥₁) }
    ensures honest { IfOk result (λ it. IsClean (view it) → AreHonest D.Disk files) }
    ensures falls { IfErr result (λ e. AreHonest D.Disk e.1 → AreHonest D.Disk files) }
{
    match hold_none(alloc, &mut files) {
        Ok(true) => Err((FileFault::NotAStore, files)),
        Ok(false) => finish(alloc, files, options),
        Err(fault) => Err((fault, files)),
    }
}

/// Makes the tables in files that hold no database, unless they are other bytes than a making's
/// first ones.
fn finish_begun<D: Disk>(
    alloc: Global,
    mut files: Files<D>,
    options: Options,
) -> Result<FileStore<D>, (FileFault, Files<D>)>
    requires log { IsTrue (D.Disk.is_usable files.log) }
    requires db { IsTrue (D.Disk.is_usable files.db) }
    ensures made { IfOk result (λ it. IsClean (view it) → IsUnmade (view it)) }
    ensures form { IfOk result (λ it. stored_form (view it) ≡ RowForm.Chained) }
    ensures begun { IfOk result (λ it. IsClean (view it) → IsBegunIfBlank (seen_in D.Disk files)) }
    ensures honest { IfOk result (λ it. IsClean (view it) → AreHonest D.Disk files) }
    ensures falls { IfErr result (λ e. AreHonest D.Disk e.1 → AreHonest D.Disk files) }
{
    match were_begun(&mut files) {
        Ok(true) => finish(alloc, files, options),
        Ok(false) => Err((FileFault::NotAStore, files)),
        Err(fault) => Err((FileFault::Call(fault), files)),
    }
}

/// Opens the store in files that hold something, or makes the tables in a database that has none.
fn open_held<D: Disk>(
    alloc: Global,
    files: Files<D>,
    options: Options,
) -> Result<FileStore<D>, (FileFault, Files<D>)>
    requires log { IsTrue (D.Disk.is_usable files.log) }
    requires db { IsTrue (D.Disk.is_usable files.db) }
    ensures found { IfOk result (λ it. IsClean (view it)
        → IsFound (seen_in D.Disk files) (view it)) }
    ensures accepts { IfErr result (λ e. AreHonest D.Disk e.1
        → StoreIn (seen_in D.Disk files) → FailsByCall e.0) }
{
    match look(alloc, files, options) {
        Ok((None, files)) => finish_first_page(alloc, files, options),
        Ok((Some(form), files)) => open_store(alloc, files, options, form),
        Err(refused) => Err(refused),
    }
}

/// Opens the store that two files hold, or makes its two tables where the file is empty or has what
/// a making that was cut short leaves: the first bytes of a database's first page, beside a log
/// that begins as a making's does, or that page whole, as a sound database without a table. `seed`
/// is a random number.
///
/// A new table of changes has digests; one without, as stores up to release 1.11 have it, is opened
/// as it is. Files that recover to sound pages of these two tables, with no other table or index,
/// are refused only where a call fails. An error gives the files back.
pub fn open_files<D: Disk>(
    alloc: Global,
    mut files: Files<D>,
    seed: u64,
) -> Result<FileStore<D>, (FileFault, Files<D>)>
    requires log { IsTrue (D.Disk.is_usable files.log) }
    requires db { IsTrue (D.Disk.is_usable files.db) }
    ensures found { IfOk result (λ it. IsClean (view it)
        → IsFound (seen_in D.Disk files) (view it)) }
    ensures accepts { IfErr result (λ e. AreHonest D.Disk e.1
        → StoreIn (seen_in D.Disk files) → FailsByCall e.0) }
{
    let options = Options::new(seed);
    match hold_none(alloc, &mut files) {
        Ok(true) => finish_begun(alloc, files, options),
        Ok(false) => open_held(alloc, files, options),
        Err(fault) => Err((fault, files)),
    }
}

/// Opens the store that two files hold, and makes none: what a making that was cut short leaves is
/// refused too. `seed` is a random number.
///
/// A table of changes with digests is opened, and one without. Files that recover to sound pages of
/// these two tables, with no other table or index, are refused only where a call fails. An error
/// gives the files back.
pub fn open_made_files<D: Disk>(
    alloc: Global,
    files: Files<D>,
    seed: u64,
) -> Result<FileStore<D>, (FileFault, Files<D>)>
    requires log { IsTrue (D.Disk.is_usable files.log) }
    requires db { IsTrue (D.Disk.is_usable files.db) }
    ensures found { IfOk result (λ it. IsClean (view it)
        → IsFoundMade (seen_in D.Disk files) (view it)) }
    ensures accepts { IfErr result (λ e. AreHonest D.Disk e.1
        → StoreIn (seen_in D.Disk files) → FailsByCall e.0) }
{
    let options = Options::new(seed);
    match look(alloc, files, options) {
        Ok((Some(form), left)) => open_store(alloc, left, options, form),
        Ok((None, left)) => Err((FileFault::NotAStore, left)),
        Err(refused) => Err(refused),
    }
}
