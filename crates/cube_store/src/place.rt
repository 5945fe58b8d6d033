//! What stands at a store's path, and beside it, before its files are opened.
use crate::store_fault::{CallFault, StoreFault};
use std::fs::{self, File, Metadata, OpenOptions, Permissions};
use std::io::{ErrorKind, Read};
use std::os::unix::fs::{MetadataExt, OpenOptionsExt, PermissionsExt};

/// What each database of SQLite begins with.
const HEADER: [u8; 16] = *b"SQLite format 3\0";

/// The bits of a file's mode that say who may read, write and run it.
const RIGHTS: u32 = 0o777;

/// A log of so many bytes has no frame.
const MAX_EMPTY_LOG: u64 = 55;

/// The log beside a store, and whether it stood there before the store was opened.
#[derive(Drop)]
pub struct LogPlace {
    path: String,
    was_there: bool,
}

impl LogPlace {
    /// Takes a log without a frame away again that the opening of files made which are no store.
    /// The files have to be open still, so that no other process has them.
    pub fn forget(&self, rt: &HostRuntime) {
        if self.was_there {
            return;
        }
        if let Ok(found) = fs::metadata(rt, self.path.as_str())
            && found.len() <= MAX_EMPTY_LOG
        {
            let _removed = fs::remove_file(rt, self.path.as_str());
        }
    }
}

/// Looks at what stands at a path before a store is opened there. Where nothing does and `makes`
/// holds, an empty file is made that only its owner may read and write; and a log that stands
/// beside the file gets the file's rights.
///
/// A file that isn't empty, doesn't begin as each database of SQLite does and has no log beside it
/// isn't a store, and nothing is made beside it. Without `makes` an empty file isn't one either.
pub fn prepare_path(rt: &HostRuntime, path: &str, makes: bool) -> Result<LogPlace, StoreFault> {
    if makes {
        make_private(rt, path)?;
    }
    let Ok(real) = fs::canonicalize(rt, path) else {
        return Err(StoreFault::CantOpen);
    };
    let Ok(found) = fs::metadata(rt, real.as_str()) else {
        return Err(StoreFault::CantOpen);
    };
    let Ok(log) = format!(in rt.alloc(); "{}-wal", real.as_str()) else {
        return Err(StoreFault::Call(CallFault::Memory));
    };
    if !found.is_file() {
        return Err(StoreFault::CantOpen);
    }
    let beside = fs::symlink_metadata(rt, log.as_str());
    let has_bytes = matches!(&beside, Ok(log) if log.len() > 0);
    if !may_be_store(rt, real.as_str(), found.len(), makes, has_bytes)? {
        return Err(StoreFault::NotAStore);
    }
    if beside.is_ok() {
        give_rights(rt, log.as_str(), &found)?;
    }
    Ok(LogPlace {
        path: log,
        was_there: beside.is_ok(),
    })
}

// Makes an empty file that only its owner may read and write, where nothing stands at the path.
fn make_private(rt: &HostRuntime, path: &str) -> Result<(), StoreFault> {
    match OpenOptions::new()
        .write(true)
        .create_new(true)
        .mode(0o600)
        .open(rt, path)
    {
        Ok(_made) => Ok(()),
        Err(error) if error.kind() == ErrorKind::AlreadyExists => Ok(()),
        Err(_) => Err(StoreFault::CantOpen),
    }
}

// Whether a file of this length may be a store's, or be made one, by how it begins and by whether
// its log has a byte.
fn may_be_store(
    rt: &HostRuntime,
    path: &str,
    length: u64,
    makes: bool,
    has_log: bool,
) -> Result<bool, StoreFault> {
    if length == 0 {
        return Ok(makes);
    }
    if has_log {
        return Ok(true);
    }
    has_header(rt, path)
}

// Whether a file begins as each database of SQLite does.
fn has_header(rt: &HostRuntime, path: &str) -> Result<bool, StoreFault> {
    let Ok(mut file) = File::open(rt, path) else {
        return Err(StoreFault::CantOpen);
    };
    let mut head = [0; 16];
    match file.read_exact(&mut head) {
        Ok(()) => Ok(head == HEADER),
        Err(error) if error.kind() == ErrorKind::UnexpectedEof => Ok(false),
        Err(_) => Err(StoreFault::CantOpen),
    }
}

// Gives a log the rights of the file that it stands beside. A link isn't followed.
fn give_rights(rt: &HostRuntime, log: &str, file: &Metadata) -> Result<(), StoreFault> {
    let rights = file.mode() & RIGHTS;
    let Ok(beside) = File::open(rt, log) else {
        return Err(StoreFault::CantOpen);
    };
    let (Ok(found), Ok(named)) = (beside.metadata(), fs::symlink_metadata(rt, log)) else {
        return Err(StoreFault::CantOpen);
    };
    if !found.is_file() || found.dev() != named.dev() || found.ino() != named.ino() {
        return Err(StoreFault::CantOpen);
    }
    if found.mode() & RIGHTS == rights {
        return Ok(());
    }
    match beside.set_permissions(Permissions::from_mode(rights)) {
        Ok(()) => Ok(()),
        Err(_) => Err(StoreFault::CantOpen),
    }
}
