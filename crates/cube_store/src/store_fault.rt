//! Why a store isn't opened, or can't go on.
use crate::fault::OpenFault;
use sqlite_store::OpenError;
use sqlite_trees::error::StoreError;
use std::io::ErrorKind;
use thiserror::Error;

/// Why a call on a store's files fails. The text of each is its code.
#[derive(Clone, Copy, Debug, PartialEq, Eq, Error)]
pub enum CallFault {
    /// A read or a write of the file failed.
    #[error("D6")]
    Failed,
    /// The disk is full, or the file has no room for a row.
    #[error("D7")]
    NoRoom,
    /// A growth was refused.
    #[error("D8")]
    Memory,
}

/// Why two files aren't opened as a store. The text of each is its code.
#[derive(Clone, Copy, Debug, PartialEq, Eq, Error)]
pub enum FileFault {
    /// The file isn't a store, or it is damaged.
    #[error("D3")]
    NotAStore,
    /// A call on the files failed.
    #[error(transparent)]
    Call(CallFault),
}

/// Why a store isn't opened, or can't go on. The text of each is its code.
#[derive(Clone, Copy, Debug, PartialEq, Eq, Error)]
pub enum StoreFault {
    /// Another process has the store open.
    #[error("D1")]
    InUse,
    /// The file can't be opened or made.
    #[error("D2")]
    CantOpen,
    /// The file isn't a store, or it is damaged.
    #[error("D3")]
    NotAStore,
    /// The row in this place isn't a change.
    #[error("D4 {0}")]
    Row(u64),
    /// The digest of the row in this place isn't the one that chains it to those before it.
    #[error("D9 {0}")]
    Digest(u64),
    /// The feed of this source isn't the one that was noted; 0 is the schema's file.
    #[error("D5 {0}")]
    Feed(u64),
    /// A call on the files failed.
    #[error(transparent)]
    Call(CallFault),
}

impl From<StoreError> for CallFault {
    ghost use Rattle.std.specs.Prelude.{◌≡◌};
    ghost use Rattle.cube_store.specs.Codes.{code_of_failure};

    ghost from_gives = { λ error fault. fault ≡ code_of_failure error };

    fn from(error: StoreError) -> CallFault {
        match error {
            StoreError::OutOfMemory => CallFault::Memory,
            StoreError::Io | StoreError::Corrupt | StoreError::Broken => CallFault::Failed,
            StoreError::Full | StoreError::Unstorable => CallFault::NoRoom,
        }
    }
}

impl From<FileFault> for StoreFault {
    ghost use Rattle.std.specs.Prelude.{◌≡◌};
    ghost use Rattle.cube_store.specs.Codes.{code_of_files};

    ghost from_gives = { λ error fault. fault ≡ code_of_files error };

    fn from(fault: FileFault) -> StoreFault {
        match fault {
            FileFault::NotAStore => StoreFault::NotAStore,
            FileFault::Call(fault) => StoreFault::Call(fault),
        }
    }
}

impl From<OpenFault> for StoreFault {
    ghost use Rattle.std.specs.Prelude.{◌≡◌};
    ghost use Rattle.cube_store.specs.Codes.{open_code_of};

    ghost from_gives = { λ error fault. fault ≡ open_code_of error };

    fn from(fault: OpenFault) -> StoreFault {
        match fault {
            OpenFault::Store(error) => StoreFault::Call(CallFault::from(error)),
            OpenFault::NoTables | OpenFault::TooMany => StoreFault::NotAStore,
            OpenFault::Feed(source) => StoreFault::Feed(source),
            OpenFault::Row(number) => StoreFault::Row(number),
            OpenFault::Digest(number) => StoreFault::Digest(number),
        }
    }
}

impl From<OpenError> for FileFault {
    ghost use Rattle.std.specs.Prelude.{◌≡◌};
    ghost use Rattle.cube_store.specs.Codes.{file_code_of};

    ghost from_gives = { λ error fault. fault ≡ file_code_of error };

    fn from(error: OpenError) -> FileFault {
        match error {
            OpenError::OutOfMemory => FileFault::Call(CallFault::Memory),
            OpenError::Io => FileFault::Call(CallFault::Failed),
            OpenError::Full => FileFault::Call(CallFault::NoRoom),
            OpenError::Refused => FileFault::NotAStore,
        }
    }
}

impl From<sqlite_wal::Error> for FileFault {
    ghost use Rattle.std.specs.Prelude.{◌≡◌};
    ghost use Rattle.cube_store.specs.Codes.{look_code_of};

    ghost from_gives = { λ error fault. fault ≡ look_code_of error };

    fn from(error: sqlite_wal::Error) -> FileFault {
        match error {
            sqlite_wal::Error::OutOfMemory => FileFault::Call(CallFault::Memory),
            sqlite_wal::Error::Io(_) => FileFault::Call(CallFault::Failed),
            sqlite_wal::Error::Full => FileFault::Call(CallFault::NoRoom),
            _ => FileFault::NotAStore,
        }
    }
}

impl From<sqlite_std_file::OpenError> for StoreFault {
    fn from(error: sqlite_std_file::OpenError) -> StoreFault {
        match error {
            sqlite_std_file::OpenError::OutOfMemory => StoreFault::Call(CallFault::Memory),
            sqlite_std_file::OpenError::Busy => StoreFault::InUse,
            sqlite_std_file::OpenError::Io(error) if error.kind() == ErrorKind::OutOfMemory =>
                StoreFault::Call(CallFault::Memory),
            _ => StoreFault::CantOpen,
        }
    }
}
