//! The two forms of a table of changes, and the digests that chain its rows.
ghost use Rattle.std.specs.Prelude.{◌≡◌};
ghost use Rattle.cube_store.specs.Rows.{next_digest};
ghost use Rattle.cube_store.specs.State.{form_in};

use crate::journal::CHANGES;
use sha2::{Digest, Sha256};
use sqlite_trees::store::Store;

/// What the row of a change ends in.
#[derive(Clone, Copy, Debug, PartialEq, Eq)]
pub enum RowForm {
    /// The record: a table of three columns.
    Plain,
    /// A digest behind the record, which chains the row to those before it: a table of four
    /// columns.
    Chained,
}

/// What the table of changes with digests has in `reals`: the bit of a column that no row has, so
/// that no value is read or written otherwise for it. It isn't in the file: a store's schema has
/// it, and so an open store tells its form.
pub const CHAINED: u64 = 1 << 63;

/// The bytes of a SHA-256.
pub(crate) const DIGEST_BYTES: usize = 32;

/// What the first row of a table is chained to.
pub(crate) const NO_DIGEST: [u8; DIGEST_BYTES] = [0; DIGEST_BYTES];

/// The form of a store's table of changes.
pub fn form_of<S: Store>(store: &S) -> RowForm
    ensures { result ≡ form_in (S.Store.view store.now) }
{
    if store.reals(CHANGES) == CHAINED {
        RowForm::Chained
    } else {
        RowForm::Plain
    }
}

/// The digest of the row of a change with this number, behind a row with that digest. Without
/// digests it stays.
pub(crate) fn digest_after(
    form: RowForm,
    before: &[u8; DIGEST_BYTES],
    number: u64,
    source: u32,
    content: &[u8],
) -> [u8; DIGEST_BYTES]
    ensures { result ≡ next_digest form before.now number (source, content.now) }
{
    match form {
        RowForm::Plain => *before,
        RowForm::Chained => {
            let mut hasher = Sha256::new();
            hasher.update(before.as_slice());
            hasher.update(number.to_be_bytes().as_slice());
            hasher.update(u64::from(source).to_be_bytes().as_slice());
            hasher.update(content);
            hasher.finalize()
        }
    }
}
