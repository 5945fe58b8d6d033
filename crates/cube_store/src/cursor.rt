//! The rows of a table, one after another.
ghost use Rattle.std.specs.Prelude.{◌≡◌, false, IsSome, IfOk, IfErr, OnOk};
ghost use Rattle.cube_store.specs.Reading.{StandsBeforeFirst, Passes};
ghost use Rattle.cube_store.specs.Calls.{IsHonest, Shown, IsQuietCall, HasTable, CantRead};

use sqlite_trees::error::StoreError;
use sqlite_trees::store::{Direction, Shape, Store};
use sqlite_value::row::Row;

/// Places the cursor before the first row of a table.
pub fn begin<S: Store>(store: &mut S, row: &mut Row, tree: u32) -> Result<(), StoreError>
    requires { HasTable S.Store store.old tree }
    ensures ok { OnOk result (Shown S.Store store.old store.new
        (λ old new. StandsBeforeFirst old new tree)) }
    ensures live { OnOk result (IsSome ((S.Store.view store.new).cursors 0)) }
    ensures sound { OnOk result (IsHonest S.Store store.new
        → (S.Store.view store.old).is_broken ≡ false) }
    ensures cause { IsHonest S.Store store.new
        → IfErr result (CantRead S.Store store.old store.new) }
    ensures quiet { IsQuietCall S.Store store.old store.new }
{
    row.clear();
    store.seek(0, tree, row, Direction::Forward)
}

/// Writes the next row over `row`, or answers false at the end.
pub fn step<S: Store>(store: &mut S, row: &mut Row) -> Result<bool, StoreError>
    requires { IsSome ((S.Store.view store.old).cursors 0) }
    ensures ok { IfOk result (λ found. Shown S.Store store.old store.new
        (λ old new. Passes old new row.new found)) }
    ensures live { OnOk result (IsSome ((S.Store.view store.new).cursors 0)) }
    ensures cause { IsHonest S.Store store.new
        → IfErr result (CantRead S.Store store.old store.new) }
    ensures quiet { IsQuietCall S.Store store.old store.new }
{
    store.next(0, row)
}
