//! The two tables of a store, and which of its two forms that of changes has.
ghost use Rattle.std.specs.Prelude.{◌≡◌, map};
ghost use Rattle.sqlite_value.specs.declared.value.Value.TheVariants.{Text};
ghost use Rattle.sqlite_value.specs.Value.{owned};
ghost use Rattle.sqlite_store.specs.Catalog.{wanted_of, describes, same_value};
ghost use Rattle.cube_store.specs.Found.{changes_table, feeds_table, store_schema, list_digests};
ghost use Rattle.cube_store.specs.Found.{listed_form, form_told};

use crate::form::{CHAINED, RowForm};
use sqlite_trees::schema::Object;
use sqlite_trees::store::Shape;
use sqlite_value::order::compare;
use sqlite_value::row::Row;
use sqlite_value::value::ValueRef;

/// The text of the table of changes whose rows have no digests: stores up to release 1.11 have it.
const PLAIN_TEXT: &str =
    "CREATE TABLE changes(number INTEGER PRIMARY KEY, source INTEGER NOT NULL, \
     record BLOB NOT NULL) STRICT";

/// The text of the one whose rows have digests.
const CHAINED_TEXT: &str =
    "CREATE TABLE changes(number INTEGER PRIMARY KEY, source INTEGER NOT NULL, \
     record BLOB NOT NULL, digest BLOB NOT NULL) STRICT";

/// The table of changes.
fn changes(form: RowForm) -> Object<'static>
    ensures { wanted_of result ≡ changes_table form }
{
    match form {
        RowForm::Plain => Object {
            shape: Shape::Table,
            kind: "table",
            name: "changes",
            table: "changes",
            reals: 0,
            sql: Some(PLAIN_TEXT),
        },
        RowForm::Chained => Object {
            shape: Shape::Table,
            kind: "table",
            name: "changes",
            table: "changes",
            reals: CHAINED,
            sql: Some(CHAINED_TEXT),
        },
    }
}

/// The table of the notes on feeds.
fn feeds() -> Object<'static>
    ensures { wanted_of result ≡ feeds_table }
{
    Object {
        shape: Shape::Table,
        kind: "table",
        name: "feeds",
        table: "feeds",
        reals: 0,
        sql: Some(
            "CREATE TABLE feeds(source INTEGER PRIMARY KEY, length INTEGER NOT NULL, \
             digest BLOB NOT NULL) STRICT",
        ),
    }
}

/// The schema of a store.
pub fn schema(form: RowForm) -> [Object<'static>; 2]
    ensures { map wanted_of result ≡ store_schema form }
{
    [changes(form), feeds()]
}

/// The form of the table of changes in a file, by the rows of its list of tables; or that these
/// list nothing.
pub fn form_told(rows: &[Row]) -> Option<RowForm>
    ensures { result ≡ form_told rows.now }
{
    if rows.is_empty() {
        None
    } else {
        Some(listed_form(rows))
    }
}

/// The form of the table of changes in a file, by the rows of its list of tables.
fn listed_form(rows: &[Row]) -> RowForm
    ensures { result ≡ listed_form rows.now }
{
    if list_digests(rows) {
        RowForm::Chained
    } else {
        RowForm::Plain
    }
}

/// Whether one of these rows is that of the table of changes with digests.
fn list_digests(rows: &[Row]) -> bool
    ensures { result ≡ list_digests rows.now }
{
    rows.iter().any(|row| lists_digests(row))
}

/// Whether a row of the list of tables is that of the table of changes with digests.
fn lists_digests(row: &Row) -> bool
    ensures { result ≡ describes (changes_table RowForm.Chained) row.now }
{
    is_text(row.get(1), "table")
        & is_text(row.get(2), "changes")
        & is_text(row.get(3), "changes")
        & is_text(row.get(5), CHAINED_TEXT)
}

/// Whether a value is this text.
fn is_text(value: ValueRef<'_>, text: &str) -> bool
    ensures { result ≡ same_value (owned value.entry) (Text text.now) }
{
    compare(value, ValueRef::Text(text.as_bytes())).is_eq()
}
