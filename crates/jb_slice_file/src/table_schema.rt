//! Whether a database is one of checkpoints.

ghost use Rattle.std.specs.Prelude.{◌≡◌, ◌↔◌, IsTrue, false, codes, Some, [], ◌∷◌};
ghost use Rattle.sqlite_schema.specs.Names.{same_name};
ghost use Rattle.jb_slice_file.specs.TableSchema.{checkpoint, checkpoint_columns, checkpoint_schema, no_schema, named_checkpoint, strict_column};

use sqlite::types::Value;
use sqlite_schema::names::same_name;
use sqlite_schema::schema::{Column, Kind, Schema, Table};
use sqlite_value::keys::Collation;

fn is_column(column: &Column, name: &[u8], kind: Kind, not_null: bool) -> bool
    ensures { IsTrue result ↔ (column.now ≡ strict_column name.now kind not_null) }
{
    column.name.as_slice() == name
        && column.kind == kind
        && column.is_strict
        && column.not_null == not_null
        && matches!(column.default, Value::Null)
        && column.collation == Collation::Binary
}

fn has_our_columns(columns: &[Column]) -> bool
    ensures { IsTrue result ↔ (columns.now ≡ checkpoint_columns) }
{
    let [number, saved, results, link] = columns else {
        return false;
    };
    is_column(number, b"number", Kind::Integer, false)
        && is_column(saved, b"saved", Kind::Text, true)
        && is_column(results, b"results", Kind::Blob, true)
        && is_column(link, b"link", Kind::Blob, true)
}

/// The first column is the key, and it is the only key.
fn has_our_key(table: &Table) -> bool
    ensures { IsTrue result ↔ ((table.now.key ≡ Some 0) × (table.now.primary ≡ 0 ∷ []) × (table.now.uniques ≡ []) × (table.now.orders ≡ [])) }
{
    table.key == Some(0)
        && table.primary.as_slice() == [0].as_slice()
        && table.uniques.is_empty()
        && table.orders.is_empty()
}

/// No check, no reference, no default that isn't a literal, and no AUTOINCREMENT.
fn has_no_rules(table: &Table) -> bool
    ensures { IsTrue result ↔ ((table.now.checks ≡ []) × (table.now.references ≡ []) × (table.now.computed ≡ []) × (table.now.stamps ≡ record { places = []; terms = []; formats = [] }) × (table.now.is_counted ≡ false)) }
{
    table.checks.roots.is_empty()
        && table.references.is_empty()
        && table.computed.is_empty()
        && table.stamps.places.is_empty()
        && table.stamps.terms.roots.is_empty()
        && table.stamps.formats.is_empty()
        && !table.is_counted
}

fn is_checkpoint_table(table: &Table) -> bool
    ensures { IsTrue result ↔ (table.now ≡ checkpoint) }
{
    table.name.as_slice() == b"checkpoint".as_slice()
        && table.tree == 0
        && has_our_columns(table.columns.as_slice())
        && has_our_key(table)
        && has_no_rules(table)
}

/// The table of checkpoints, and nothing else.
pub fn is_ours(schema: &Schema) -> bool
    ensures { IsTrue result ↔ (schema.now ≡ checkpoint_schema) }
{
    let [table] = schema.tables.as_slice() else {
        return false;
    };
    is_checkpoint_table(table) && schema.indexes.is_empty() && schema.views.is_empty()
}

/// Nothing is defined yet.
pub fn is_blank(schema: &Schema) -> bool
    ensures { IsTrue result ↔ (schema.now ≡ no_schema) }
{
    schema.tables.is_empty() && schema.indexes.is_empty() && schema.views.is_empty()
}

/// It has a table named as ours.
pub fn names_checkpoint(schema: &Schema) -> bool
    ensures { result ≡ named_checkpoint schema.now }
{
    schema.tables.as_slice().iter().any(
        |table: &Table| -> bool
            ensures { result ≡ same_name table.now.name (codes "checkpoint") }
        { same_name(table.name.as_slice(), b"checkpoint") },
    )
}
