//! Writing saved rows: the saved object, and the text of its bytes.

ghost use Rattle.std.specs.Prelude.{◌≡◌, ◌++◌, Some, flat_map, map, decimal, IfOk, OnOk, string_bytes};
ghost use Rattle.std.specs.Str.{IsUtf8};
ghost use Rattle.json.specs.Token.{number};
ghost use Rattle.jb_saved.specs.SavedTree.{row_tree, rows_tree, saved_tree, tokens_of};

use crate::form::VERSION;
use jb_rules::Row;
use json::Writer;
use std::alloc::AllocError;

fn write_numbers(out: &mut Writer, numbers: &[u64]) -> Result<(), AllocError>
    ensures numbers { OnOk result (out.new.tokens ≡ out.old.tokens ++ map (λ n. number (decimal n)) numbers.now) }
    ensures before { out.new.before ≡ out.old.before }
{
    for n in numbers {
        out.u64(*n)?;
    }
    Ok(())
}

fn write_row(out: &mut Writer, row: &Row) -> Result<(), AllocError>
    ensures row { OnOk result (out.new.tokens ≡ out.old.tokens ++ tokens_of (row_tree row.now)) }
    ensures before { out.new.before ≡ out.old.before }
{
    out.begin_array()?;
    write_numbers(out, &row.numbers())?;
    out.string(row.state.name())?;
    out.end_array()
}

fn write_members(out: &mut Writer, rows: &[Row]) -> Result<(), AllocError>
    ensures rows { OnOk result (out.new.tokens ≡ out.old.tokens ++ flat_map (λ row. tokens_of (row_tree row)) rows.now) }
    ensures before { out.new.before ≡ out.old.before }
{
    for row in rows {
        write_row(out, row)?;
    }
    Ok(())
}

/// Writes the list of the rows.
fn write_rows(out: &mut Writer, rows: &[Row]) -> Result<(), AllocError>
    ensures rows { OnOk result (out.new.tokens ≡ out.old.tokens ++ tokens_of (rows_tree rows.now)) }
    ensures before { out.new.before ≡ out.old.before }
{
    out.begin_array()?;
    write_members(out, rows)?;
    out.end_array()
}

/// Writes the saved object of these rows of the step of this id, as a saved text and a report have it.
pub fn write_saved(out: &mut Writer, rows: &[Row], id: &str) -> Result<(), AllocError>
    ensures saved { OnOk result (out.new.tokens ≡ out.old.tokens ++ tokens_of (saved_tree (record { step = id.now; rows = rows.now }))) }
    ensures before { out.new.before ≡ out.old.before }
{
    out.begin_object()?;
    out.key("rows")?;
    write_rows(out, rows)?;
    out.key("step")?;
    out.string(id)?;
    out.key("version")?;
    out.u64(VERSION)?;
    out.end_object()
}

/// The text of bytes that are one.
pub(crate) fn text_of(bytes: Vec<u8>) -> Result<String, AllocError>
    requires { IsUtf8 bytes.items }
    ensures { IfOk result (λ s. string_bytes s ≡ bytes.items) }
{
    String::from_utf8(bytes).map_err(|_| AllocError)
}
