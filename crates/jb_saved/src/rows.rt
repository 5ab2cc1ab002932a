//! The rules that saved rows keep together.

ghost use Rattle.std.specs.Prelude.{◌≡◌};
ghost use Rattle.jb_saved.specs.Answers.{first_running};
ghost use Rattle.jb_saved.specs.Reading.{overlaps_some, is_unfit, first_unfit};

use jb_plan::do_overlap;
use jb_rules::Row;

/// Whether some record is in the row's range and in an earlier one's.
fn overlaps_some(earlier: &[Row], row: &Row) -> bool
    ensures { result ≡ overlaps_some earlier.now row.now }
{
    earlier
        .iter()
        .any(|other| do_overlap(other.range(), row.range()))
}

/// Whether the row breaks a row rule, or its range overlaps an earlier one's.
fn is_unfit(earlier: &[Row], row: &Row) -> bool
    ensures { result ≡ is_unfit earlier.now row.now }
{
    !row.sound() || overlaps_some(earlier, row)
}

/// The first row that breaks a row rule, or whose range overlaps an earlier one's.
pub(crate) fn first_unfit(rows: &[Row]) -> Option<usize>
    ensures { result ≡ first_unfit rows.now }
{
    for i in 0..rows.len() {
        if is_unfit(&rows[..i], &rows[i]) {
            return Some(i);
        }
    }
    None
}

/// The first row whose partition is running.
pub(crate) fn first_running(rows: &[Row]) -> Option<usize>
    ensures { result ≡ first_running rows.now }
{
    rows.iter().position(|row| row.state.is_running())
}
