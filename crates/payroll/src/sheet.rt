//! A time sheet and its pay slip.

ghost use Rattle.std.specs.Prelude.{◌≡◌, option_map};
ghost use Rattle.jb_rows.specs.Author.{field_at};
ghost use Rattle.jb_rows.specs.Numbers.{number_of};
ghost use Rattle.payroll.specs.Sheets.{is_overlong, pay_by, pay_in};

use jb_rows::Row;
use jb_rows::numbers::{number_of, product_of};

/// The hours of the longest month.
const MOST_HOURS: u64 = 744;

/// The pay in cents, if the two fields are numbers and their product is below 2^64.
fn pay_of(hours: &[u8], rate: &[u8]) -> Option<u64>
    ensures { result ≡ pay_by (number_of hours.now) (number_of rate.now) }
{
    product_of(number_of(hours)?, number_of(rate)?)
}

/// The pay of a time sheet, with the name that it is for, if it has a name, hours and a rate.
pub fn named_pay<'a>(sheet: &'a Row) -> Option<(&'a [u8], u64)>
    ensures { option_map (λ p. (p.0.now, p.1)) result ≡ pay_in sheet.now }
{
    let name = sheet.get(0)?;
    let pay = pay_of(sheet.get(1)?, sheet.get(2)?)?;
    Some((name, pay))
}

/// Whether a time sheet has more hours than the longest month.
pub fn is_overlong(sheet: &Row) -> bool
    ensures { result ≡ is_overlong (field_at sheet.now 1) }
{
    let Some(hours) = sheet.get(1) else {
        return false;
    };
    match number_of(hours) {
        Some(hours) => hours > MOST_HOURS,
        None => false,
    }
}
