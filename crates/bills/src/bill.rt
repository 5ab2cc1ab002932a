//! A customer's usage and the bill for it, each a record of fields.

ghost use Rattle.std.specs.Prelude.{◌≡◌, option_map, IfOk};
ghost use Rattle.bills.specs.Bills.{bill_of, cost_of, named_cost};

use jb_artifacts::Item;
use jb_rows::numbers::{number_of, product_of, sum_of};
use jb_rows::{Row, RowBuilder};
use std::alloc::{AllocError, Global};

/// What is charged, in cents: in each bill, and for each unit.
#[derive(Clone, Copy)]
pub struct Tariff {
    pub standing: u64,
    pub per_unit: u64,
}

/// What so many units cost, if it is below 2^64.
fn cost_of(tariff: Tariff, units: u64) -> Option<u64>
    ensures { result ≡ cost_of tariff units }
{
    sum_of(tariff.standing, product_of(tariff.per_unit, units)?)
}

/// What the usage costs, with the name of the customer, if it has a name and a number of units.
fn named_cost<'a>(tariff: Tariff, usage: &'a Row) -> Option<(&'a [u8], u64)>
    ensures { option_map (λ p. (p.0.now, p.1)) result ≡ named_cost tariff usage.now }
{
    let name = usage.get(0)?;
    let units = number_of(usage.get(1)?)?;
    Some((name, cost_of(tariff, units)?))
}

/// The bill for the usage in a packed record, packed, if it has one.
#[tactic(auto, unfolding(crate::specs::Bills::bill_of))]
pub fn bill_of(alloc: Global, tariff: Tariff, usage: &[u8]) -> Result<Option<Item>, AllocError>
    ensures { IfOk result (λ bill. bill ≡ bill_of tariff usage.now) }
{
    let row = Row::of(usage);
    let Some((name, cents)) = named_cost(tariff, &row) else {
        return Ok(None);
    };
    let mut bill = RowBuilder::new(alloc);
    bill.push(name)?;
    bill.push_number(cents)?;
    Ok(Some(Item::copy_of(alloc, bill.as_bytes())?))
}
