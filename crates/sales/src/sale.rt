//! A sale in a line of JSON, and what it costs.

ghost use Rattle.std.specs.Prelude.{◌≡◌, option_map, IfOk};
ghost use Rattle.serde_json.specs.View.{view};
ghost use Rattle.jb_job.specs.Reading.{tree_of};
ghost use Rattle.sales.specs.Sales.{answer_by, line_by, no_price_class, no_sale_class, sale_in, too_large_class};
ghost use Rattle.jb_rows.specs.Author.{field_at};
ghost use Rattle.std.specs.Option.{option_and_then};

use crate::amounts::Amounts;
use jb_base::ClassId;
use jb_job::{JobError, read_tree};
use jb_ready::{Fate, FaultClass};
use jb_rows::numbers::product_of;
use jb_rows::{Outcome, Row, RowBuilder, RowFunction};
use serde_json::Value;
use std::alloc::{AllocError, Global};

/// A line that is no sale is skipped, and so is a sale of an item that has no price, or that costs too much.
pub const CLASSES: &[FaultClass<'static>] = &[
    FaultClass {
        name: "not a sale",
        fate: Fate::Skipped,
    },
    FaultClass {
        name: "no price",
        fate: Fate::Skipped,
    },
    FaultClass {
        name: "2^64 cents or more",
        fate: Fate::Skipped,
    },
];

/// A sale: who bought what, and how many of it.
#[derive(Clone, Copy)]
struct Sale<'a> {
    customer: &'a str,
    item: &'a str,
    count: u64,
}

/// The sale that a JSON value is, if it is one.
fn sale_in(value: &Value) -> Option<Sale<'_>>
    ensures { option_map (λ sale. (sale.customer.now, sale.item.now, sale.count)) result ≡ sale_in (view value.now) }
{
    let customer = value.get("customer")?.as_str()?;
    let item = value.get("item")?.as_str()?;
    let count = value.get("count")?.as_u64()?;
    Some(Sale {
        customer,
        item,
        count,
    })
}

/// The text of a line. One with a byte 0 is cut there into fields, and is none.
fn text_of<'a>(line: &'a Row) -> Option<&'a [u8]>
    ensures { option_map (λ text. text.now) result ≡ line_by (field_at line.now 0) (field_at line.now 1) }
{
    match line.get(1) {
        None => line.get(0),
        Some(_) => None,
    }
}

/// The JSON value of a line, if it is a JSON text.
fn value_of(alloc: Global, line: &Row) -> Result<Option<Value>, AllocError>
    ensures { IfOk result (λ value. option_map view value ≡ option_and_then tree_of (line_by (field_at line.now 0) (field_at line.now 1))) }
{
    let Some(text) = text_of(line) else {
        return Ok(None);
    };
    match read_tree(alloc, text) {
        Ok(value) => Ok(Some(value)),
        Err(JobError::Memory) => Err(AllocError),
        Err(_) => Ok(None),
    }
}

/// The class of the fault of a line that is no sale.
fn no_sale() -> ClassId
    ensures { result ≡ no_sale_class }
{
    ClassId::new(0)
}

/// That of a sale of an item that isn't in the list of prices.
fn no_price() -> ClassId
    ensures { result ≡ no_price_class }
{
    ClassId::new(1)
}

/// That of a sale that costs 2^64 cents or more.
fn too_large() -> ClassId
    ensures { result ≡ too_large_class }
{
    ClassId::new(2)
}

/// What is done to a sale: its cost is looked up.
#[derive(Drop)]
pub struct Pricing {
    /// The cents of one of each item. All threads share it.
    pub prices: Amounts,
    /// Where the JSON value of a line is stored while it is looked at.
    pub alloc: Global,
}

impl RowFunction for Pricing {
    ghost answer = { λ pricing. answer_by pricing.prices };

    fn process(&self, line: &Row, paid: &mut RowBuilder) -> Result<Outcome, AllocError> {
        let Some(value) = value_of(self.alloc, line)? else {
            return Ok(Outcome::Refused(no_sale()));
        };
        let Some(sale) = sale_in(&value) else {
            return Ok(Outcome::Refused(no_sale()));
        };
        let Some(price) = self.prices.get(sale.item.as_bytes()) else {
            return Ok(Outcome::Refused(no_price()));
        };
        let Some(cents) = product_of(sale.count, price) else {
            return Ok(Outcome::Refused(too_large()));
        };
        paid.push(sale.customer.as_bytes())?;
        paid.push_number(cents)?;
        Ok(Outcome::Given)
    }
}
