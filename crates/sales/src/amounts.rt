//! Amounts of cents, each with a name: what an item costs, and what a customer pays.

ghost use Rattle.std.specs.Prelude.{◌≡◌, [], map, option_map, IfOk, OnOk};
ghost use Rattle.sales.specs.Amounts.{amount_at, amount_of, with_amount};
ghost use Rattle.sales.specs.Totals.{record_of};

use indexmap::IndexMap;
use jb_rows::numbers::number_of;
use jb_rows::{Row, RowBuilder, Rows};
use std::alloc::{AllocError, Global};
use std::marker::Model;

/// Amounts of cents, one for each name, in the order in which the names came. A contract sees the list of them.
#[derive(Drop)]
pub struct Amounts {
    by_name: IndexMap<Vec<u8>, u64>,
    alloc: Global,
}

impl Model for Amounts {
    ghost use Rattle.std.specs.Prelude.{ℕ, List, map};

    ghost Value = { List (List ℕ × ℕ) };

    ghost view = { λ amounts. map (λ entry. (entry.0.items, entry.1)) amounts.by_name.entries };
}

impl Amounts {
    /// No amount. Takes no memory.
    pub fn new(alloc: Global) -> Amounts
        ensures { result ≡ [] }
    {
        Amounts {
            by_name: IndexMap::new(alloc),
            alloc,
        }
    }

    /// The amount of a name, if it has one.
    pub fn get(&self, name: &[u8]) -> Option<u64>
        ensures { result ≡ amount_at self.now name.now }
    {
        self.by_name.get(name).copied()
    }

    /// Gives a name this amount, in the place of the one that it had. A new name is after the others.
    pub fn put(&mut self, name: &[u8], cents: u64) -> Result<(), AllocError>
        ensures { OnOk result (self.new ≡ with_amount self.old name.now cents) }
    {
        let name = Vec::from_slice(self.alloc, name)?;
        self.by_name.insert(name, cents)?;
        Ok(())
    }

    /// The amounts as records `NAME,CENTS`, in order.
    pub fn rows(&self) -> Result<Rows, AllocError>
        ensures { IfOk result (λ rows. rows ≡ map record_of self.now) }
    {
        let mut rows = Rows::new(self.alloc);
        let mut row = RowBuilder::new(self.alloc);
        for (name, cents) in &self.by_name {
            row.clear();
            row.push(name)?;
            row.push_number(*cents)?;
            rows.push(&row)?;
        }
        Ok(rows)
    }
}

/// The amount of a record `NAME,CENTS`, with its name, if it has both.
pub fn amount_of<'a>(row: &'a Row) -> Option<(&'a [u8], u64)>
    ensures { option_map (λ amount. (amount.0.now, amount.1)) result ≡ amount_of row.now }
{
    let name = row.get(0)?;
    let cents = number_of(row.get(1)?)?;
    Some((name, cents))
}
