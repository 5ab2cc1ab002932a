//! A parcel and its price.

ghost use Rattle.std.specs.Prelude.{◌≡◌, option_map};
ghost use Rattle.postage.specs.Parcels.{named_price, postage_of, pricing, unpriced_class};

use jb_base::ClassId;
use jb_rows::numbers::{number_of, product_of, sum_of};
use jb_rows::{Outcome, Row, RowBuilder, RowFunction};
use std::alloc::AllocError;

/// The postage in cents of so many grams, if it is below 2^64.
fn postage_of(grams: u64) -> Option<u64>
    ensures { result ≡ postage_of grams }
{
    sum_of(250, product_of(3, grams)?)
}

/// The postage of a parcel, with the name that it is for, if it has a name and a number of grams.
fn named_price<'a>(parcel: &'a Row) -> Option<(&'a [u8], u64)>
    ensures { option_map (λ p. (p.0.now, p.1)) result ≡ named_price parcel.now }
{
    let name = parcel.get(0)?;
    let grams = number_of(parcel.get(1)?)?;
    Some((name, postage_of(grams)?))
}

/// The class of the fault of a parcel that has no price.
fn unpriced() -> ClassId
    ensures { result ≡ unpriced_class }
{
    ClassId::new(0)
}

/// What is done to a parcel.
#[derive(Drop)]
pub struct Postage;

impl RowFunction for Postage {
    ghost answer = { λ _. pricing };

    fn process(&self, parcel: &Row, price: &mut RowBuilder) -> Result<Outcome, AllocError> {
        let Some((name, cents)) = named_price(parcel) else {
            return Ok(Outcome::Refused(unpriced()));
        };
        price.push(name)?;
        price.push_number(cents)?;
        Ok(Outcome::Given)
    }
}
