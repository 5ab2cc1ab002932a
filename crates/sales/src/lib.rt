//! Sales in lines of JSON, what they cost by a list of prices, and the total of each customer.
//!
//! - `amounts`: cents by name. `prices`: the list of prices. `sale`: a sale, and what it costs. `sums`: the total of each customer.
#![tactic(auto)]

mod amounts;
mod prices;
mod sale;
mod sums;

pub use amounts::Amounts;
pub use prices::{PricesError, read_prices};
pub use sale::{CLASSES, Pricing};
pub use sums::{SumsError, Totals};
