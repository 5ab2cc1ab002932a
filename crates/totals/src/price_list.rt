//! The list of prices that the command line names.

use crate::failure::TotalsError;
use jb_csv_job::Asked;
use sales::{Amounts, PricesError, read_prices};
use sha2::{Digest, Sha256};
use std::fs;

/// A list of prices, and the stamp of the job by it. Another list has another stamp, so no slice is priced by two lists.
#[derive(Drop)]
pub struct PriceList {
    pub prices: Amounts,
    /// The version of the program's function, and the SHA-256 digest of the list's bytes in hex.
    pub stamp: String,
}

/// Reads the list of prices, and works out the stamp.
pub fn read_list(host: &HostRuntime, asked: &Asked) -> Result<PriceList, TotalsError> {
    let alloc = host.alloc();
    let bytes = match fs::read(host, asked.own.as_deref().unwrap_or("")) {
        Ok(bytes) => bytes,
        Err(error) => return Err(TotalsError::Prices(PricesError::File(error))),
    };
    let digest = hex::encode(alloc, Sha256::digest(bytes.as_slice()))?;
    let stamp = format!(in alloc; "1 {digest}")?;
    let prices = read_prices(alloc, bytes.as_slice())?;
    Ok(PriceList { prices, stamp })
}
