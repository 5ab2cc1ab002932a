//! The number that a field writes, and sums and products of such.

ghost use Rattle.std.specs.Prelude.{◌≡◌};
ghost use Rattle.jb_rows.specs.Numbers.{number_of, product_of, sum_of};

/// The most digits that a number has: those of 2^64 - 1.
const MOST_DIGITS: usize = 20;

/// The number that 1 to 20 decimal digits write, if it is below 2^64. Anything else, as a sign or a space, writes none.
pub fn number_of(digits: &[u8]) -> Option<u64>
    ensures { result ≡ number_of digits.now }
{
    if digits.is_empty() || digits.len() > MOST_DIGITS {
        return None;
    }
    let mut number: u64 = 0;
    for digit in digits {
        if !digit.is_ascii_digit() {
            return None;
        }
        number = number
            .checked_mul(10)?
            .checked_add(u64::from(*digit - b'0'))?;
    }
    Some(number)
}

/// The sum, if it is below 2^64.
pub fn sum_of(a: u64, b: u64) -> Option<u64>
    ensures { result ≡ sum_of a b }
{
    a.checked_add(b)
}

/// The product, if it is below 2^64.
pub fn product_of(a: u64, b: u64) -> Option<u64>
    ensures { result ≡ product_of a b }
{
    a.checked_mul(b)
}
