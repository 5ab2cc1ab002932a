//! Where a list of checkpoints ends.

ghost use Rattle.std.specs.Prelude.{◌≡◌, ◌≤◌, ◌+◌, ◌-◌, ◌^◌, IfSome, None};
ghost use Rattle.jb_slice_file.specs.Chain.{link_of};
ghost use Rattle.jb_slice_file.specs.ListEnd.{IsAfter, count_of};

use sha2::{Digest, Sha256};

/// The link before the first checkpoint.
pub(crate) const NO_LINK: [u8; 32] = [0; 32];

/// Where the list of a file ends: how many checkpoints it has, and the link of the last one. Only an open gives it, and only an append moves it
/// on. So a checkpoint can only come under the next number.
#[derive(Clone, Copy, Debug, Drop)]
pub struct ListEnd {
    pub(crate) count: u64,
    pub(crate) link: [u8; 32],
}

/// The link of a checkpoint: the digest of the link before it, its number, the length of its text, its text and its results.
pub(crate) fn link_of(before: &[u8; 32], number: u64, saved: &str, results: &[u8]) -> [u8; 32]
    ensures { result ≡ link_of before.now number (record { saved = saved.now; results = results.now }) }
{
    let mut hasher = Sha256::new();
    hasher.update(before.as_slice());
    hasher.update(number.to_le_bytes().as_slice());
    hasher.update((saved.len() as u64).to_le_bytes().as_slice());
    hasher.update(saved.as_bytes());
    hasher.update(results);
    hasher.finalize()
}

impl ListEnd {
    /// How many checkpoints the list has.
    pub fn count(&self) -> u64
        ensures { result ≡ count_of self.now }
    {
        self.count
    }

    /// The next number, and the end with one checkpoint more. `None` if there are 4,294,967,295 already.
    pub(crate) fn grown(&self, saved: &str, results: &[u8]) -> Option<(u32, ListEnd)>
        ensures number { IfSome result (λ r. r.0 ≡ count_of self.now + 1) }
        ensures after { IfSome result (λ r. IsAfter self.now r.1 (record { saved = saved.now; results = results.now })) }
        ensures full { result ≡ None → 2 ^ 32 - 1 ≤ count_of self.now }
    {
        let Ok(count) = u32::try_from(self.count) else {
            return None;
        };
        let number = count.checked_add(1)?;
        let link = link_of(&self.link, number as u64, saved, results);
        Some((
            number,
            ListEnd {
                count: number as u64,
                link,
            },
        ))
    }
}
