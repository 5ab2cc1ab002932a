//! The input, which is measured as it is read.

ghost use Rattle.std.specs.Prelude.{◌≡◌, ◌++◌, ℕ, [], List, take, IfSome, MatchResult};
ghost use Rattle.std.specs.Io.{ReadsAtMost};
ghost use Rattle.std.specs.Io.KnownBytes.{ReadConsumes};
ghost use Rattle.sha2.specs.Sha256.{sha256};
ghost use Rattle.jb_csv_job.specs.Measuring.{HasPassed, IsHashed, IsMeasureOf, reader_of};

use sha2::{Digest, Sha256};
use std::io;
use std::io::Read;

/// How many bytes were read of an input, and their SHA-256 digest.
#[derive(Clone, Copy, Debug)]
pub struct Measure {
    /// It stops at 2^64 - 1.
    pub bytes: u64,
    /// There is none if it isn't computed.
    pub sha256: Option<[u8; 32]>,
}

/// A reader that measures what is read of it.
pub trait Measures {
    // These bytes were read of it.
    ghost passed: { Self → List ℕ → Type 0 };

    /// What was read so far.
    fn measure(&self) -> Measure
        ensures { (bytes : List ℕ) → passed self.now bytes → IsMeasureOf bytes result };
}

/// A reader that counts the bytes that are read of it. It computes their SHA-256 digest too, if that is asked for. It keeps none of them.
#[derive(Drop)]
pub struct Measured<R> {
    reader: R,
    bytes: u64,
    hasher: Option<Sha256>,
}

/// Hands these bytes to the hasher, if there is one.
fn hash(hasher: &mut Option<Sha256>, bytes: &[u8])
    ensures { (m : List ℕ) → IsHashed hasher.old m → IsHashed hasher.new (m ++ bytes.now) }
{
    if let Some(hasher) = hasher {
        hasher.update(bytes);
    }
}

/// The digest of what the hasher took, if there is one.
fn digest_of(hasher: &Option<Sha256>) -> Option<[u8; 32]>
    ensures { (m : List ℕ) → IsHashed hasher.now m → IfSome result (λ digest. digest ≡ sha256 m) }
{
    match hasher {
        Some(hasher) => Some(hasher.clone().ok()?.finalize()),
        None => None,
    }
}

impl<R: Read> Measured<R> {
    /// A reader of which nothing was read yet.
    pub fn new(reader: R, is_hashed: bool) -> Measured<R>
        ensures reader { reader_of result ≡ reader }
        ensures nothing { HasPassed result [] }
    {
        let hasher = if is_hashed { Some(Sha256::new()) } else { None };
        Measured {
            reader,
            bytes: 0,
            hasher,
        }
    }
}

impl<R: Read> Read for Measured<R> {
    ghost remaining = { λ it. R.remaining (reader_of it) };

    fn read(&mut self, buf: &mut [u8]) -> io::Result<usize>
        ensures bound { ReadsAtMost result buf.new }
        ensures bytes { ReadConsumes (R.remaining (reader_of self.old)) (R.remaining (reader_of self.new)) result buf.new }
        // What was read is measured.
        ensures passed { (m : List ℕ) → HasPassed self.old m → MatchResult result (λ n. HasPassed self.new (m ++ take n buf.new)) (λ _. HasPassed self.new m) }
    {
        let n = self.reader.read(buf)?;
        self.bytes = self.bytes.saturating_add(n as u64);
        hash(&mut self.hasher, &buf[..n]);
        Ok(n)
    }
}

impl<R: Read> Measures for Measured<R> {
    ghost passed = { HasPassed };

    fn measure(&self) -> Measure {
        Measure {
            bytes: self.bytes,
            sha256: digest_of(&self.hasher),
        }
    }
}
