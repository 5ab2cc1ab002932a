//! The digest of a slice's items.

ghost use Rattle.std.specs.Prelude.{◌≡◌, ◌++◌, ◌⊎◌, List, ℕ, IfErr, IfOk};
ghost use Rattle.sha2.specs.Hashers.{Holds256};
ghost use Rattle.jb_slices.specs.Checkpoint.{digest_of};
ghost use Rattle.jb_slice_run.specs.Work.{AreItemsShort};
ghost use Rattle.jb_slice_run.specs.declared.error.SliceError.TheVariants.{Memory, TooLong};

use crate::coding::write_item;
use crate::error::SliceError;
use jb_base::PackedList;
use sha2::{Digest, Sha256};
use std::alloc::Global;

/// The number of bytes from which on a piece is handed to the hasher.
const PIECE: usize = 8192;

/// Hands the piece to the hasher if it is large enough.
fn hand_on(hasher: &mut Sha256, piece: &mut Vec<u8>)
    ensures { (m : List ℕ) → Holds256 hasher.old m → (n : List ℕ) × Holds256 hasher.new n × (n ++ piece.new.items ≡ m ++ piece.old.items) }
{
    if piece.len() >= PIECE {
        hasher.update(piece.as_slice());
        piece.clear();
    }
}

/// The SHA-256 digest of these items, each after its length.
///
/// # Errors
/// `TooLong` if an item has more than 4,294,967,295 bytes, and `Memory`.
pub(crate) fn digest_of(alloc: Global, items: &PackedList) -> Result<[u8; 32], SliceError>
    ensures digest { IfOk result (λ digest. digest ≡ digest_of items.now) }
    ensures why { IfErr result (λ e. (e ≡ Memory) ⊎ (e ≡ TooLong) × (AreItemsShort items.now → ⊥)) }
{
    let mut hasher = Sha256::new();
    let mut piece = Vec::with_capacity(alloc, 2 * PIECE)?;
    for index in 0..items.len() {
        write_item(&mut piece, items, index)?;
        hand_on(&mut hasher, &mut piece);
    }
    hasher.update(piece.as_slice());
    Ok(hasher.finalize())
}
