//! The whole input, as bytes.

ghost use Rattle.std.specs.Prelude.{◌≡◌, ◌⊎◌, IfErr, IfOk, IfSome};
ghost use Rattle.std.specs.IoError.{error_kind};

use super::error::ProgramError;
use std::alloc::Global;
use std::io::{Error, ErrorKind, Read};

/// The longest input after which freed blocks are kept, in bytes: the C library gives any block of 32 MiB or more back to the system.
const LONGEST_KEPT: usize = 33_000_000;

/// Lets the C library keep freed blocks that are no longer than the input. By itself it gives a block of 128 KiB or more back to the
/// system. The next one is new memory, each page of which the system clears. Once it has freed a block that is longer than the input,
/// it keeps all shorter ones, so a job's results are where its document was read. No page of that block is used.
fn keep_freed(alloc: Global, input: usize) {
    if input <= LONGEST_KEPT {
        let _ = Vec::<u8>::with_capacity(alloc, input + 8_192);
    }
}

/// All bytes that the reader has left. A read that was interrupted is made again.
pub fn read_all<R: Read>(alloc: Global, reader: &mut R) -> Result<Vec<u8>, ProgramError>
    ensures bytes { IfOk result (λ v. IfSome (R.remaining reader.old) (λ bytes. v.items ≡ bytes)) }
    ensures why { IfErr result (λ e. (e ≡ ProgramError.Memory) ⊎ (e ≡ ProgramError.Stream)) }
{
    let mut bytes = Vec::new(alloc);
    match reader.read_to_end(&mut bytes) {
        Ok(_) => {
            keep_freed(alloc, bytes.len());
            Ok(bytes)
        }
        Err(error) => Err(unread(&error)),
    }
}

/// Why the input couldn't be read: there was no memory for its bytes, or the stream failed.
pub fn unread(error: &Error) -> ProgramError
    ensures memory { error_kind error.now ≡ ErrorKind.OutOfMemory → result ≡ ProgramError.Memory }
    ensures stream { (error_kind error.now ≡ ErrorKind.OutOfMemory → ⊥) → result ≡ ProgramError.Stream }
{
    if error.kind() == ErrorKind::OutOfMemory {
        ProgramError::Memory
    } else {
        ProgramError::Stream
    }
}
