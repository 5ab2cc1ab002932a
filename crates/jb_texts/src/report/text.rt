//! Bytes as a text.

ghost use Rattle.std.specs.Prelude.{◌≡◌, ◌++◌, ◌∷◌, [], OnOk};
ghost use Rattle.std.specs.Str.{IsAscii};
ghost use Rattle.std.specs.Str.Lossy.{utf8_lossy};
ghost use Rattle.json.specs.Token.{string};

use json::Writer;
use std::alloc::{AllocError, Global};
use std::str::{from_utf8, from_utf8_unchecked};

#[tactic(auto, using(crate::proofs::Utf8::lossy))]
/// Writes the bytes as a text. What is no UTF-8 in them is replaced.
pub fn write_text(alloc: Global, out: &mut Writer, bytes: &[u8]) -> Result<(), AllocError>
    ensures text { OnOk result (out.new.tokens ≡ out.old.tokens ++ string (utf8_lossy bytes.now) ∷ []) }
    ensures before { out.new.before ≡ out.old.before }
{
    match from_utf8(bytes) {
        Ok(text) => out.string(text),
        Err(_) => {
            let text = String::from_utf8_lossy(alloc, bytes)?;
            out.string(text.as_str())
        }
    }
}

/// Writes bytes that are ASCII as a text, as `write_text` does, which would test them.
pub fn write_ascii(out: &mut Writer, bytes: &[u8]) -> Result<(), AllocError>
    requires { IsAscii bytes.now }
    ensures text { OnOk result (out.new.tokens ≡ out.old.tokens ++ string (utf8_lossy bytes.now) ∷ []) }
    ensures before { out.new.before ≡ out.old.before }
{
    out.string(unsafe { from_utf8_unchecked(bytes) })
}
