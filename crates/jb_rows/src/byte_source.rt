//! The bytes of a text, from a stream.

ghost use Rattle.std.specs.Prelude.{◌≡◌, ◌≤◌, ◌<◌, [], true, drop, length, option_map, IfOk, OnOk};
ghost use Rattle.std.specs.Bool.{MatchBool};
ghost use Rattle.std.specs.Io.KnownBytes.{IsAtEnd, Keeps};
ghost use Rattle.csv.specs.Reading.{strip_bom};
ghost use Rattle.jb_rows.specs.Source.{unread};

use crate::window::Window;
use std::io::{Read, Result};

/// The bytes of a text, from a stream, without a byte order mark.
#[derive(Drop)]
pub(crate) struct ByteSource<R> {
    stream: R,
    window: Window,
    is_begun: bool,
}

impl<R: Read> ByteSource<R> {
    /// Those of this stream, of which nothing is read.
    pub(crate) fn new(stream: R) -> ByteSource<R>
        ensures { unread R.remaining result ≡ option_map strip_bom (R.remaining stream) }
    {
        ByteSource {
            stream,
            window: Window::new(),
            is_begun: false,
        }
    }

    /// The stream below.
    pub(crate) fn stream(&self) -> &R
        ensures { result.now ≡ self.now.stream }
    {
        &self.stream
    }

    /// Reads more bytes if none is at hand, and says whether one is. Only at the end of the text is none at hand.
    pub(crate) fn fill(&mut self) -> Result<bool>
        ensures begun { OnOk result (self.new.is_begun ≡ true) }
        ensures keeps { OnOk result (Keeps (unread R.remaining self.old) (unread R.remaining self.new)) }
        ensures some { IfOk result (λ some. MatchBool some (0 < length self.new.window) (IsAtEnd (unread R.remaining self.new))) }
    {
        if self.is_begun && !self.window.is_empty() {
            return Ok(true);
        }
        self.read_more()
    }

    /// The same if none is at hand, or nothing was read. It is a function apart, since it has its own window.
    #[inline(never)]
    fn read_more(&mut self) -> Result<bool>
        ensures begun { OnOk result (self.new.is_begun ≡ true) }
        ensures keeps { OnOk result (Keeps (unread R.remaining self.old) (unread R.remaining self.new)) }
        ensures some { IfOk result (λ some. MatchBool some (0 < length self.new.window) (IsAtEnd (unread R.remaining self.new))) }
    {
        if !self.is_begun {
            self.window = Window::first(&mut self.stream)?;
            self.is_begun = true;
        }
        if self.window.is_empty() {
            self.window.read(&mut self.stream)?;
        }
        Ok(!self.window.is_empty())
    }

    /// The bytes at hand.
    pub(crate) fn bytes(&self) -> &[u8]
        ensures { result.now ≡ self.now.window }
    {
        self.window.bytes()
    }

    /// Takes the first bytes away, so many.
    pub(crate) fn skip(&mut self, count: usize)
        requires { count ≤ length self.old.window }
        ensures { self.new ≡ record self.old { window = drop count self.old.window } }
    {
        self.window.skip(count);
    }
}
