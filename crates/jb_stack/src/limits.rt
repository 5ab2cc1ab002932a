//! The limits of the process's stack and of its address space.

ghost use Rattle.std.specs.Prelude.{◌≡◌, ◌≤◌, length, IfOk};
ghost use Rattle.jb_stack.specs.Room.{has_room};

use std::fs::File;
use std::io;
use std::io::Read;

/// The least limit of a stack that has room for the work of each program, in any build. The process's arguments and environment may take a
/// quarter of it.
const LEAST_LIMIT: u64 = 8_388_608;

/// The limit of a resource that isn't limited.
const UNLIMITED: u64 = u64::MAX;

/// The limits of the process's stack and of its address space, in bytes; 2^64 - 1 if there is none. What isn't known is None.
#[derive(Clone, Copy, Debug, PartialEq, Eq)]
pub struct Limits {
    pub stack: Option<u64>,
    pub space: Option<u64>,
}

impl Limits {
    /// Whether `main`'s stack is known to have room for the work. Under a limit of the address space it isn't known: the heap and other threads may
    /// take that room before the stack grows.
    pub fn has_room(&self) -> bool
        ensures { result ≡ has_room self.now.stack self.now.space }
    {
        match (self.stack, self.space) {
            (Some(stack), Some(space)) => LEAST_LIMIT <= stack && space == UNLIMITED,
            _ => false,
        }
    }
}

/// The soft limit in a line `NAME LIMIT ..` of this text.
fn limit_in(text: &str, name: &str) -> Option<u64> {
    for line in text.lines() {
        if let Some(rest) = line.strip_prefix(name) {
            return match rest.split_whitespace().next() {
                Some("unlimited") => Some(UNLIMITED),
                Some(soft) => soft.parse::<u64>().ok(),
                None => None,
            };
        }
    }
    None
}

/// The first bytes of a file, as many as there is room for: how many there are.
fn front_of(host: &HostRuntime, path: &str, front: &mut [u8]) -> io::Result<usize>
    ensures { IfOk result (λ count. count ≤ length front.old) }
{
    File::open(host, path)?.read(front)
}

/// The limits of this process, as Linux lists them in a file.
pub fn limits_of(host: &HostRuntime) -> Limits {
    let mut front = [0; 4_096];
    let count = front_of(host, "/proc/self/limits", &mut front).unwrap_or(0);
    let text = str::from_utf8(&front[..count]).unwrap_or("");
    Limits {
        stack: limit_in(text, "Max stack size"),
        space: limit_in(text, "Max address space"),
    }
}
