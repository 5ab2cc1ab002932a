//! Which file a path names.

use std::fs;
use std::fs::Metadata;
use std::os::unix::fs::MetadataExt;

/// A file of the system: its device, and its number there.
#[derive(Clone, Copy, Debug, PartialEq, Eq)]
pub struct Node {
    device: u64,
    number: u64,
}

impl Node {
    pub fn of(found: &Metadata) -> Node {
        Node {
            device: found.dev(),
            number: found.ino(),
        }
    }
}

/// The file at this path, if there is one. A link is followed.
pub fn node_at(host: &HostRuntime, path: &str) -> Option<Node> {
    match fs::metadata(host, path) {
        Ok(found) => Some(Node::of(&found)),
        Err(_) => None,
    }
}
