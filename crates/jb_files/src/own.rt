//! The files of a job over CSV, of which no two are one.

use crate::folders::folder_of;
use crate::node::{Node, node_at};
use std::alloc::{AllocError, Global};
use std::fs;
use std::fs::DirEntry;
use std::io::ErrorKind;
use std::path::Path;

/// Two names of one file, where a job needs two files.
#[derive(Debug, Drop)]
pub struct SameFile {
    pub path: String,
    /// What the other one is.
    pub other: String,
}

/// What the records come from.
const INPUT: &str = "the input";

/// Where results may go.
const OUTPUT: &str = "standard output";

/// What a job has in its folder.
const OWN: &str = "a file of FOLDER";

/// What it writes beside this one.
const OTHER: &str = "a file of the other PATH";

/// Where a path leads.
#[derive(Clone, Copy)]
struct Place<'a> {
    /// The file that is there.
    node: Option<Node>,
    /// The folder of the path, and its name there.
    folder: Option<Node>,
    name: &'a str,
}

impl<'a> Place<'a> {
    fn at(host: &HostRuntime, path: &'a str) -> Place<'a> {
        let named = Path::new(path);
        Place {
            node: node_at(host, path),
            folder: node_at(host, folder_of(path)),
            name: named.file_name().unwrap_or(""),
        }
    }

    /// Whether the two are one file, or one name in one folder.
    fn meets(&self, other: &Place) -> bool {
        let is_one_file = self.node.is_some() && self.node == other.node;
        let is_one_name = self.folder.is_some()
            && self.folder == other.folder
            && self.name == other.name;
        is_one_file || is_one_name
    }
}

/// Whether a job gives this name to a file of its folder.
fn is_own_name(name: &str) -> bool {
    let is_slice = name.starts_with("slice-")
        && (name.ends_with(".db") || name.ends_with(".db-wal"));
    is_slice || name == "history.jsonl" || name == "stop"
}

/// The file of an entry, if a job gives it its name.
fn own_node(entry: &DirEntry) -> Option<Node> {
    if !is_own_name(entry.file_name()) {
        return None;
    }
    match entry.metadata() {
        Ok(found) => Some(Node::of(&found)),
        Err(_) => None,
    }
}

/// A job's files in its folder. If the folder can't be read, there are none.
fn own_nodes(host: &HostRuntime, folder: &str) -> Result<Vec<Node>, AllocError> {
    let mut nodes = Vec::new(host.alloc());
    let entries = match fs::read_dir(host, folder) {
        Ok(entries) => entries,
        Err(error) if error.kind() == ErrorKind::OutOfMemory => return Err(AllocError),
        Err(_) => return Ok(nodes),
    };
    for entry in entries {
        let node = match entry {
            Ok(entry) => own_node(&entry),
            Err(error) if error.kind() == ErrorKind::OutOfMemory => return Err(AllocError),
            Err(_) => None,
        };
        if let Some(node) = node {
            nodes.push(node)?;
        }
    }
    Ok(nodes)
}

/// The file that a standard stream is, if it is a regular one.
fn stream_node(host: &HostRuntime, stream: &str) -> Option<Node> {
    match fs::metadata(host, stream) {
        Ok(found) if found.is_file() => Some(Node::of(&found)),
        _ => None,
    }
}

/// What a job has beside the files that it is to write.
#[derive(Drop)]
struct Taken {
    input: Option<Node>,
    output: Option<Node>,
    folder: Option<Node>,
    own: Vec<Node>,
}

impl Taken {
    fn is_own(&self, place: &Place) -> bool {
        let is_named_so = self.folder.is_some()
            && self.folder == place.folder
            && is_own_name(place.name);
        is_named_so || self.has(place.node)
    }

    /// Whether a file is one of the folder's own.
    fn has(&self, node: Option<Node>) -> bool {
        match node {
            Some(node) => self.own.contains(&node),
            None => false,
        }
    }

    /// A stream that is the other one, or a file of the folder.
    fn met(&self) -> Option<(&'static str, &'static str)> {
        if self.input.is_some() && self.input == self.output {
            Some((INPUT, OUTPUT))
        } else if self.has(self.input) {
            Some((INPUT, OWN))
        } else if self.has(self.output) {
            Some((OUTPUT, OWN))
        } else {
            None
        }
    }

    /// What a place is already: a stream, or a file of the folder.
    fn called(&self, place: &Place) -> Option<&'static str> {
        if place.node.is_some() && place.node == self.input {
            Some(INPUT)
        } else if place.node.is_some() && place.node == self.output {
            Some(OUTPUT)
        } else if self.is_own(place) {
            Some(OWN)
        } else {
            None
        }
    }
}

/// Whether a place meets one of these.
fn is_among(places: &[Place], place: &Place) -> bool {
    for earlier in places {
        if earlier.meets(place) {
            return true;
        }
    }
    false
}

fn same(alloc: Global, path: &str, other: &str) -> Result<Option<SameFile>, AllocError> {
    Ok(Some(SameFile {
        path: path.to_string(alloc)?,
        other: other.to_string(alloc)?,
    }))
}

/// The first of these paths that is one file with an earlier one, with the input, with standard output or with one of FOLDER's own; or a stream that
/// is one file with the other, or with one of FOLDER's.
/// A file that isn't there yet is known by its folder and its name.
pub fn find_same_file(
    host: &HostRuntime,
    folder: &str,
    paths: &[&str],
) -> Result<Option<SameFile>, AllocError> {
    let alloc = host.alloc();
    let taken = Taken {
        input: stream_node(host, "/dev/stdin"),
        output: stream_node(host, "/dev/stdout"),
        folder: node_at(host, folder),
        own: own_nodes(host, folder)?,
    };
    if let Some((stream, other)) = taken.met() {
        return same(alloc, stream, other);
    }
    let mut places: Vec<Place> = Vec::new(alloc);
    for path in paths {
        let place = Place::at(host, path);
        if let Some(other) = taken.called(&place) {
            return same(alloc, path, other);
        }
        if is_among(&places, &place) {
            return same(alloc, path, OTHER);
        }
        places.push(place)?;
    }
    Ok(None)
}
