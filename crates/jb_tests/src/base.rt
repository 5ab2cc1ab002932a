//! Packed lists, where there is memory enough and where it is refused.

use jb_base::PackedList;
use std::alloc::{AllocError, Global};

/// Three strings, one of them empty, the first two of them once more, and no room for more than the first two at the start.
fn made(alloc: Global) -> Result<PackedList, AllocError> {
    let mut list = PackedList::with_room(alloc, 2, 3)?;
    list.push(b"a")?;
    list.push_joined(b"b", b"cd")?;
    list.push(b"")?;
    let again = list.part(alloc, 0, list.len())?;
    list.append(&again)?;
    list.truncate(5);
    Ok(list)
}

/// Whether these are the list's strings.
fn holds(list: &PackedList, strings: &[&[u8]]) -> bool {
    if list.len() != strings.len() || list.is_empty() {
        return false;
    }
    for index in 0..list.len() {
        if list.at(index) != strings[index] {
            return false;
        }
    }
    list.get(list.len()) == None
}

/// With any one request refused, the list is made at the second try.
#[test]
fn wants_memory_or_is_made(rt: HostRuntime) {
    let alloc = rt.alloc();
    let first = made(alloc);
    let list = match first {
        Ok(list) => Ok(list),
        Err(_) => made(alloc),
    };
    let Ok(list) = list else {
        assert!(rt; false);
        return;
    };
    assert!(rt; holds(&list, &[b"a", b"bcd", b"", b"a", b"bcd"]));
}
