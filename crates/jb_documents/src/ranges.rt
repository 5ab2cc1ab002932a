//! Whether all numbers of a JSON tree are in range: a text with another one has no tree.

ghost use Rattle.std.specs.Prelude.{◌≡◌};
ghost use Rattle.json.specs.Value.{value_view, items_view, members_view};
ghost use Rattle.jb_documents.specs.inside.Borrowed.{in_range, items_in_range, members_in_range};

use crate::numbers::is_number_in_range;
use json::Value as Borrowed;

/// Whether each number of the tree is in range.
#[cycle(ranges)]
#[inline(always)]
pub fn is_in_range(tree: &Borrowed<'_>) -> bool
    ensures { result ≡ in_range (value_view tree.now) }
{
    match tree {
        Borrowed::Number(text) => is_number_in_range(text),
        Borrowed::Array(items) => are_in_range(items),
        Borrowed::Object(members) => members_are_in_range(members),
        _ => true,
    }
}

#[cycle(ranges)]
#[inline(never)]
fn are_in_range(items: &Vec<Borrowed<'_>>) -> bool
    ensures { result ≡ items_in_range (items_view items.now.items) }
{
    for item in items {
        if !is_in_range(item) {
            return false;
        }
    }
    true
}

#[cycle(ranges)]
#[inline(never)]
fn members_are_in_range(members: &Vec<(&str, Borrowed<'_>)>) -> bool
    ensures { result ≡ members_in_range (members_view members.now.items) }
{
    for member in members {
        if !is_in_range(&member.1) {
            return false;
        }
    }
    true
}
