//! Fields that are taken out of an object by value.

ghost use Rattle.std.specs.Prelude.{◌≡◌, ◌≢◌, None, MatchOption, option_map, ℕ, List, IfSome};
ghost use Rattle.json.specs.Find.{get_member};
ghost use Rattle.json.specs.Json.{object};
ghost use Rattle.json.specs.Value.{value_view, members_view};
ghost use Rattle.serde_json.specs.Find.{get};
ghost use Rattle.jb_job.specs.Names.{name_of};
ghost use Rattle.jb_documents.specs.inside.Borrowed.{IsApart, IsReadable, seen};

use jb_job::Field;
use json::Value as Borrowed;

/// Takes the last member of that name out of an object's members.
fn take_last<'a>(members: &mut Vec<(&'a str, Borrowed<'a>)>, name: &str) -> Option<Borrowed<'a>>
    ensures { MatchOption result
        ((get_member name.now (members_view members.old.items) ≡ None) × (members.new.items ≡ members.old.items))
        (λ part. IsApart name.now (object (members_view members.old.items)) (value_view part) (object (members_view members.new.items))) }
{
    let mut place = members.len();
    while 0 < place {
        place -= 1;
        if members[place].0 == name {
            let (_key, part) = members.remove(place);
            return Some(part);
        }
    }
    None
}

/// Takes a field out of an object: the field, where it is there, and the tree without it. Takes no memory.
pub fn take_field<'a>(field: Field, tree: Borrowed<'a>) -> (Option<Borrowed<'a>>, Borrowed<'a>)
    ensures taken { option_map seen result.0 ≡ get (name_of field) (seen tree.entry) }
    ensures others { (name : List ℕ) → name ≢ name_of field → get name (seen result.1) ≡ get name (seen tree.entry) }
    ensures readable { IsReadable (value_view tree.entry) → IfSome result.0 (λ part. IsReadable (value_view part)) }
    ensures rest { IsReadable (value_view tree.entry) → IsReadable (value_view result.1) }
{
    match tree {
        Borrowed::Object(mut members) => {
            let taken = take_last(&mut members, field.name());
            (taken, Borrowed::Object(members))
        }
        other => (None, other),
    }
}
