//! Where a record's plan is among others.

ghost use Rattle.std.specs.Prelude.{IsTrue};
ghost use Rattle.jb_artifacts.specs.inside.FaultPlaces.{DoNumbersRise, IsPlaceOf, IsSearched};

use crate::faults::FaultPlan;

/// Whether exactly the entries before this place have smaller numbers.
fn is_place_of(number: u64, entries: &[(u64, FaultPlan)], place: usize) -> bool
    requires { DoNumbersRise entries.now }
    ensures { IsTrue result → IsPlaceOf number entries.now place }
{
    if place > entries.len() {
        return false;
    }
    if place > 0 && entries[place - 1].0 >= number {
        return false;
    }
    place == entries.len() || number <= entries[place].0
}

/// The place with exactly the smaller numbers before it. `near` and the next place are tried first, and then all are searched.
fn place_of(number: u64, entries: &[(u64, FaultPlan)], near: usize) -> usize
    requires { DoNumbersRise entries.now }
    ensures { IsPlaceOf number entries.now result }
{
    if is_place_of(number, entries, near) {
        return near;
    }
    if near < entries.len() && is_place_of(number, entries, near + 1) {
        return near + 1;
    }
    entries.partition_point(|entry| entry.0 < number)
}

/// The place of the record's plan, or the place where it would go. `near` and the next place are tried first, and then
/// all are searched.
pub fn search(number: u64, entries: &[(u64, FaultPlan)], near: usize) -> Result<usize, usize>
    requires { DoNumbersRise entries.now }
    ensures { IsSearched number entries.now result }
{
    let place = place_of(number, entries, near);
    if place == entries.len() {
        return Err(place);
    }
    if entries[place].0 == number {
        Ok(place)
    } else {
        Err(place)
    }
}
