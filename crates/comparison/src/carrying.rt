// Whether every value that meets a new definition meets an old one, by a walk over the rows of both. 01's term is carried.
ghost use Rattle.std.specs.Prelude.{◌≡◌, ◌≤◌, length, Some};
ghost use Rattle.syntax.specs.Grammar.{name_of};
ghost use Rattle.syntax.specs.Holding.{word as word_of};
ghost use Rattle.definitions.specs.Shapes.{DefinedRow};
ghost use Rattle.comparison.specs.Carrying.{subtype_name, IsJsonRow};
ghost use Rattle.comparison.specs.Fields.{FindsUnder, MatchesUnder, ManyNames};
ghost use Rattle.comparison.specs.Carrying.{Pairing, PairingTo, Decided, FieldPairing, FieldDecided, FieldsPairing, FieldsFailing};
ghost use Rattle.definitions.specs.declared.types.Generic.TheVariants.{Array, Map, Object};

use crate::fields::{find_under, match_under, wide_under};
use definitions::{Generic, TypeName, generic_at, of_objects, type_at};
use rows::{MOST_NAMES, SOME_NAMES, Tree};

// Whether a definition that names one type, or none, is carried to one that names another.
#[tactic(auto, unfolding(crate::specs::Carrying::subtype_name))]
fn carried_name(new: Option<TypeName>, old: Option<TypeName>) -> bool
    ensures { result ≡ subtype_name new old }
{
    match (new, old) {
        (_, Some(TypeName::Json)) => true,
        (Some(TypeName::Integer), Some(TypeName::Float)) => true,
        (Some(TypeName::DateTime), Some(TypeName::Text)) => true,
        (Some(new), Some(old)) => new == old,
        _ => false,
    }
}

// Whether the definition at a row is JSON, which takes every value.
fn is_json(tree: Tree, row: usize) -> bool
    requires { DefinedRow tree.text.now tree.table.now row }
    ensures { IsJsonRow tree.entry.text.now tree.entry.table.now row result }
{
    carried_name(Some(TypeName::Json), type_at(tree, row))
}

// Whether the new definition at row `a` is carried to the old one at row `b`.
#[cycle(carried_carried_field_carried_found_carried_to_array_carried_to_map_carried_to_object_failing_field_failing_found_failing_wide_failing_widest)]
pub fn carried(new: Tree, old: Tree, a: usize, b: usize) -> bool
    requires { Pairing new.text.now old.text.now new.table.now old.table.now a b }
    ensures { Decided new.entry.text.now old.entry.text.now new.entry.table.now old.entry.table.now a b result }
{
    match generic_at(old, b) {
        Some(Generic::Array) => carried_to_array(new, old, a, b),
        Some(Generic::Map) => carried_to_map(new, old, a, b),
        Some(Generic::Object) => carried_to_object(new, old, a, b),
        None => carried_name(type_at(new, a), type_at(old, b)),
    }
}

// The same where the old one is an Array.
#[cycle(carried_carried_field_carried_found_carried_to_array_carried_to_map_carried_to_object_failing_field_failing_found_failing_wide_failing_widest)]
fn carried_to_array(new: Tree, old: Tree, a: usize, b: usize) -> bool
    requires { PairingTo new.text.now old.text.now new.table.now old.table.now a b Array }
    ensures { Decided new.entry.text.now old.entry.text.now new.entry.table.now old.entry.table.now a b result }
{
    generic_at(new, a) == Some(Generic::Array) && carried(new, old, a + 2, b + 2)
}

// The same where the old one is a Map: an Object puts anything under the names that it does not name.
#[cycle(carried_carried_field_carried_found_carried_to_array_carried_to_map_carried_to_object_failing_field_failing_found_failing_wide_failing_widest)]
fn carried_to_map(new: Tree, old: Tree, a: usize, b: usize) -> bool
    requires { PairingTo new.text.now old.text.now new.table.now old.table.now a b Map }
    ensures { Decided new.entry.text.now old.entry.text.now new.entry.table.now old.entry.table.now a b result }
{
    match generic_at(new, a) {
        Some(Generic::Map) => carried(new, old, a + 2, b + 2),
        Some(Generic::Object) => is_json(old, b + 2),
        Some(Generic::Array) => false,
        None => false,
    }
}

// The same where the old one is an Object.
#[cycle(carried_carried_field_carried_found_carried_to_array_carried_to_map_carried_to_object_failing_field_failing_found_failing_wide_failing_widest)]
fn carried_to_object(new: Tree, old: Tree, a: usize, b: usize) -> bool
    requires { PairingTo new.text.now old.text.now new.table.now old.table.now a b Object }
    ensures { Decided new.entry.text.now old.entry.text.now new.entry.table.now old.entry.table.now a b result }
{
    of_objects(new, a)
        && failing_field(new, old, a, old.find(b + 2, b"required"), true).is_none()
        && failing_field(new, old, a, old.find(b + 2, b"optional"), false).is_none()
}

// The row of the name of the first of the old fields at a row to which the new definition at row `a` is not carried.
#[cycle(carried_carried_field_carried_found_carried_to_array_carried_to_map_carried_to_object_failing_field_failing_found_failing_wide_failing_widest)]
pub fn failing_field(
    new: Tree,
    old: Tree,
    a: usize,
    fields: Option<usize>,
    required: bool,
) -> Option<usize>
    requires { FieldsPairing new.text.now old.text.now new.table.now old.table.now a fields }
    ensures { FieldsFailing new.entry.text.now old.entry.text.now new.entry.table.now old.entry.table.now a fields required result }
{
    let object = fields?;
    if wide_under(new, a, old.row_at(object).children) {
        return failing_wide(new, old, a, object, required);
    }
    for row in old.members(object) {
        if !carried_field(new, old, a, row, required) {
            return Some(row);
        }
    }
    None
}

// The same where both have many names: each is looked up by an index, in room by how many the old ones are. All of the room is cleared, so up
// to `SOME_NAMES` are given less; and each room has a frame of its own.
#[cycle(carried_carried_field_carried_found_carried_to_array_carried_to_map_carried_to_object_failing_field_failing_found_failing_wide_failing_widest)]
#[inline(never)]
fn failing_wide(new: Tree, old: Tree, a: usize, object: usize, required: bool) -> Option<usize>
    requires fields_pairing { FieldsPairing new.text.now old.text.now new.table.now old.table.now a (Some object) }
    requires many_names { ManyNames new.text.now new.table.now a (word_of old.table.now object 3) }
    ensures { FieldsFailing new.entry.text.now old.entry.text.now new.entry.table.now old.entry.table.now a (Some object) required result }
{
    if old.row_at(object).children as usize > SOME_NAMES {
        return failing_widest(new, old, a, object, required);
    }
    let mut values = [None; SOME_NAMES];
    match_under(new, a, old, object, required, &mut values);
    failing_found(new, old, a, object, &values, required)
}

// The same in room for the most names.
#[cycle(carried_carried_field_carried_found_carried_to_array_carried_to_map_carried_to_object_failing_field_failing_found_failing_wide_failing_widest)]
#[inline(never)]
fn failing_widest(new: Tree, old: Tree, a: usize, object: usize, required: bool) -> Option<usize>
    requires fields_pairing { FieldsPairing new.text.now old.text.now new.table.now old.table.now a (Some object) }
    requires many_names { ManyNames new.text.now new.table.now a (word_of old.table.now object 3) }
    ensures { FieldsFailing new.entry.text.now old.entry.text.now new.entry.table.now old.entry.table.now a (Some object) required result }
{
    let mut values = [None; MOST_NAMES];
    match_under(new, a, old, object, required, &mut values);
    failing_found(new, old, a, object, &values, required)
}

// The same where what the new definition has under each name was found.
#[cycle(carried_carried_field_carried_found_carried_to_array_carried_to_map_carried_to_object_failing_field_failing_found_failing_wide_failing_widest)]
fn failing_found(
    new: Tree,
    old: Tree,
    a: usize,
    object: usize,
    values: &[Option<usize>],
    required: bool,
) -> Option<usize>
    requires fields_pairing { FieldsPairing new.text.now old.text.now new.table.now old.table.now a (Some object) }
    requires few { word_of old.table.now object 3 ≤ length values.now }
    requires matches { MatchesUnder new.text.now new.table.now a old.text.now old.table.now object required values.now }
    ensures { FieldsFailing new.entry.text.now old.entry.text.now new.entry.table.now old.entry.table.now a (Some object) required result }
{
    for (i, row) in old.members(object).enumerate() {
        if !carried_found(new, old, a, values[i], row, required) {
            return Some(row);
        }
    }
    None
}

// Whether it is carried to one field, its name at row `row`: what the new one asks under it is carried, and a required name is required.
#[cycle(carried_carried_field_carried_found_carried_to_array_carried_to_map_carried_to_object_failing_field_failing_found_failing_wide_failing_widest)]
fn carried_field(new: Tree, old: Tree, a: usize, row: usize, required: bool) -> bool
    requires { FieldPairing new.text.now old.text.now new.table.now old.table.now a row }
    ensures { FieldDecided new.entry.text.now old.entry.text.now new.entry.table.now old.entry.table.now a row required result }
{
    let name = old.row_at(row);
    let key = old.between(name.first, name.end);
    let found = find_under(new, a, key, required);
    carried_found(new, old, a, found, row, required)
}

// The same where row `found` of the new definition was found for the name, or none.
#[cycle(carried_carried_field_carried_found_carried_to_array_carried_to_map_carried_to_object_failing_field_failing_found_failing_wide_failing_widest)]
fn carried_found(
    new: Tree,
    old: Tree,
    a: usize,
    found: Option<usize>,
    row: usize,
    required: bool,
) -> bool
    requires field_pairing { FieldPairing new.text.now old.text.now new.table.now old.table.now a row }
    requires finds_under { FindsUnder new.text.now new.table.now a (name_of old.text.now (word_of old.table.now row 1) (word_of old.table.now row 2)) required found }
    ensures { FieldDecided new.entry.text.now old.entry.text.now new.entry.table.now old.entry.table.now a row required result }
{
    match found {
        Some(value) => carried(new, old, value, row + 1),
        None => !required && is_json(old, row + 1),
    }
}
