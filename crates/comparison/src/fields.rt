// The definition that a definition has under a name, by its row: for one name, or for many at once.
ghost use Rattle.std.specs.Prelude.{◌≡◌, true, ◌≤◌, length, replicate, Some, None};
ghost use Rattle.chars.specs.Strings.{characters};
ghost use Rattle.syntax.specs.Holding.{word as word_of};
ghost use Rattle.definitions.specs.Shapes.{DefinedRow, GenericRow, FieldsRow};
ghost use Rattle.rows.specs.Matching.{most_names};
ghost use Rattle.rows.specs.Records.{ObjectRow};
ghost use Rattle.comparison.specs.Fields.{FindsField, FindsUnder, MatchesFields, MatchesUnder, ManyNames};
ghost use Rattle.definitions.specs.declared.types.Generic.TheVariants.{Object};

use definitions::{Generic, generic_at};
use rows::{FEW_NAMES, Tree, wide};

// The row of the definition under a name, given as the bytes between its quotes, in the fields at a row.
fn find_field(tree: Tree, fields: Option<usize>, key: &[u8]) -> Option<usize>
    requires { FieldsRow tree.text.now tree.table.now fields }
    ensures { FindsField tree.entry.text.now tree.entry.table.now fields (characters key.now) result }
{
    tree.find(fields?, key)
}

// The row of the definition under a name in the Object definition at a row, where `required` only of a required name.
fn find_in_object(tree: Tree, row: usize, key: &[u8], required: bool) -> Option<usize>
    requires defined_row { DefinedRow tree.text.now tree.table.now row }
    requires generic_row { GenericRow tree.text.now tree.table.now row (Some Object) }
    ensures { FindsUnder tree.entry.text.now tree.entry.table.now row (characters key.now) required result }
{
    let found = find_field(tree, tree.find(row + 2, b"required"), key);
    if required || found.is_some() {
        return found;
    }
    find_field(tree, tree.find(row + 2, b"optional"), key)
}

// The same in a definition of any kind: a Map's definition stands under every name, and none is required.
pub fn find_under(tree: Tree, row: usize, key: &[u8], required: bool) -> Option<usize>
    requires { DefinedRow tree.text.now tree.table.now row }
    ensures { FindsUnder tree.entry.text.now tree.entry.table.now row (characters key.now) required result }
{
    match generic_at(tree, row) {
        Some(Generic::Object) => find_in_object(tree, row, key, required),
        Some(Generic::Map) => (!required).then_some(row + 2),
        Some(Generic::Array) => None,
        None => None,
    }
}

// Whether a part of an Object definition, its fields at a row, has many names beside `names` others.
fn wide_part(tree: Tree, fields: Option<usize>, names: u32) -> bool
    requires { FieldsRow tree.text.now tree.table.now fields }
    ensures { result ≡ true → names ≤ most_names }
{
    match fields {
        Some(object) => wide(tree.row_at(object).children, names),
        None => false,
    }
}

// The same of a part of the Object definition at a row.
fn wide_object(tree: Tree, row: usize, names: u32) -> bool
    requires defined_row { DefinedRow tree.text.now tree.table.now row }
    requires generic_row { GenericRow tree.text.now tree.table.now row (Some Object) }
    ensures { result ≡ true → names ≤ most_names }
{
    wide_part(tree, tree.find(row + 2, b"required"), names)
        || wide_part(tree, tree.find(row + 2, b"optional"), names)
}

// Whether the definition at a row is an Object with many names, beside `names` others.
pub fn wide_under(tree: Tree, row: usize, names: u32) -> bool
    requires { DefinedRow tree.text.now tree.table.now row }
    ensures { result ≡ true → ManyNames tree.entry.text.now tree.entry.table.now row names }
{
    names >= FEW_NAMES
        && generic_at(tree, row) == Some(Generic::Object)
        && wide_object(tree, row, names)
}

// For each member at row `part` of another tree for which nothing is found yet: the definition under its name in the fields at a row.
fn match_fields<const NAMES: usize>(
    tree: Tree,
    fields: Option<usize>,
    other: Tree,
    part: usize,
    found: &mut [Option<usize>; NAMES],
)
    requires fields_row { FieldsRow tree.text.now tree.table.now fields × ObjectRow other.text.now other.table.now part }
    requires part_bound { (word_of other.table.now part 3 ≤ NAMES) × (length found.old ≡ NAMES) }
    requires places { NAMES ≤ 65536 }
    ensures { MatchesFields tree.entry.text.now tree.entry.table.now fields other.entry.text.now other.entry.table.now part found.old found.new }
{
    if let Some(object) = fields {
        tree.match_names(object, other, part, found);
    }
}

// For each member at row `part` of another tree what `find_in_object` finds in the Object definition at a row.
pub fn match_under<const NAMES: usize>(
    tree: Tree,
    row: usize,
    other: Tree,
    part: usize,
    required: bool,
    found: &mut [Option<usize>; NAMES],
)
    requires defined_row { DefinedRow tree.text.now tree.table.now row × GenericRow tree.text.now tree.table.now row (Some Object) }
    requires object_row { ObjectRow other.text.now other.table.now part }
    requires part_bound { (word_of other.table.now part 3 ≤ NAMES) × (found.old ≡ replicate NAMES None) }
    requires places { NAMES ≤ 65536 }
    ensures { MatchesUnder tree.entry.text.now tree.entry.table.now row other.entry.text.now other.entry.table.now part required found.new }
{
    match_fields(tree, tree.find(row + 2, b"required"), other, part, found);
    if !required {
        match_fields(tree, tree.find(row + 2, b"optional"), other, part, found);
    }
}
