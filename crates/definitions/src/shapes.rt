// What a definition is, by its row: the type or the generic type that it names (01, "Definitions").
ghost use Rattle.definitions.specs.Shapes.{DefinedRow, TypeRow, GenericRow, OfObjectsRow};

use crate::types::{Generic, TypeName, generic_name, named_type};
use rows::Tree;

// The type that the definition at a row names, where it is a type name.
pub fn type_at(tree: Tree, row: usize) -> Option<TypeName>
    requires { DefinedRow tree.text.now tree.table.now row }
    ensures { TypeRow tree.entry.text.now tree.entry.table.now row result }
{
    let definition = tree.row_at(row);
    if definition.kind != 6 {
        return None;
    }
    named_type(tree.between(definition.first, definition.end))
}

// The generic type of the definition at a row, where it is no type name.
pub fn generic_at(tree: Tree, row: usize) -> Option<Generic>
    requires { DefinedRow tree.text.now tree.table.now row }
    ensures { GenericRow tree.entry.text.now tree.entry.table.now row result }
{
    if tree.row_at(row).kind == 6 {
        return None;
    }
    let name = tree.row_at(row + 1);
    generic_name(tree.between(name.first, name.end))
}

// Whether only objects meet the definition at a row.
pub fn of_objects(tree: Tree, row: usize) -> bool
    requires { DefinedRow tree.text.now tree.table.now row }
    ensures { OfObjectsRow tree.entry.text.now tree.entry.table.now row result }
{
    match generic_at(tree, row) {
        Some(generic) => matches!(generic, Generic::Map | Generic::Object),
        None => false,
    }
}
