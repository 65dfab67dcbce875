// A name that a definition does not name, letter by letter: each time the one of two with which fewer of its names go on. It has at most 13.
ghost use Rattle.std.specs.Prelude.{◌≡◌, length, Some};
ghost use Rattle.model.specs.Witness.{begins as beginsWith};
ghost use Rattle.chars.specs.Strings.{characters};
ghost use Rattle.definitions.specs.Shapes.{DefinedRow, GenericRow, FieldsRow};
ghost use Rattle.definitions.specs.declared.types.Generic.TheVariants.{Object};
ghost use Rattle.samples.specs.Writing.{CountsFields, CountsNames, LettersReady, LettersWritten, BeyondReady, BeyondWritten};

use crate::pieces::{apart_bytes, write_bytes};
use crate::values::write_fields;
use chars::character_at;
use definitions::{Generic, generic_at, type_at};
use rows::Tree;

// Whether a name, given as the bytes between its quotes, begins with the letters.
fn begins(letters: &[u8], name: &[u8]) -> bool
    ensures { result ≡ beginsWith letters.now (characters name.now) }
{
    let mut at = 0;
    for letter in letters {
        let Some(character) = character_at(name, at) else {
            return false;
        };
        if character.value != u32::from(*letter) {
            return false;
        }
        at = character.next;
    }
    true
}

// How many names of the fields at a row begin with the letters.
fn count_fields(tree: Tree, fields: Option<usize>, letters: &[u8]) -> usize
    requires { FieldsRow tree.text.now tree.table.now fields }
    ensures { CountsFields tree.entry.text.now tree.entry.table.now fields letters.now result }
{
    let Some(object) = fields else {
        return 0;
    };
    let mut n = 0;
    for row in tree.members(object) {
        let name = tree.row_at(row);
        if begins(letters, tree.between(name.first, name.end)) {
            n += 1;
        }
    }
    n
}

// How many names of the Object definition at a row do.
fn count_names(tree: Tree, row: usize, letters: &[u8]) -> usize
    requires defined_row { DefinedRow tree.text.now tree.table.now row }
    requires generic_row { GenericRow tree.text.now tree.table.now row (Some Object) }
    ensures { CountsNames tree.entry.text.now tree.entry.table.now row letters.now result }
{
    count_fields(tree, tree.find(row + 2, b"required"), letters)
        + count_fields(tree, tree.find(row + 2, b"optional"), letters)
}

// Writes the letters, until no name goes on with them: how many they are nobody knows before.
fn write_letters(tree: Tree, row: usize, out: &mut [u8]) -> usize
    requires { LettersReady tree.text.now tree.table.now row (length out.old) }
    ensures { LettersWritten tree.entry.text.now tree.entry.table.now row result out.old out.new }
{
    out[0] = b'a';
    let mut n = 1;
    while count_names(tree, row, &out[..n]) > 0 {
        out[n] = b'b';
        let other = count_names(tree, row, &out[..n + 1]);
        out[n] = b'a';
        if count_names(tree, row, &out[..n + 1]) > other {
            out[n] = b'b';
        }
        n += 1;
    }
    n
}

// Writes a value of the Object definition at a row that has one member more.
fn write_beside(tree: Tree, row: usize, out: &mut [u8]) -> usize
    requires beyond_ready { BeyondReady tree.text.now tree.table.now row (length out.old) }
    requires generic_row { GenericRow tree.text.now tree.table.now row (Some Object) }
    ensures { BeyondWritten tree.entry.text.now tree.entry.table.now row result out.old out.new }
{
    out[0] = b'{';
    out[1] = b'"';
    let mut n = 2 + write_letters(tree, row, &mut out[2..]);
    n += write_bytes(b"\":null", &mut out[n..]);
    let fields = tree.find(row + 2, b"required");
    n += write_fields(tree, fields, None, &mut out[n..]);
    out[n] = b'}';
    n + 1
}

// Writes a value of the definition at a row that meets only the named types that take all of it.
pub fn write_beyond(tree: Tree, row: usize, out: &mut [u8]) -> usize
    requires { BeyondReady tree.text.now tree.table.now row (length out.old) }
    ensures { BeyondWritten tree.entry.text.now tree.entry.table.now row result out.old out.new }
{
    match generic_at(tree, row) {
        Some(Generic::Array) => write_bytes(b"[]", out),
        Some(Generic::Map) => write_bytes(b"{}", out),
        Some(Generic::Object) => write_beside(tree, row, out),
        None => write_bytes(apart_bytes(type_at(tree, row)), out),
    }
}
