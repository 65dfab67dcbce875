// A value of every definition: an object has the required members alone.
ghost use Rattle.std.specs.Prelude.{◌≡◌, length, option_map};
ghost use Rattle.tokens.specs.Spelling.{IsQuoted};
ghost use Rattle.chars.specs.Strings.{characters};
ghost use Rattle.syntax.specs.Grammar.{name_of};
ghost use Rattle.syntax.specs.Holding.{word as word_of};
ghost use Rattle.rows.specs.Records.{InTable};
ghost use Rattle.samples.specs.Writing.{keeps as keepsName, SampleReady, SampleWritten, FieldReady, FieldWritten, FieldsReady, FieldsWritten};
ghost use Rattle.samples.specs.Writing.{RequiredReady, RequiredWritten, OthersReady, OthersWritten};

use crate::pieces::{plain_bytes, write_bytes, write_name};
use chars::same_name;
use definitions::{Generic, generic_at, type_at};
use rows::Tree;

// Writes a value of the definition at a row.
#[cycle(write_field_write_fields_write_required_write_sample)]
pub fn write_sample(tree: Tree, row: usize, out: &mut [u8]) -> usize
    requires { SampleReady tree.text.now tree.table.now row (length out.old) }
    ensures { SampleWritten tree.entry.text.now tree.entry.table.now row result out.old out.new }
{
    match generic_at(tree, row) {
        Some(Generic::Array) => write_bytes(b"[]", out),
        Some(Generic::Map) => write_bytes(b"{}", out),
        Some(Generic::Object) => write_required(tree, tree.find(row + 2, b"required"), out),
        None => write_bytes(plain_bytes(type_at(tree, row)), out),
    }
}

// Writes an object with a value of each of the fields at a row.
#[cycle(write_field_write_fields_write_required_write_sample)]
fn write_required(tree: Tree, fields: Option<usize>, out: &mut [u8]) -> usize
    requires { RequiredReady tree.text.now tree.table.now fields (length out.old) }
    ensures { RequiredWritten tree.entry.text.now tree.entry.table.now fields result out.old out.new }
{
    let n = write_fields(tree, fields, None, out);
    if n == 0 {
        return write_bytes(b"{}", out);
    }
    out[0] = b'{';
    out[n] = b'}';
    n + 1
}

// Whether the field whose name is at a row is none that is left out.
fn keeps(tree: Tree, row: usize, but: Option<&[u8]>) -> bool
    requires in_table { InTable tree.table.now row }
    requires quoted { IsQuoted tree.text.now (word_of tree.table.now row 1) (word_of tree.table.now row 2) }
    ensures { result ≡ keepsName (option_map (λ key. characters key.now) but.entry)
        (name_of tree.entry.text.now (word_of tree.entry.table.now row 1) (word_of tree.entry.table.now row 2)) }
{
    match but {
        Some(key) => {
            let name = tree.row_at(row);
            !same_name(key, tree.between(name.first, name.end))
        }
        None => true,
    }
}

// Writes a member for each of the fields at a row but one that is left out: each behind a comma.
#[cycle(write_field_write_fields_write_required_write_sample)]
pub fn write_fields(tree: Tree, fields: Option<usize>, but: Option<&[u8]>, out: &mut [u8]) -> usize
    requires { FieldsReady tree.text.now tree.table.now fields (option_map (λ key. characters key.now) but) (length out.old) }
    ensures { FieldsWritten tree.entry.text.now tree.entry.table.now fields (option_map (λ key. characters key.now) but.entry) result out.old out.new }
{
    let Some(object) = fields else {
        return 0;
    };
    let mut n = 0;
    for row in tree.members(object) {
        if keeps(tree, row, but) {
            n += write_field(tree, row, &mut out[n..]);
        }
    }
    n
}

// Writes a member for the field whose name is at a row, behind a comma.
#[cycle(write_field_write_fields_write_required_write_sample)]
fn write_field(tree: Tree, row: usize, out: &mut [u8]) -> usize
    requires { FieldReady tree.text.now tree.table.now row (length out.old) }
    ensures { FieldWritten tree.entry.text.now tree.entry.table.now row result out.old out.new }
{
    let n = write_name(tree.text, tree.row_at(row).first as usize, b',', out);
    n + write_sample(tree, row + 1, &mut out[n..])
}

// Writes a member for each name that the definition at a row asks for but the key, each behind a comma.
pub fn write_others(tree: Tree, row: usize, key: &[u8], out: &mut [u8]) -> usize
    requires { OthersReady tree.text.now tree.table.now row (characters key.now) (length out.old) }
    ensures { OthersWritten tree.entry.text.now tree.entry.table.now row (characters key.now) result out.old out.new }
{
    if generic_at(tree, row) != Some(Generic::Object) {
        return 0;
    }
    write_fields(tree, tree.find(row + 2, b"required"), Some(key), out)
}
