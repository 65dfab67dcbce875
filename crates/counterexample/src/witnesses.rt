// A value that meets the new definition and fails the old one, where the new is not carried to the old.
ghost use Rattle.std.specs.Prelude.{length};
ghost use Rattle.comparison.specs.Carrying.{PairingTo};
ghost use Rattle.definitions.specs.declared.types.Generic.TheVariants.{Array, Map, Object};
ghost use Rattle.counterexample.specs.Writing.{FailingName, WitnessReady, WitnessTo, WitnessWritten};
ghost use Rattle.counterexample.specs.Writing.{MemberReady, MemberWritten, UnderReady, UnderWritten};

use comparison::{failing_field, find_under};
use definitions::{Generic, generic_at, of_objects};
use rows::Tree;
use samples::{write_beyond, write_bytes, write_name, write_others, write_sample};

// The row of the name in the old Object definition at row `b` under which the value fails; none where a sample of the new one at row `a` fails.
fn failing_name(new: Tree, old: Tree, a: usize, b: usize) -> Option<usize>
    requires { PairingTo new.text.now old.text.now new.table.now old.table.now a b Object }
    ensures { FailingName new.entry.text.now old.entry.text.now new.entry.table.now old.entry.table.now a b result }
{
    if !of_objects(new, a) {
        return None;
    }
    let required = old.find(b + 2, b"required");
    if let Some(row) = failing_field(new, old, a, required, true) {
        let name = old.row_at(row);
        find_under(new, a, old.between(name.first, name.end), true)?;
        return Some(row);
    }
    let optional = old.find(b + 2, b"optional");
    failing_field(new, old, a, optional, false)
}

// Writes the value for the new definition at row `a` and the old one at row `b`.
#[cycle(write_failing_write_no_array_write_no_map_write_no_object_write_under_write_witness)]
pub fn write_witness(new: Tree, old: Tree, a: usize, b: usize, out: &mut [u8]) -> usize
    requires { WitnessReady new.text.now old.text.now new.table.now old.table.now a b (length out.old) }
    ensures { WitnessWritten new.entry.text.now old.entry.text.now new.entry.table.now old.entry.table.now a b result out.old out.new }
{
    match generic_at(old, b) {
        Some(Generic::Array) => write_no_array(new, old, a, b, out),
        Some(Generic::Map) => write_no_map(new, old, a, b, out),
        Some(Generic::Object) => write_no_object(new, old, a, b, out),
        None => write_beyond(new, a, out),
    }
}

// The same where the old one is an Array: an element fails, or the value is no array.
#[cycle(write_failing_write_no_array_write_no_map_write_no_object_write_under_write_witness)]
fn write_no_array(new: Tree, old: Tree, a: usize, b: usize, out: &mut [u8]) -> usize
    requires { WitnessTo new.text.now old.text.now new.table.now old.table.now a b (length out.old) Array }
    ensures { WitnessWritten new.entry.text.now old.entry.text.now new.entry.table.now old.entry.table.now a b result out.old out.new }
{
    match generic_at(new, a) {
        Some(Generic::Array) => {
            out[0] = b'[';
            let n = 1 + write_witness(new, old, a + 2, b + 2, &mut out[1..]);
            out[n] = b']';
            n + 1
        }
        _ => write_sample(new, a, out),
    }
}

// The same where the old one is a Map: the value under a made-up name fails, or the value is no object. Not one function with `write_no_array`: only an
// Object, which is no Map, goes beyond here, and the bytes on both sides of the value would be three parameters more.
#[cycle(write_failing_write_no_array_write_no_map_write_no_object_write_under_write_witness)]
fn write_no_map(new: Tree, old: Tree, a: usize, b: usize, out: &mut [u8]) -> usize
    requires { WitnessTo new.text.now old.text.now new.table.now old.table.now a b (length out.old) Map }
    ensures { WitnessWritten new.entry.text.now old.entry.text.now new.entry.table.now old.entry.table.now a b result out.old out.new }
{
    match generic_at(new, a) {
        Some(Generic::Map) => {
            let mut n = write_bytes(b"{\"a\":", out);
            n += write_witness(new, old, a + 2, b + 2, &mut out[n..]);
            out[n] = b'}';
            n + 1
        }
        Some(Generic::Object) => write_beyond(new, a, out),
        _ => write_sample(new, a, out),
    }
}

// The same where the old one is an Object: the value under one of its names fails; or the value lacks a name, or is no object.
#[cycle(write_failing_write_no_array_write_no_map_write_no_object_write_under_write_witness)]
fn write_no_object(new: Tree, old: Tree, a: usize, b: usize, out: &mut [u8]) -> usize
    requires { WitnessTo new.text.now old.text.now new.table.now old.table.now a b (length out.old) Object }
    ensures { WitnessWritten new.entry.text.now old.entry.text.now new.entry.table.now old.entry.table.now a b result out.old out.new }
{
    match failing_name(new, old, a, b) {
        Some(row) => write_failing(new, old, a, row, out),
        None => write_sample(new, a, out),
    }
}

// Writes an object of the new definition at row `a` in which the value under the old field's name, at row `row`, fails.
#[cycle(write_failing_write_no_array_write_no_map_write_no_object_write_under_write_witness)]
fn write_failing(new: Tree, old: Tree, a: usize, row: usize, out: &mut [u8]) -> usize
    requires { MemberReady new.text.now old.text.now new.table.now old.table.now a row (length out.old) }
    ensures { MemberWritten new.entry.text.now old.entry.text.now new.entry.table.now old.entry.table.now a row result out.old out.new }
{
    let name = old.row_at(row);
    let key = old.between(name.first, name.end);
    let found = find_under(new, a, key, false);
    let mut n = write_name(old.text, name.first as usize, b'{', out);
    n += write_under(new, old, a, found, row, &mut out[n..]);
    n += write_others(new, a, key, &mut out[n..]);
    out[n] = b'}';
    n + 1
}

// Writes the value under that name, for which row `found` of the new definition was found, or none: then JSON is asked there, and null fails the old one.
#[cycle(write_failing_write_no_array_write_no_map_write_no_object_write_under_write_witness)]
fn write_under(
    new: Tree,
    old: Tree,
    a: usize,
    found: Option<usize>,
    row: usize,
    out: &mut [u8],
) -> usize
    requires { UnderReady new.text.now old.text.now new.table.now old.table.now a found row (length out.old) }
    ensures { UnderWritten new.entry.text.now old.entry.text.now new.entry.table.now old.entry.table.now a row result out.old out.new }
{
    match found {
        Some(value) => write_witness(new, old, value, row + 1, out),
        None => write_bytes(b"null", out),
    }
}
