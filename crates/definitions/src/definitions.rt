// What is a definition, and the first fault of a value that is none (01, "Definitions").
ghost use Rattle.std.specs.Prelude.{◌≡◌};
ghost use Rattle.chars.specs.Strings.{characters};
ghost use Rattle.rows.specs.Records.{InTable, Rowed, ObjectRow, PartRow};
ghost use Rattle.definitions.specs.Definitions.{fault_number, fault, kind_fault, PartUnder, Defines, DefinesBody, DefinesFields, Shares};

use crate::types::{Generic, generic_name, named_type};
use chars::same_name;
use rows::Tree;

// Why a value is no definition.
#[derive(Clone, Copy, Debug, PartialEq, Eq)]
pub enum FaultCode {
    NoDefinition,
    UnknownType,
    SharedName,
}

impl From<FaultCode> for u32 {
    ghost from_gives = { λ code n. n ≡ fault_number code };

    // The number of a code in an answer.
    fn from(code: FaultCode) -> u32 {
        match code {
            FaultCode::NoDefinition => 10,
            FaultCode::UnknownType => 11,
            FaultCode::SharedName => 12,
        }
    }
}

// A fault: what is wrong, and at which place.
#[derive(Clone, Copy, Debug, PartialEq, Eq)]
pub struct Fault {
    pub code: FaultCode,
    pub place: u32,
}

impl Fault {
    fn at(code: FaultCode, place: u32) -> Self
        ensures { result ≡ fault code place }
    {
        Self { code, place }
    }
}

// That the value at a row is an object.
fn object_at(tree: Tree, row: usize) -> Result<(), Fault>
    requires { InTable tree.table.now row }
    ensures { result ≡ kind_fault tree.entry.table.now row }
{
    let value = tree.row_at(row);
    if value.kind != 8 {
        return Err(Fault::at(FaultCode::NoDefinition, value.first));
    }
    Ok(())
}

// The row of the object under a name, given as the bytes between its quotes, in the object at a row, where anything stands there.
// It is inlined, as are the body and the fields below: a tree that comes in only to be handed on is copied at once, for which the processor waits.
#[inline(always)]
fn part_under(tree: Tree, body: usize, key: &[u8]) -> Result<Option<usize>, Fault>
    requires { ObjectRow tree.text.now tree.table.now body }
    ensures { PartUnder tree.entry.text.now tree.entry.table.now body (characters key.now) result }
{
    let part = tree.find(body, key);
    if let Some(row) = part {
        object_at(tree, row)?;
    }
    Ok(part)
}

// The first name of the optional members that a required member has too, by the rows of their objects, where there are any.
// It is not: with its loops in the code of `define`, Check of the widest schema takes up to half more time.
#[inline(never)]
fn first_shared(tree: Tree, required: Option<usize>, optional: Option<usize>) -> Result<(), Fault>
    requires part_row { PartRow tree.text.now tree.table.now required }
    requires part_row_2 { PartRow tree.text.now tree.table.now optional }
    ensures { Shares tree.entry.text.now tree.entry.table.now required optional result }
{
    let Some(required) = required else {
        return Ok(());
    };
    let Some(optional) = optional else {
        return Ok(());
    };
    let mut shared = Ok(());
    'names: for row in tree.members(optional) {
        let name = tree.row_at(row);
        let key = tree.between(name.first, name.end);
        for other in tree.members(required) {
            let next = tree.row_at(other);
            if same_name(key, tree.between(next.first, next.end)) {
                shared = Err(Fault::at(FaultCode::SharedName, name.first));
                break 'names;
            }
        }
    }
    shared
}

// The first fault of the value at a row as a definition.
#[cycle(define_define_body_define_fields)]
pub fn define(tree: Tree, row: usize) -> Result<(), Fault>
    requires { Rowed tree.text.now tree.table.now row }
    ensures { Defines tree.entry.text.now tree.entry.table.now row result }
{
    let value = tree.row_at(row);
    if value.kind == 6 {
        return match named_type(tree.between(value.first, value.end)) {
            Some(_) => Ok(()),
            None => Err(Fault::at(FaultCode::UnknownType, value.first)),
        };
    }
    if value.kind != 8 || value.children != 1 {
        return Err(Fault::at(FaultCode::NoDefinition, value.first));
    }
    let name = tree.row_at(row + 1);
    let Some(generic) = generic_name(tree.between(name.first, name.end)) else {
        return Err(Fault::at(FaultCode::UnknownType, name.first));
    };
    match generic {
        Generic::Array | Generic::Map => define(tree, row + 2),
        Generic::Object => define_body(tree, row + 2),
    }
}

// The first fault of the value at a row as the body of an Object.
#[cycle(define_define_body_define_fields)]
#[inline(always)]
fn define_body(tree: Tree, row: usize) -> Result<(), Fault>
    requires { Rowed tree.text.now tree.table.now row }
    ensures { DefinesBody tree.entry.text.now tree.entry.table.now row result }
{
    object_at(tree, row)?;
    let required = part_under(tree, row, b"required")?;
    let optional = part_under(tree, row, b"optional")?;
    first_shared(tree, required, optional)?;
    define_fields(tree, required)?;
    define_fields(tree, optional)
}

// The first fault of the definitions under the names of the object at a row, where there is one.
#[cycle(define_define_body_define_fields)]
#[inline(always)]
fn define_fields(tree: Tree, fields: Option<usize>) -> Result<(), Fault>
    requires { PartRow tree.text.now tree.table.now fields }
    ensures { DefinesFields tree.entry.text.now tree.entry.table.now fields result }
{
    let Some(object) = fields else {
        return Ok(());
    };
    for row in tree.members(object) {
        define(tree, row + 1)?;
    }
    Ok(())
}
