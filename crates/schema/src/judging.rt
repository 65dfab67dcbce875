// The first mismatch of a document's value with a definition (01, "Definitions": "First misfit"). The dates are counted on the way.
ghost use Rattle.std.specs.Prelude.{◌≡◌, ◌≤◌, length, replicate, Some, None};
ghost use Rattle.syntax.specs.Holding.{word as word_of};
ghost use Rattle.rows.specs.Records.{Rowed};
ghost use Rattle.rows.specs.Matching.{most_names, Matches};
ghost use Rattle.schema.specs.Judging.{mismatch, mismatch_number, unless as unlessOf};
ghost use Rattle.schema.specs.Walks.{Judgeable, Judged, JudgedDate, NameJudgeable, ArrayJudgeable, MapJudgeable, BodyJudgeable};
ghost use Rattle.schema.specs.Walks.{FieldsJudgeable, FieldsJudged, FieldJudgeable, FieldJudged};

use crate::dates::Dates;
use date::moment_of;
use definitions::{Generic, TypeName, define, generic_at, type_at};
use rows::{FEW_NAMES, MOST_NAMES, SOME_NAMES, Tree, wide};

// Why a value does not meet a definition.
#[derive(Clone, Copy, Debug, PartialEq, Eq)]
pub enum MismatchCode {
    WrongKind,
    MissingName,
    NoDate,
}

impl From<MismatchCode> for u32 {
    ghost from_gives = { λ code n. n ≡ mismatch_number code };

    // The number of a code in an answer.
    fn from(code: MismatchCode) -> u32 {
        match code {
            MismatchCode::WrongKind => 20,
            MismatchCode::MissingName => 21,
            MismatchCode::NoDate => 22,
        }
    }
}

// A mismatch: what is wrong, with the place in the document and the other in the schema.
#[derive(Clone, Copy, Debug, PartialEq, Eq)]
pub struct Mismatch {
    pub code: MismatchCode,
    pub place: u32,
    pub other: u32,
}

impl Mismatch {
    fn new(code: MismatchCode, place: u32, other: u32) -> Self
        ensures { result ≡ mismatch code place other }
    {
        Self { code, place, other }
    }
}

// A mismatch for a wrong kind of value, where it does not fit.
fn unless(fits: bool, place: u32, other: u32) -> Result<(), Mismatch>
    ensures { result ≡ unlessOf fits place other }
{
    if fits {
        return Ok(());
    }
    Err(Mismatch::new(MismatchCode::WrongKind, place, other))
}

// The value at a row against DateTime, whose definition begins at `other`.
fn judge_date(document: Tree, at: usize, other: u32, dates: &mut Dates) -> Result<(), Mismatch>
    requires { Rowed document.text.now document.table.now at }
    ensures { JudgedDate document.entry.text.now document.entry.table.now at other result dates.old dates.new }
{
    let value = document.row_at(at);
    unless(value.kind == 6, value.first, other)?;
    let Some(moment) = moment_of(document.between(value.first, value.end)) else {
        return Err(Mismatch::new(MismatchCode::NoDate, value.first, other));
    };
    dates.add(moment);
    Ok(())
}

// The value at row `at` of the document against the type name at row `by` of the schema.
fn judge_named(
    document: Tree,
    schema: Tree,
    at: usize,
    by: usize,
    dates: &mut Dates,
) -> Result<(), Mismatch>
    requires { NameJudgeable document.text.now schema.text.now document.table.now schema.table.now at by }
    ensures { Judged document.entry.text.now schema.entry.text.now document.entry.table.now schema.entry.table.now at by
        result dates.old dates.new }
{
    let value = document.row_at(at);
    let other = schema.row_at(by).first;
    match type_at(schema, by).unwrap() {
        TypeName::DateTime => judge_date(document, at, other, dates),
        TypeName::Schema => unless(define(document, at).is_ok(), value.first, other),
        name => unless(name.takes(value.kind), value.first, other),
    }
}

// The first mismatch of the value at row `at` of the document with the definition at row `by` of the schema.
#[cycle(judge_judge_array_judge_field_judge_fields_judge_found_judge_map_judge_object_judge_wide_judge_widest)]
pub fn judge(
    document: Tree,
    schema: Tree,
    at: usize,
    by: usize,
    dates: &mut Dates,
) -> Result<(), Mismatch>
    requires { Judgeable document.text.now schema.text.now document.table.now schema.table.now at by }
    ensures { Judged document.entry.text.now schema.entry.text.now document.entry.table.now schema.entry.table.now at by
        result dates.old dates.new }
{
    match generic_at(schema, by) {
        None => judge_named(document, schema, at, by, dates),
        Some(Generic::Array) => judge_array(document, schema, at, by, dates),
        Some(Generic::Map) => judge_map(document, schema, at, by, dates),
        Some(Generic::Object) => judge_object(document, schema, at, by, dates),
    }
}

// The same of a definition under Array.
#[cycle(judge_judge_array_judge_field_judge_fields_judge_found_judge_map_judge_object_judge_wide_judge_widest)]
fn judge_array(
    document: Tree,
    schema: Tree,
    at: usize,
    by: usize,
    dates: &mut Dates,
) -> Result<(), Mismatch>
    requires { ArrayJudgeable document.text.now schema.text.now document.table.now schema.table.now at by }
    ensures { Judged document.entry.text.now schema.entry.text.now document.entry.table.now schema.entry.table.now at by
        result dates.old dates.new }
{
    let value = document.row_at(at);
    unless(value.kind == 7, value.first, schema.row_at(by).first)?;
    for row in document.elements(at) {
        judge(document, schema, row, by + 2, dates)?;
    }
    Ok(())
}

// The same of a definition under Map. One function for both would take the children as an iterator of either kind, and be no plainer than these two.
#[cycle(judge_judge_array_judge_field_judge_fields_judge_found_judge_map_judge_object_judge_wide_judge_widest)]
fn judge_map(
    document: Tree,
    schema: Tree,
    at: usize,
    by: usize,
    dates: &mut Dates,
) -> Result<(), Mismatch>
    requires { MapJudgeable document.text.now schema.text.now document.table.now schema.table.now at by }
    ensures { Judged document.entry.text.now schema.entry.text.now document.entry.table.now schema.entry.table.now at by
        result dates.old dates.new }
{
    let value = document.row_at(at);
    unless(value.kind == 8, value.first, schema.row_at(by).first)?;
    for row in document.members(at) {
        judge(document, schema, row + 1, by + 2, dates)?;
    }
    Ok(())
}

// The same of a definition under Object.
#[cycle(judge_judge_array_judge_field_judge_fields_judge_found_judge_map_judge_object_judge_wide_judge_widest)]
fn judge_object(
    document: Tree,
    schema: Tree,
    at: usize,
    by: usize,
    dates: &mut Dates,
) -> Result<(), Mismatch>
    requires { BodyJudgeable document.text.now schema.text.now document.table.now schema.table.now at by }
    ensures { Judged document.entry.text.now schema.entry.text.now document.entry.table.now schema.entry.table.now at by
        result dates.old dates.new }
{
    let value = document.row_at(at);
    unless(value.kind == 8, value.first, schema.row_at(by).first)?;
    let required = schema.find(by + 2, b"required");
    let optional = schema.find(by + 2, b"optional");
    if value.children < FEW_NAMES {
        judge_fields(document, schema, at, required, true, dates)?;
        return judge_fields(document, schema, at, optional, false, dates);
    }
    judge_wide(document, schema, at, required, true, dates)?;
    judge_wide(document, schema, at, optional, false, dates)
}

// The object at row `at` of the document against the fields of the object at a row of the schema, in their order, where there is one.
// It is inlined: a tree that comes in only to be handed on is copied at once, for which the processor waits.
#[cycle(judge_judge_array_judge_field_judge_fields_judge_found_judge_map_judge_object_judge_wide_judge_widest)]
#[inline(always)]
fn judge_fields(
    document: Tree,
    schema: Tree,
    at: usize,
    fields: Option<usize>,
    required: bool,
    dates: &mut Dates,
) -> Result<(), Mismatch>
    requires { FieldsJudgeable document.text.now schema.text.now document.table.now schema.table.now at fields }
    ensures { FieldsJudged document.entry.text.now schema.entry.text.now document.entry.table.now schema.entry.table.now at fields required
        result dates.old dates.new }
{
    let Some(object) = fields else {
        return Ok(());
    };
    for row in schema.members(object) {
        let name = schema.row_at(row);
        let value = document.find(at, schema.between(name.first, name.end));
        judge_field(document, schema, at, value, row, required, dates)?;
    }
    Ok(())
}

// The same of an object with many members: where the fields are many too, each name is looked up by an index, in room by how many they are. All of
// the room is cleared, so up to `SOME_NAMES` are given less; and each room has a frame of its own.
#[cycle(judge_judge_array_judge_field_judge_fields_judge_found_judge_map_judge_object_judge_wide_judge_widest)]
#[inline(never)]
fn judge_wide(
    document: Tree,
    schema: Tree,
    at: usize,
    fields: Option<usize>,
    required: bool,
    dates: &mut Dates,
) -> Result<(), Mismatch>
    requires { FieldsJudgeable document.text.now schema.text.now document.table.now schema.table.now at fields }
    ensures { FieldsJudged document.entry.text.now schema.entry.text.now document.entry.table.now schema.entry.table.now at fields required
        result dates.old dates.new }
{
    let Some(object) = fields else {
        return Ok(());
    };
    let names = schema.row_at(object).children;
    if !wide(document.row_at(at).children, names) {
        return judge_fields(document, schema, at, fields, required, dates);
    }
    if names as usize > SOME_NAMES {
        return judge_widest(document, schema, at, object, required, dates);
    }
    let mut values = [None; SOME_NAMES];
    document.match_names(at, schema, object, &mut values);
    judge_found(document, schema, at, object, &values, required, dates)
}

// The same of fields at a row, in room for the most names.
#[cycle(judge_judge_array_judge_field_judge_fields_judge_found_judge_map_judge_object_judge_wide_judge_widest)]
#[inline(never)]
fn judge_widest(
    document: Tree,
    schema: Tree,
    at: usize,
    object: usize,
    required: bool,
    dates: &mut Dates,
) -> Result<(), Mismatch>
    requires judgeable { FieldsJudgeable document.text.now schema.text.now document.table.now schema.table.now at (Some object) }
    requires few { word_of schema.table.now object 3 ≤ most_names }
    ensures { FieldsJudged document.entry.text.now schema.entry.text.now document.entry.table.now schema.entry.table.now at (Some object) required
        result dates.old dates.new }
{
    let mut values = [None; MOST_NAMES];
    document.match_names(at, schema, object, &mut values);
    judge_found(document, schema, at, object, &values, required, dates)
}

// The same where what stands under each of their names was found.
// The loop stands here once more, since one that takes a closure for what is found would be no shorter than both.
#[cycle(judge_judge_array_judge_field_judge_fields_judge_found_judge_map_judge_object_judge_wide_judge_widest)]
fn judge_found(
    document: Tree,
    schema: Tree,
    at: usize,
    object: usize,
    values: &[Option<usize>],
    required: bool,
    dates: &mut Dates,
) -> Result<(), Mismatch>
    requires judgeable { FieldsJudgeable document.text.now schema.text.now document.table.now schema.table.now at (Some object) }
    requires few { word_of schema.table.now object 3 ≤ length values.now }
    requires matches { Matches document.text.now document.table.now at schema.text.now schema.table.now object
        (replicate (length values.now) None) values.now }
    ensures { FieldsJudged document.entry.text.now schema.entry.text.now document.entry.table.now schema.entry.table.now at (Some object) required
        result dates.old dates.new }
{
    for (i, row) in schema.members(object).enumerate() {
        judge_field(document, schema, at, values[i], row, required, dates)?;
    }
    Ok(())
}

// The same of one field, its name at row `row`: its value was found at row `value` of the document, if at all.
#[cycle(judge_judge_array_judge_field_judge_fields_judge_found_judge_map_judge_object_judge_wide_judge_widest)]
fn judge_field(
    document: Tree,
    schema: Tree,
    at: usize,
    value: Option<usize>,
    row: usize,
    required: bool,
    dates: &mut Dates,
) -> Result<(), Mismatch>
    requires { FieldJudgeable document.text.now schema.text.now document.table.now schema.table.now at value row }
    ensures { FieldJudged document.entry.text.now schema.entry.text.now document.entry.table.now schema.entry.table.now at value row required
        result dates.old dates.new }
{
    if let Some(found) = value {
        return judge(document, schema, found, row + 1, dates);
    }
    if !required {
        return Ok(());
    }
    let brace = document.row_at(at).first;
    let name = schema.row_at(row);
    Err(Mismatch::new(MismatchCode::MissingName, brace, name.first))
}
