// The first pass: judges a text and keeps its rows, and touches no table.
ghost use Rattle.std.specs.Prelude.{◌≡◌, ◌+◌, ◌<◌, false, length, set};
ghost use Rattle.tokens.specs.Space.{is_space, skip as skipped};
ghost use Rattle.syntax.specs.Grammar.{leaf_at, value_at, array_at, object_at};
ghost use Rattle.marks.specs.Marks.{branch_number, list_mark};
ghost use Rattle.reader.specs.Scanning.{scanned, Begun, LeafReady, LeafTold, ListFits, Follows, Ready, Told, MemberReady, MemberTold};

use chars::{Code, Reading, Refusal, peek};
use marks::{Branch, leaf_mark, list_mark, name, push};
use tokens::{First, Kind, first_at, integer_end, scalar, skip, unexpected};

// Where a value ends, and how many rows it has.
#[derive(Clone, Copy, Debug, PartialEq, Eq)]
pub struct Scanned {
    pub end: usize,
    pub rows: usize,
}

// The value at a place that holds no other, by what it begins with.
fn leaf(first: First, text: &[u8], marks: &mut [u64], row: usize, at: usize) -> Reading<Scanned>
    requires { LeafReady text.now marks.old row at × Begun text.now at first }
    ensures { LeafTold (leaf_at text.now at) result row marks.old marks.new }
{
    let token = scalar(first, text, at)?;
    marks[row] = leaf_mark(u32::from(token.kind), at, token.end);
    Ok(Scanned {
        end: token.end,
        rows: 1,
    })
}

// What stands behind an item and the space after it: the closing byte, a comma with the next item behind it, or neither.
#[derive(Clone, Copy, Debug, PartialEq, Eq)]
pub enum Following {
    Closing { end: usize },
    Item { at: usize },
    Other { at: usize },
}

// The same by the byte at a place.
fn follows(text: &[u8], at: usize, closing: u8) -> Following
    requires { 0 < closing }
    ensures { Follows closing text.now at result }
{
    let b = peek(text, at);
    if b == closing {
        return Following::Closing { end: at + 1 };
    }
    if b != b',' {
        return Following::Other { at };
    }
    Following::Item {
        at: skip(text, at + 1),
    }
}

// The same behind an item that ends at a place. Most have no space after them.
fn behind(text: &[u8], end: usize, closing: u8) -> Following
    requires { (0 < closing) × (is_space closing ≡ false) }
    ensures { Follows closing text.now (skipped text.now end) result }
{
    let r = follows(text, end, closing);
    match r {
        Following::Other { at } => follows(text, skip(text, at), closing),
        _ => r,
    }
}

// As `skip`, and at once where the byte `sign`, which is no space, stands already.
fn skip_to(text: &[u8], at: usize, sign: u8) -> usize
    requires { is_space sign ≡ false }
    ensures { result ≡ skipped text.now at }
{
    if peek(text, at) == sign {
        return at;
    }
    skip(text, at)
}

// Keeps the row of an array or an object.
fn close(
    marks: &mut [u64],
    branch: Branch,
    row: usize,
    at: usize,
    end: usize,
    children: usize,
    rows: usize,
) -> Scanned
    requires { ListFits (branch_number branch) at end children rows row (length marks.old) }
    ensures value { result ≡ scanned end rows }
    ensures marks_after { marks.new ≡ set marks.old row (list_mark (branch_number branch) at end children rows) }
{
    marks[row] = list_mark(usize::from(branch), at, end, children, rows);
    Scanned { end, rows }
}

// The value at a place, by what it begins with, with `depth` more brackets allowed to open, and the marks free from `row` on.
#[cycle(array_item_member_object_value)]
pub fn value(
    first: First,
    text: &[u8],
    heads: &mut [u16],
    marks: &mut [u64],
    row: usize,
    at: usize,
    depth: usize,
) -> Reading<Scanned>
    requires { Ready text.now heads.old marks.old depth row at × Begun text.now at first }
    ensures { Told text.now (value_at depth text.now at) result row marks.old heads.new marks.new }
{
    match first {
        First::Array | First::Object => {}
        _ => {
            return leaf(first, text, marks, row, at);
        }
    }
    if depth == 0 {
        return Err(Refusal {
            code: Code::TooDeep,
            place: at,
        });
    }
    match first {
        First::Array => array(text, heads, marks, row, at, depth - 1),
        _ => object(text, heads, marks, row, at, depth - 1),
    }
}

// The value at a place, an element or what stands under a name. Most numbers are digits alone, perhaps behind a minus, and begin with no 0: these are told without a further call.
#[cycle(array_item_member_object_value)]
fn item(
    text: &[u8],
    heads: &mut [u16],
    marks: &mut [u64],
    row: usize,
    at: usize,
    depth: usize,
) -> Reading<Scanned>
    requires { Ready text.now heads.old marks.old depth row at }
    ensures { Told text.now (value_at depth text.now at) result row marks.old heads.new marks.new }
{
    let first = first_at(text, at);
    if let First::Number = first {
        if let Some(end) = integer_end(text, at) {
            marks[row] = leaf_mark(u32::from(Kind::Whole), at, end);
            return Ok(Scanned { end, rows: 1 });
        }
    }
    value(first, text, heads, marks, row, at, depth)
}

// The array whose bracket stands at a place. Where an item begins is told by the one before it, so there is nothing to iterate over; so in `object`.
// The room is lent as two slices, `heads` and `marks`: lent as one struct, it keeps `item` out of the loops around it, and Read takes 4 to 15 % more
// instructions, of nested brackets a third more time.
#[cycle(array_item_member_object_value)]
fn array(
    text: &[u8],
    heads: &mut [u16],
    marks: &mut [u64],
    row: usize,
    at: usize,
    depth: usize,
) -> Reading<Scanned>
    requires { Ready text.now heads.old marks.old (depth + 1) row at × (at < length text.now) }
    ensures { Told text.now (array_at (value_at depth text.now) text.now at) result row marks.old heads.new marks.new }
{
    let mut i = skip(text, at + 1);
    if peek(text, i) == b']' {
        return Ok(close(marks, Branch::Array, row, at, i + 1, 0, 1));
    }
    let mut rows: usize = 1;
    let mut children: usize = 0;
    loop {
        let scanned = item(text, heads, marks, row + rows, i, depth)?;
        rows += scanned.rows;
        children += 1;
        match behind(text, scanned.end, b']') {
            Following::Closing { end } => {
                return Ok(close(marks, Branch::Array, row, at, end, children, rows));
            }
            Following::Item { at: next } => {
                i = next;
            }
            Following::Other { at: other } => {
                return Err(unexpected(text, other));
            }
        }
    }
}

// The member at a place of the object at row `object`, with the marks free from `row` on.
#[cycle(array_item_member_object_value)]
fn member(
    text: &[u8],
    heads: &mut [u16],
    marks: &mut [u64],
    object: usize,
    row: usize,
    at: usize,
    depth: usize,
) -> Reading<Scanned>
    requires { MemberReady text.now heads.old marks.old depth object row at }
    ensures { MemberTold text.now depth result object row at marks.old heads.new marks.new }
{
    let named = name(text, heads, marks, object, at)?;
    push(heads, marks, row, at, named.end, named.hash as usize);
    let colon = skip_to(text, named.end, b':');
    if peek(text, colon) != b':' {
        return Err(unexpected(text, colon));
    }
    let k = skip(text, colon + 1);
    let scanned = item(text, heads, marks, row + 1, k, depth)?;
    Ok(Scanned {
        end: scanned.end,
        rows: scanned.rows + 1,
    })
}

// The object whose brace stands at a place.
#[cycle(array_item_member_object_value)]
fn object(
    text: &[u8],
    heads: &mut [u16],
    marks: &mut [u64],
    row: usize,
    at: usize,
    depth: usize,
) -> Reading<Scanned>
    requires { Ready text.now heads.old marks.old (depth + 1) row at × (at < length text.now) }
    ensures { Told text.now (object_at (value_at depth text.now) text.now at) result row marks.old heads.new marks.new }
{
    let mut i = skip(text, at + 1);
    if peek(text, i) == b'}' {
        return Ok(close(marks, Branch::Object, row, at, i + 1, 0, 1));
    }
    let mut rows: usize = 1;
    let mut children: usize = 0;
    loop {
        let scanned = member(text, heads, marks, row, row + rows, i, depth)?;
        rows += scanned.rows;
        children += 1;
        match behind(text, scanned.end, b'}') {
            Following::Closing { end } => {
                return Ok(close(marks, Branch::Object, row, at, end, children, rows));
            }
            Following::Item { at: next } => {
                i = next;
            }
            Following::Other { at: j } => {
                return Err(unexpected(text, j));
            }
        }
    }
}
