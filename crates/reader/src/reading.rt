// Read (01, "Three services").
ghost use Rattle.std.specs.Prelude.{◌≡◌, min, ◌≤◌, length};
ghost use Rattle.syntax.specs.Grammar.{whole_at};
ghost use Rattle.syntax.specs.Answer.{document_limits, read_within, answer_of, table_of};
ghost use Rattle.reader.specs.Scanning.{scan_of, CanHold, Ready};

use crate::scanning::{Scanned, value};
use chars::{Code, Reading};
use marks::fill;
use syntax::{Answer, Limits, ROW_WORDS};
use tokens::{first_at, skip, unexpected};

// Both passes over a whole text, in the working room given.
fn read_in(
    text: &[u8],
    depth: usize,
    heads: &mut [u16],
    marks: &mut [u64],
    table: &mut [u32],
) -> Reading<Scanned>
    requires { Ready text.now heads.old marks.old depth 0 0 }
    ensures scans { result ≡ scan_of (whole_at depth text.now) }
    ensures rows { table.new ≡ table_of table.old (whole_at depth text.now) }
{
    let start = skip(text, 0);
    let scanned = value(first_at(text, start), text, heads, marks, 0, start, depth)?;
    let end = skip(text, scanned.end);
    if end < text.len() {
        return Err(unexpected(text, end));
    }
    if scanned.rows <= table.len() / ROW_WORDS {
        fill(marks, table, scanned.rows);
    }
    Ok(Scanned {
        end,
        rows: scanned.rows,
    })
}

// Both passes over a text, in cleared room of so many words. All of it is cleared, so a short text is given less; and each
// room has a frame of its own, so that a short text does not pay for that of a long one.
#[inline(never)]
fn read_in_room<const HEADS: usize, const MARKS: usize>(
    text: &[u8],
    depth: usize,
    table: &mut [u32],
) -> Reading<Scanned>
    requires room { CanHold HEADS MARKS text.now }
    requires brackets { depth ≤ 32 }
    ensures scans { result ≡ scan_of (whole_at depth text.now) }
    ensures rows { table.new ≡ table_of table.old (whole_at depth text.now) }
{
    let mut heads = [0u16; HEADS];
    let mut marks = [0u64; MARKS];
    read_in(text, depth, &mut heads, &mut marks, table)
}

// Both passes over a whole text, in room by its length. More brackets than a document's count as a document's.
fn read_whole(text: &[u8], depth: usize, table: &mut [u32]) -> Reading<Scanned>
    requires { length text.now ≤ 65536 }
    ensures scans { result ≡ scan_of (whole_at (min depth 32) text.now) }
    ensures rows { table.new ≡ table_of table.old (whole_at (min depth 32) text.now) }
{
    let depth = depth.min(32);
    match text.len() {
        0..=128 => read_in_room::<32, 81>(text, depth, table),
        129..=1024 => read_in_room::<256, 529>(text, depth, table),
        1025..=8192 => read_in_room::<2048, 4113>(text, depth, table),
        8193..=32768 => read_in_room::<8192, 16401>(text, depth, table),
        _ => read_in_room::<16384, 32785>(text, depth, table),
    }
}

// Reads text number `which` of a service within limits, and writes its rows. Limits above a document's count as a document's.
pub fn read_within(limits: Limits, which: u32, text: &[u8], table: &mut [u32]) -> Answer
    ensures answers { result ≡ answer_of which (length table.old) (read_within limits text.now) }
    ensures rows { table.new ≡ table_of table.old (read_within limits text.now) }
{
    let bytes = limits.bytes.min(65536);
    if text.len() > bytes as usize {
        return Answer::new(u32::from(Code::TooLong), which, bytes, 0);
    }
    match read_whole(text, limits.depth as usize, table) {
        Err(refusal) => Answer::new(u32::from(refusal.code), which, refusal.place as u32, 0),
        Ok(scanned) => {
            let needed = scanned.rows as u32;
            if scanned.rows > table.len() / ROW_WORDS {
                return Answer::new(8, which, 0, needed);
            }
            Answer::new(0, 0, 0, needed)
        }
    }
}

// Reads a document (01: "Read uses the document's limits").
pub fn read(text: &[u8], table: &mut [u32]) -> Answer
    ensures answers { result ≡ answer_of 1 (length table.old) (read_within document_limits text.now) }
    ensures rows { table.new ≡ table_of table.old (read_within document_limits text.now) }
{
    read_within(Limits::document(), 1, text, table)
}
