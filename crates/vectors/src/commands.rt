// The commands, a function for each. It takes the fields behind the command's name and writes the
// answer; where they are not of its form it writes nothing.
use crate::fields::{decode, number, split_at_tab};
use crate::lines::{BadLine, words};
use console::{TABLE, print};
use schema::PATH_WORDS;
use syntax::Answer;

// The most bytes of a text: some more than the 65,536 of a document (01, "Numbers").
const TEXT: usize = 65600;

// The most words of a table that is written.
const WORDS: usize = 80;

pub fn run(rt: &impl Print, line: &[u8]) -> Result<(), BadLine> {
    let (name, fields) = split_at_tab(line).ok_or(BadLine)?;
    match name {
        b"read" => read(rt, fields, &mut [0u32; TABLE]),
        b"rows" => rows(rt, fields),
        b"check" => judge(rt, fields, check),
        b"compare" => judge(rt, fields, |new, old, table1, table2| {
            comparison::compare(new, old, table1, table2)
        }),
        _ => Err(BadLine),
    }
}

// `read TEXT`.
fn read(rt: &impl Print, field: &[u8], table: &mut [u32]) -> Result<(), BadLine> {
    let mut text = [0u8; TEXT];
    let text = decode(field, &mut text).ok_or(BadLine)?;
    print(rt, reader::read(text, table));
    Ok(())
}

// `rows N TEXT`.
fn rows(rt: &impl Print, fields: &[u8]) -> Result<(), BadLine> {
    let (count, field) = split_at_tab(fields).ok_or(BadLine)?;
    let mut table = [7u32; WORDS];
    let count = number(count).ok_or(BadLine)?;
    let table = table.get_mut(..count).ok_or(BadLine)?;
    read(rt, field, table)?;
    words(rt, table);
    Ok(())
}

// `check DOCUMENT SCHEMA` or `compare NEW OLD`.
fn judge<F: FnOnce(&[u8], &[u8], &mut [u32], &mut [u32]) -> Answer>(
    rt: &impl Print,
    fields: &[u8],
    service: F,
) -> Result<(), BadLine>
    requires { F.IsAlwaysCallable service }
{
    let (first, second) = split_at_tab(fields).ok_or(BadLine)?;
    let mut text1 = [0u8; TEXT];
    let text1 = decode(first, &mut text1).ok_or(BadLine)?;
    let mut text2 = [0u8; TEXT];
    let text2 = decode(second, &mut text2).ok_or(BadLine)?;
    let mut table1 = [0u32; TABLE];
    let mut table2 = [0u32; TABLE];
    print(rt, service(text1, text2, &mut table1, &mut table2));
    Ok(())
}

// Check's answer alone. `teleport` has these lines too: a crate that lends them to both would be longer than they are.
fn check(document: &[u8], schema: &[u8], table1: &mut [u32], table2: &mut [u32]) -> Answer {
    let mut dates = [0i64; 3];
    let mut path = [0u32; PATH_WORDS];
    schema::check(document, schema, table1, table2, &mut dates, &mut path).answer
}
