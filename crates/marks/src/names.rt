// The names among the marks, with an index by the hash of their characters: for each bucket its last name, from which links lead to the others.
// A name's hash takes in the row of its object, so that the same name of two objects never has one hash, and no name need leave the index.
ghost use Rattle.std.specs.Prelude.{◌≡◌, ◌+◌, ◌≤◌, ◌<◌, length, get_or, set};
ghost use Rattle.syntax.specs.Grammar.{name_of};
ghost use Rattle.marks.specs.Marks.{name_mark};
ghost use Rattle.marks.specs.Names.{bucket_of, Fresh, Quoted, Index, Seen, NameReady, NameTold};

use crate::packing::{first_in, fourth_in, pack, second_in, third_in};
use chars::{Code, Hashed, Reading, Refusal, hashed_end, peek, same_name};
use tokens::unexpected;

// The bucket of a hash, of so many.
fn bucket(hash: usize, buckets: usize) -> usize
    requires { (hash < 65536) × (buckets ≤ 65536) }
    ensures { result ≡ bucket_of buckets hash }
{
    hash * buckets / 65536
}

// A name above row `object` has this hash and the characters of the name from `at` up to `end`. Each name links to the one before it in its bucket;
// 0 is none, since as an `Option` a head takes twice its room, and a call more than the 320 KiB of stack that the C header promises.
fn seen(
    text: &[u8],
    heads: &[u16],
    marks: &[u64],
    object: usize,
    at: usize,
    end: usize,
    hash: usize,
) -> bool
    requires index { Index heads.now marks.now × Quoted text.now marks.now object }
    requires at_bound { (at + 2 ≤ end) × (end ≤ length text.now) × (hash < 65536) }
    ensures { Seen text.now marks.now object hash (name_of text.now at end) result }
{
    let from = at + 1;
    let to = end - 1;
    let mut k = heads[bucket(hash, heads.len())] as usize;
    while k > object {
        let x = marks[k];
        if fourth_in(x) == hash {
            let a = second_in(x) + 1;
            let b = first_in(x);
            if same_name(&text[a..b], &text[from..to]) {
                return true;
            }
        }
        k = third_in(x);
    }
    false
}

// The name at a place, which no member before has of the object at row `object`, with its hash there.
pub fn name(text: &[u8], heads: &[u16], marks: &[u64], object: usize, at: usize) -> Reading<Hashed>
    requires { NameReady text.now heads.now marks.now object }
    ensures { NameTold text.now marks.now object at result }
{
    if peek(text, at) != b'"' {
        return Err(unexpected(text, at));
    }
    let read = hashed_end(text, at + 1)?;
    let own = (read.hash + object as u64) % 65536;
    if seen(text, heads, marks, object, at, read.end, own as usize) {
        return Err(Refusal {
            code: Code::NameTwice,
            place: read.end - 1,
        });
    }
    Ok(Hashed {
        end: read.end,
        hash: own,
    })
}

// Keeps the name from `at` up to `end` at a row, and in the index.
pub fn push(heads: &mut [u16], marks: &mut [u64], row: usize, at: usize, end: usize, hash: usize)
    requires index { Index heads.old marks.old × Fresh marks.old row × (row < length marks.old) }
    requires at_bound { (at + 2 ≤ end) × (end ≤ 65536) × (hash < 65536) }
    ensures marks_after { marks.new
        ≡ set marks.old row (name_mark at end (get_or heads.old (bucket_of (length heads.old) hash) 0) hash) }
    ensures index_2 { Index heads.new marks.new }
{
    let b = bucket(hash, heads.len());
    marks[row] = pack(end - 1, at, heads[b] as usize, hash);
    heads[b] = row as u16;
}
