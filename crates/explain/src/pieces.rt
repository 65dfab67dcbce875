// The pieces of a pointer: each is put into the buffer from a place on, as far as it lies there, and the place behind it is told. Buffer and place are two
// parameters: each contract says of the place alone how far it may be, also behind the buffer's end, so that a struct of both would be taken apart there.
ghost use Rattle.std.specs.Prelude.{◌+◌, ◌≤◌, ◌<◌, length, [], ◌∷◌};
ghost use Rattle.chars.specs.Strings.{characters};
ghost use Rattle.grammar.specs.Utf8.{utf8};
ghost use Rattle.explain.specs.Pointers.{token_char, token_chars, decimal};
ghost use Rattle.explain.specs.Writing.{Puts, near, far};

use chars::character_at;
use writer::write_utf8;

// A byte. The contract of `get_mut` leaves open what a slice holds behind a write through it, so the place is asked for first.
pub fn put(out: &mut [u8], at: usize, byte: u8) -> usize
    requires { at < far }
    ensures { Puts (byte ∷ []) at result out.old out.new }
{
    if at < out.len() {
        out[at] = byte;
    }
    at + 1
}

// Bytes, one behind the other.
fn put_all(out: &mut [u8], at: usize, bytes: &[u8]) -> usize
    requires { at + length bytes.now ≤ far }
    ensures { Puts bytes.now at result out.old out.new }
{
    for (i, byte) in bytes.iter().enumerate() {
        put(out, at + i, *byte);
    }
    at + bytes.len()
}

// The bytes of UTF-8.
fn put_utf8(out: &mut [u8], at: usize, c: u32) -> usize
    requires { (c ≤ 0x10FFFF) × (at + 4 ≤ far) }
    ensures { Puts (utf8 c) at result out.old out.new }
{
    let mut bytes = [0u8; 4];
    let n = write_utf8(c, &mut bytes);
    put_all(out, at, &bytes[..n])
}

// A character of a reference token.
fn put_char(out: &mut [u8], at: usize, c: u32) -> usize
    requires { (c ≤ 0x10FFFF) × (at + 4 ≤ far) }
    ensures { Puts (token_char c) at result out.old out.new }
{
    match c {
        0x7e => put_all(out, at, b"~0"),
        0x2f => put_all(out, at, b"~1"),
        _ => put_utf8(out, at, c),
    }
}

// The characters of a name, of which the bytes between the quotes are given. Each tells where the next begins.
pub fn put_name(out: &mut [u8], at: usize, name: &[u8]) -> usize
    requires { (length name.now ≤ 65536) × (at ≤ near + 1) }
    ensures { Puts (token_chars (characters name.now)) at result out.old out.new }
{
    let mut next = at;
    let mut i = 0;
    while let Some(character) = character_at(name, i) {
        next = put_char(out, next, character.value);
        i = character.next;
    }
    next
}

// An index in decimal.
pub fn put_index(out: &mut [u8], at: usize, index: usize) -> usize
    requires { at ≤ near + 1 }
    ensures { Puts (decimal index) at result out.old out.new }
{
    let last = b'0' + (index % 10) as u8;
    if index < 10 {
        return put(out, at, last);
    }
    let behind = put_index(out, at, index / 10);
    put(out, behind, last)
}
