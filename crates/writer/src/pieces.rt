// The piece writers: each writes one token from byte 0 of what it is lent.
ghost use Rattle.std.specs.Prelude.{◌≡◌, ◌≤◌, length};
ghost use Rattle.tokens.specs.Spelling.{IsQuoted};
ghost use Rattle.writer.specs.Compact.{over};
ghost use Rattle.writer.specs.Tokens.{stretch_end, stretch_bytes, string_end, string_bytes, token_end, token_bytes, piece, TokenReady};

use crate::characters::{char_len, write_char};
use crate::runs::{copy_atom, copy_ordinary, is_structural, ordinary_end};
use chars::{character_at, peek};

// The place behind a token in the text, and how many bytes are written for it.
#[derive(Clone, Copy, Debug, PartialEq, Eq)]
pub struct Piece {
    pub next: usize,
    pub len: usize,
}

// The escape at a place of a string; or the bytes from there on that are copied as they stand, up to the next escape or the closing quote.
// Measuring and writing have a walk each: one walk over a trait would need the trait's laws, a buffer that keeps its place, and wrappers for callers, which are longer.
fn measure_stretch(text: &[u8], at: usize) -> Piece
    ensures { result ≡ piece (stretch_end text.now at) (stretch_bytes text.now at) }
{
    if peek(text, at) != b'\\' {
        let end = ordinary_end(text, at);
        return Piece {
            next: end,
            len: end - at,
        };
    }
    match character_at(text, at) {
        Some(character) => Piece {
            next: character.next,
            len: char_len(character.value),
        },
        None => Piece { next: at, len: 0 },
    }
}

// Writes it.
fn write_stretch(text: &[u8], at: usize, out: &mut [u8]) -> Piece
    requires { length (stretch_bytes text.now at) ≤ length out.old }
    ensures value { result ≡ piece (stretch_end text.now at) (stretch_bytes text.now at) }
    ensures out_after { out.new ≡ over (stretch_bytes text.now at) out.old }
{
    if peek(text, at) != b'\\' {
        let end = copy_ordinary(text, at, out);
        return Piece {
            next: end,
            len: end - at,
        };
    }
    match character_at(text, at) {
        Some(character) => Piece {
            next: character.next,
            len: write_char(character.value, out),
        },
        None => Piece { next: at, len: 0 },
    }
}

// The string or name at a place. Where a stretch begins is told by the one before it, so there is nothing to iterate over; so in `write_string`.
pub fn measure_string(text: &[u8], at: usize) -> Piece
    requires { IsQuoted text.now at (string_end text.now at) }
    ensures { result ≡ piece (string_end text.now at) (string_bytes text.now at) }
{
    let mut i = at + 1;
    let mut n = 1;
    while peek(text, i) != b'"' {
        let p = measure_stretch(text, i);
        i = p.next;
        n += p.len;
    }
    Piece {
        next: i + 1,
        len: n + 1,
    }
}

// Writes it.
pub fn write_string(text: &[u8], at: usize, out: &mut [u8]) -> Piece
    requires { IsQuoted text.now at (string_end text.now at) × (length (string_bytes text.now at) ≤ length out.old) }
    ensures value { result ≡ piece (string_end text.now at) (string_bytes text.now at) }
    ensures out_after { out.new ≡ over (string_bytes text.now at) out.old }
{
    out[0] = b'"';
    let mut i = at + 1;
    let mut n = 1;
    while peek(text, i) != b'"' {
        let p = write_stretch(text, i, &mut out[n..]);
        i = p.next;
        n += p.len;
    }
    out[n] = b'"';
    Piece {
        next: i + 1,
        len: n + 1,
    }
}

// Writes the token at a place.
pub fn write_token(text: &[u8], at: usize, out: &mut [u8]) -> Piece
    requires { TokenReady text.now at (length out.old) }
    ensures value { result ≡ piece (token_end text.now at) (token_bytes text.now at) }
    ensures out_after { out.new ≡ over (token_bytes text.now at) out.old }
{
    let b = text[at];
    if b == b'"' {
        return write_string(text, at, out);
    }
    if is_structural(b) {
        out[0] = b;
        return Piece {
            next: at + 1,
            len: 1,
        };
    }
    let end = copy_atom(text, at, out);
    Piece {
        next: end,
        len: end - at,
    }
}
