// Classes of bytes (01, "Text").
ghost use Rattle.std.specs.Prelude.{◌≡◌, ◌≤◌, ◌<◌, IfSome};
ghost use Rattle.chars.specs.Bytes.{byte_at, code_of, digit, escape_of, lowest, highest, six_bits};

use crate::refusals::Code;

// The byte at a place, and 0 behind the last: `byte_at`, by which the grammar is written, says so.
pub fn peek(text: &[u8], at: usize) -> u8
    ensures { result ≡ byte_at text.now at }
{
    if at < text.len() { text[at] } else { 0 }
}

// What is wrong with a byte that an escape may not hold.
#[tactic(auto, using(crate::proofs::bytes::Laws::inside, crate::proofs::bytes::Laws::beside), unfolding(crate::specs::Bytes::code_of))]
pub fn code_of(b: u8) -> Code
    ensures { result ≡ code_of b }
{
    match b {
        0x80..=0xc1 | 0xf5..=0xff => Code::NotUtf8,
        _ => Code::NotAllowed,
    }
}

// The value of a hex digit.
#[tactic(auto, using(crate::proofs::bytes::Laws::inside, crate::proofs::bytes::Laws::beside), unfolding(crate::specs::Bytes::digit))]
pub fn digit(b: u8) -> Option<u8>
    ensures value { result ≡ digit b }
    ensures small { IfSome result (λ v. v ≤ 15) }
{
    match b {
        b'0'..=b'9' => Some(b - 48),
        b'A'..=b'F' => Some(b - 55),
        b'a'..=b'f' => Some(b - 87),
        _ => None,
    }
}

// The character that a letter behind a backslash names.
#[tactic(auto, unfolding(crate::specs::Bytes::escape_of))]
pub fn escape_of(b: u8) -> Option<u8>
    ensures { result ≡ escape_of b }
{
    match b {
        b'"' => Some(0x22),
        b'\\' => Some(0x5c),
        b'/' => Some(0x2f),
        b'b' => Some(0x08),
        b'f' => Some(0x0c),
        b'n' => Some(0x0a),
        b'r' => Some(0x0d),
        b't' => Some(0x09),
        _ => None,
    }
}

// The least and the greatest second byte of a character of UTF-8, by its first.
#[tactic(auto, unfolding(crate::specs::Bytes::lowest))]
pub fn lowest(b: u8) -> u8
    ensures { result ≡ lowest b }
{
    match b {
        0xe0 => 0xa0,
        0xf0 => 0x90,
        _ => 0x80,
    }
}

#[tactic(auto, unfolding(crate::specs::Bytes::highest))]
pub fn highest(b: u8) -> u8
    ensures { result ≡ highest b }
{
    match b {
        0xed => 0x9f,
        0xf4 => 0x8f,
        _ => 0xbf,
    }
}

// The six bits of a byte from `lo` to `hi`.
#[tactic(auto, using(crate::proofs::bytes::Laws::inside, crate::proofs::bytes::Laws::beside), unfolding(crate::specs::Bytes::six_bits))]
pub fn six_bits(b: u8, lo: u8, hi: u8) -> Option<u32>
    requires { 0x80 ≤ lo }
    ensures value { result ≡ six_bits b lo hi }
    ensures small { IfSome result (λ v. v < 0x80) }
{
    if (lo..=hi).contains(&b) {
        Some(u32::from(b) - 0x80)
    } else {
        None
    }
}

// The same of the byte at a place.
pub fn digit_at(text: &[u8], at: usize) -> Option<u8>
    ensures value { result ≡ digit (byte_at text.now at) }
    ensures small { IfSome result (λ v. v ≤ 15) }
{
    digit(peek(text, at))
}

pub fn six_at(text: &[u8], at: usize, lo: u8, hi: u8) -> Option<u32>
    requires { 0x80 ≤ lo }
    ensures value { result ≡ six_bits (byte_at text.now at) lo hi }
    ensures small { IfSome result (λ v. v < 0x80) }
{
    six_bits(peek(text, at), lo, hi)
}
