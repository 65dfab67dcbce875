// The characters of a string, one at a time: UTF-8 and escapes (01, "Text").
ghost use Rattle.std.specs.Prelude.{◌≡◌, ◌+◌, ◌≤◌, ◌<◌, length};
ghost use Rattle.chars.specs.Characters.{refusal_at, wrong, hex_pair, partner_at, rest_at, unicode_at, escape_at, two_at, three_at, four_at, char_at, character_at};

use crate::bytes::{code_of, digit_at, escape_of, highest, lowest, peek, six_at};
use crate::plain::is_plain;
use crate::refusals::{Code, Reading, Refusal};

// What stands at a place of a string: a character, with its scalar value and the place behind it; or the closing quote. An `Option` of a character
// would be no plainer: the quote is what is found, and not that nothing is.
#[derive(Clone, Copy, Debug, PartialEq, Eq)]
pub enum Step {
    Char { value: u32, next: usize },
    Quote,
}

// A character, with its scalar value and the place behind it.
#[derive(Clone, Copy, Debug, PartialEq, Eq)]
pub struct Character {
    pub value: u32,
    pub next: usize,
}

// The byte at a place is an offence, unless the text ended before it.
#[tactic(auto, unfolding(crate::specs::Characters::refusal_at))]
pub fn refusal_at(text: &[u8], at: usize, code: Code) -> Refusal
    ensures { result ≡ refusal_at text.now at code }
{
    if at < text.len() {
        Refusal { code, place: at }
    } else {
        Refusal {
            code: Code::Ended,
            place: text.len(),
        }
    }
}

// The byte at a place is none that an escape may hold there.
fn wrong(text: &[u8], at: usize) -> Refusal
    ensures { result ≡ wrong text.now at }
{
    refusal_at(text, at, code_of(peek(text, at)))
}

// Two hex digits at a place.
#[tactic(auto, unfolding(crate::specs::Characters::hex_pair))]
fn hex_pair(text: &[u8], at: usize) -> Reading<u16>
    requires { at ≤ length text.now + 12 }
    ensures { result ≡ hex_pair text.now at }
{
    let Some(a) = digit_at(text, at) else {
        return Err(wrong(text, at));
    };
    let Some(b) = digit_at(text, at + 1) else {
        return Err(wrong(text, at + 1));
    };
    Ok((16 * a + b) as u16)
}

// Behind the escape of the high surrogate `high`.
#[tactic(auto, using(crate::proofs::bytes::Laws::inside, crate::proofs::bytes::Laws::beside), unfolding(crate::specs::Characters::partner_at))]
fn partner(text: &[u8], at: usize, high: u32) -> Reading<Step>
    requires { (at ≤ length text.now + 8) × (0xD800 ≤ high) × (high < 0x20000) }
    ensures { result ≡ partner_at text.now at high }
{
    if peek(text, at) != b'\\' {
        return Err(refusal_at(text, at, Code::LoneSurrogate));
    }
    if peek(text, at + 1) != b'u' {
        return Err(refusal_at(text, at + 1, Code::LoneSurrogate));
    }
    if !matches!(peek(text, at + 2), b'D' | b'd') {
        return Err(refusal_at(text, at + 2, Code::LoneSurrogate));
    }
    let Some(d @ 12..=15) = digit_at(text, at + 3) else {
        return Err(refusal_at(text, at + 3, Code::LoneSurrogate));
    };
    let l = hex_pair(text, at + 4)?;
    let low = 256 * (0xd0 + u32::from(d)) + l as u32;
    Ok(Step::Char {
        value: 0x10000 + 0x400 * (high - 0xd800) + (low - 0xdc00),
        next: at + 6,
    })
}

// The last two digits of the escape at a place, behind the first two.
#[tactic(auto, using(crate::proofs::bytes::Laws::inside, crate::proofs::bytes::Laws::beside), unfolding(crate::specs::Characters::rest_at))]
fn rest(text: &[u8], at: usize, first: u16) -> Reading<Step>
    requires { at ≤ length text.now }
    ensures { result ≡ rest_at text.now at first }
{
    let l = hex_pair(text, at + 4)?;
    let value = 256 * (first as u32) + l as u32;
    match first {
        0xd8..=0xdb => partner(text, at + 6, value),
        _ => Ok(Step::Char {
            value,
            next: at + 6,
        }),
    }
}

// The escape at a place, with four hex digits.
#[tactic(auto, using(crate::proofs::bytes::Laws::inside, crate::proofs::bytes::Laws::beside), unfolding(crate::specs::Characters::unicode_at))]
fn unicode(text: &[u8], at: usize) -> Reading<Step>
    requires { at ≤ length text.now }
    ensures { result ≡ unicode_at text.now at }
{
    let first = hex_pair(text, at + 2)?;
    match first {
        0xdc..=0xdf => Err(Refusal {
            code: Code::LoneSurrogate,
            place: at + 3,
        }),
        _ => rest(text, at, first),
    }
}

// The escape whose backslash stands at a place.
#[tactic(auto, unfolding(crate::specs::Characters::escape_at))]
fn escape(text: &[u8], at: usize) -> Reading<Step>
    requires { at ≤ length text.now }
    ensures { result ≡ escape_at text.now at }
{
    let b = peek(text, at + 1);
    if b == b'u' {
        return unicode(text, at);
    }
    let Some(value) = escape_of(b) else {
        return Err(wrong(text, at + 1));
    };
    Ok(Step::Char {
        value: u32::from(value),
        next: at + 2,
    })
}

// The characters of UTF-8 with two, three and four bytes, of which the first is `b`. The longer are inlined: a result that `special` takes from
// a call is copied in other pieces than it was written in, for which the processor waits.
#[tactic(auto, unfolding(crate::specs::Characters::two_at))]
fn two(text: &[u8], at: usize, b: u8) -> Reading<Step>
    requires { (at ≤ length text.now) × (0xC2 ≤ b) × (b < 0xE0) }
    ensures { result ≡ two_at text.now at b }
{
    let Some(c) = six_at(text, at + 1, 0x80, 0xbf) else {
        return Err(refusal_at(text, at + 1, Code::NotUtf8));
    };
    Ok(Step::Char {
        value: 64 * (u32::from(b) - 0xc0) + c,
        next: at + 2,
    })
}

#[tactic(auto, using(crate::proofs::bytes::Laws::lowest_least), unfolding(crate::specs::Characters::three_at))]
#[inline(always)]
fn three(text: &[u8], at: usize, b: u8) -> Reading<Step>
    requires { (at ≤ length text.now) × (0xE0 ≤ b) × (b < 0xF0) }
    ensures { result ≡ three_at text.now at b }
{
    let Some(c) = six_at(text, at + 1, lowest(b), highest(b)) else {
        return Err(refusal_at(text, at + 1, Code::NotUtf8));
    };
    let Some(d) = six_at(text, at + 2, 0x80, 0xbf) else {
        return Err(refusal_at(text, at + 2, Code::NotUtf8));
    };
    Ok(Step::Char {
        value: 4096 * (u32::from(b) - 0xe0) + 64 * c + d,
        next: at + 3,
    })
}

#[tactic(auto, using(crate::proofs::bytes::Laws::lowest_least), unfolding(crate::specs::Characters::four_at))]
#[inline(always)]
fn four(text: &[u8], at: usize, b: u8) -> Reading<Step>
    requires { (at ≤ length text.now) × (0xF0 ≤ b) × (b < 0xF5) }
    ensures { result ≡ four_at text.now at b }
{
    let Some(c) = six_at(text, at + 1, lowest(b), highest(b)) else {
        return Err(refusal_at(text, at + 1, Code::NotUtf8));
    };
    let Some(d) = six_at(text, at + 2, 0x80, 0xbf) else {
        return Err(refusal_at(text, at + 2, Code::NotUtf8));
    };
    let Some(e) = six_at(text, at + 3, 0x80, 0xbf) else {
        return Err(refusal_at(text, at + 3, Code::NotUtf8));
    };
    Ok(Step::Char {
        value: 262144 * (u32::from(b) - 0xf0) + 4096 * c + 64 * d + e,
        next: at + 4,
    })
}

// What stands at a place of a string, whichever it is.
#[tactic(auto, unfolding(crate::specs::Characters::char_at, crate::specs::Characters::char_from))]
pub fn special(text: &[u8], at: usize) -> Reading<Step>
    ensures { result ≡ char_at text.now at }
{
    let text = &text[..];
    let b = peek(text, at);
    match b {
        b'"' => Ok(Step::Quote),
        b'\\' => escape(text, at),
        0x00..=0x1f => Err(refusal_at(text, at, Code::NotAllowed)),
        0x20..=0x7f => Ok(Step::Char {
            value: u32::from(b),
            next: at + 1,
        }),
        0x80..=0xc1 => Err(refusal_at(text, at, Code::NotUtf8)),
        0xc2..=0xdf => two(text, at, b),
        0xe0..=0xef => three(text, at, b),
        0xf0..=0xf4 => four(text, at, b),
        _ => Err(refusal_at(text, at, Code::NotUtf8)),
    }
}

// The same: a byte that stands for itself, and the closing quote, are told without a call.
#[tactic(auto, using(crate::proofs::plain::Laws::plain_read, crate::proofs::plain::Laws::quote_char))]
pub fn char_at(text: &[u8], at: usize) -> Reading<Step>
    ensures { result ≡ char_at text.now at }
{
    let b = peek(text, at);
    if is_plain(b) {
        return Ok(Step::Char {
            value: u32::from(b),
            next: at + 1,
        });
    }
    if b == b'"' {
        return Ok(Step::Quote);
    }
    special(text, at)
}

// The character at a place; none where the closing quote, an offence or the end stands there.
pub fn character_at(text: &[u8], at: usize) -> Option<Character>
    ensures { result ≡ character_at text.now at }
{
    match char_at(text, at) {
        Ok(Step::Char { value, next }) => Some(Character { value, next }),
        _ => None,
    }
}
