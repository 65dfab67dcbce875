// Runs of characters that have several bytes in UTF-8.
ghost use Rattle.std.specs.Prelude.{◌≡◌, ◌≤◌, IfSome};
ghost use Rattle.chars.specs.Strings.{string_at};
ghost use Rattle.chars.specs.Wide.{WideStep};

use crate::bytes::{highest, lowest, peek, six_at};

// The place behind the character of several bytes that stands at a place.
#[tactic(auto, using(crate::proofs::bytes::Laws::lowest_least, crate::proofs::wide::Laws::three_wide, crate::proofs::wide::Laws::four_wide))]
fn wide_end(text: &[u8], at: usize) -> Option<usize>
    ensures { IfSome result (WideStep text.now at) }
{
    let b = peek(text, at);
    match b {
        0xc2..=0xdf => {
            six_at(text, at + 1, 0x80, 0xbf)?;
            Some(at + 2)
        }
        0xe0..=0xef => {
            six_at(text, at + 1, lowest(b), highest(b))?;
            six_at(text, at + 2, 0x80, 0xbf)?;
            Some(at + 3)
        }
        0xf0..=0xf4 => {
            six_at(text, at + 1, lowest(b), highest(b))?;
            six_at(text, at + 2, 0x80, 0xbf)?;
            six_at(text, at + 3, 0x80, 0xbf)?;
            Some(at + 4)
        }
        _ => None,
    }
}

// A place from `at` on, behind such characters, from which the string goes on as from `at`.
#[tactic(auto, using(crate::proofs::strings::Laws::char_next, crate::proofs::strings::Laws::string_char))]
pub fn wides(text: &[u8], at: usize) -> usize
    ensures { (at ≤ result) × (string_at text.now result ≡ string_at text.now at) }
{
    let mut i = at;
    while let Some(next) = wide_end(text, i) {
        i = next;
    }
    i
}
