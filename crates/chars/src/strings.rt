// Strings and names.
ghost use Rattle.std.specs.Prelude.{◌≡◌};
ghost use Rattle.model.specs.Text.{same};
ghost use Rattle.chars.specs.Strings.{string_at, characters};

use crate::bytes::peek;
use crate::characters::{Step, character_at, special};
use crate::plain::{is_plain, plain_end};
use crate::refusals::Reading;
use crate::wide::wides;

// The place behind the closing quote of the string whose characters begin at a place. Each character tells where the next begins.
pub fn string_end(text: &[u8], at: usize) -> Reading<usize>
    ensures { result ≡ string_at text.now at }
{
    let mut i = at;
    loop {
        i = wides(text, plain_end(text, i));
        if peek(text, i) == b'"' {
            return Ok(i + 1);
        }
        match special(text, i)? {
            Step::Char { value: _, next } => {
                i = next;
            }
            Step::Quote => {
                return Ok(i + 1);
            }
        }
    }
}

// Whether two names have the same bytes. (By `==`, a call, Compare of the widest schemas takes a third longer.)
fn equal(a: &[u8], b: &[u8]) -> bool
    ensures { result ≡ same a.now b.now }
{
    if a.len() != b.len() {
        return false;
    }
    for i in 0..a.len() {
        if a[i] != b[i] {
            return false;
        }
    }
    true
}

// Whether two names have the same characters, compared one by one.
// Neither place is counted: each is where the character before ended, as `character_at` tells.
// It is called in two places, so that the compiler keeps it out of `same_name`, whose tests of bytes then stand in its callers.
fn same_characters(a: &[u8], b: &[u8]) -> bool
    ensures { result ≡ same (characters a.now) (characters b.now) }
{
    let a = &a[..];
    let b = &b[..];
    let mut i = 0;
    let mut j = 0;
    loop {
        let Some(x) = character_at(a, i) else {
            return character_at(b, j).is_none();
        };
        let Some(y) = character_at(b, j) else {
            return false;
        };
        if x.value != y.value {
            return false;
        }
        i = x.next;
        j = y.next;
    }
}

// Whether two names, each as the bytes between its quotes, have the same characters.
// Most begin with different bytes that stand for themselves, or have the same bytes.
pub fn same_name(a: &[u8], b: &[u8]) -> bool
    ensures { result ≡ same (characters a.now) (characters b.now) }
{
    let x = peek(a, 0);
    let y = peek(b, 0);
    if x != y {
        if is_plain(x) {
            if is_plain(y) {
                return false;
            }
        }
        return same_characters(a, b);
    }
    if equal(a, b) {
        return true;
    }
    same_characters(a, b)
}
