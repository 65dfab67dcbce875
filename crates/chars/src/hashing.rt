// Names with a hash of their characters, by which the reader finds a repeated one.
ghost use Rattle.std.specs.Prelude.{◌≡◌, ◌<◌};
ghost use Rattle.chars.specs.Hashing.{mix, finish, hashed_at};

use crate::bytes::{escape_of, peek};
use crate::characters::{Step, char_at};
use crate::plain::is_plain;
use crate::refusals::Reading;

// Where a name ends, behind its closing quote, and the hash of its characters.
#[derive(Clone, Copy, Debug, PartialEq, Eq)]
pub struct Hashed {
    pub end: usize,
    pub hash: u64,
}

// The hash behind one character more.
fn mix(h: u64, c: u32) -> u64
    requires { h < 4294967296 }
    ensures { result ≡ mix h c }
{
    (h * 257 + c as u64) % 4294967296
}

fn finish(h: u64) -> u64
    requires { h < 4294967296 }
    ensures { result ≡ finish h }
{
    h * 2654435769 / 65536 % 65536
}

// The name whose characters begin at a place. Each tells where the next begins.
pub fn hashed_end(text: &[u8], at: usize) -> Reading<Hashed>
    ensures { result ≡ hashed_at text.now at }
{
    let mut h: u64 = 0;
    let mut i = at;
    loop {
        // Bytes that stand for themselves and escapes of two bytes are told here, so that no result is made of them.
        let b = peek(text, i);
        if is_plain(b) {
            h = mix(h, u32::from(b));
            i += 1;
            continue;
        }
        if b == b'\\' {
            if let Some(c) = escape_of(peek(text, i + 1)) {
                h = mix(h, u32::from(c));
                i += 2;
                continue;
            }
        }
        match char_at(text, i)? {
            Step::Char { value, next } => {
                h = mix(h, value);
                i = next;
            }
            Step::Quote => {
                return Ok(Hashed {
                    end: i + 1,
                    hash: finish(h),
                });
            }
        }
    }
}
