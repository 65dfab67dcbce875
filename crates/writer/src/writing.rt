// The tokens of a text that was read, one after the other.
ghost use Rattle.std.specs.Prelude.{length};
ghost use Rattle.writer.specs.Tokens.{Writable, Measures, Writes};

use crate::pieces::{measure_string, write_token};
use tokens::skip;

// How many bytes are written for a text. Where a token begins is told by the one before it, so there is nothing to iterate over; so in `write`.
pub fn measure(text: &[u8]) -> usize
    requires { Writable text.now (length text.now) }
    ensures { Measures text.now result }
{
    let mut i = skip(text, 0);
    let mut n = 0;
    while i < text.len() {
        if text[i] == b'"' {
            let p = measure_string(text, i);
            i = skip(text, p.next);
            n += p.len;
        } else {
            i = skip(text, i + 1);
            n += 1;
        }
    }
    n
}

// Writes a text: lends the rest of the buffer, from where the last piece ended, to the writer of each token.
pub fn write(text: &[u8], out: &mut [u8]) -> usize
    requires { Writable text.now (length out.old) }
    ensures { Writes text.now result out.old out.new }
{
    let mut i = skip(text, 0);
    let mut n = 0;
    while i < text.len() {
        let p = write_token(text, i, &mut out[n..]);
        i = skip(text, p.next);
        n += p.len;
    }
    n
}
