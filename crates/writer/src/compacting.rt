// Compact (02, L6): writes the one spelling of the value that a text stands for.
ghost use Rattle.std.specs.Prelude.{◌≡◌, ◌≤◌, length};
ghost use Rattle.syntax.specs.Answer.{document_limits, read_within, table_of};
ghost use Rattle.writer.specs.Compact.{compact_answer, compact_buffer};
ghost use Rattle.writer.specs.Tokens.{Writable, Answers};

use crate::writing::{measure, write};
use reader::read;
use syntax::Answer;

// Writes a text that was read into a buffer that has room.
fn write_whole(text: &[u8], buffer: &mut [u8]) -> Answer
    requires { Writable text.now (length buffer.old) × (length text.now ≤ 65536) }
    ensures { Answers text.now result buffer.old buffer.new }
{
    let n = write(text, buffer);
    Answer::new(0, 0, 0, n as u32)
}

// The same where the buffer may be too short: the length needed is known before the first byte is written.
fn write_measured(text: &[u8], buffer: &mut [u8]) -> Answer
    requires { Writable text.now (length text.now) × (length text.now ≤ 65536) }
    ensures { Answers text.now result buffer.old buffer.new }
{
    let needed = measure(text);
    if needed > buffer.len() {
        return Answer::new(60, 0, 0, needed as u32);
    }
    write_whole(text, buffer)
}

// Reads a text as Read does, and writes its value. What is written is never longer than the text, so that a buffer as long as the text needs no measuring.
pub fn compact(text: &[u8], table: &mut [u32], buffer: &mut [u8]) -> Answer
    ensures answers { result ≡ compact_answer (length table.old) (length buffer.old) text.now }
    ensures rows { table.new ≡ table_of table.old (read_within document_limits text.now) }
    ensures writes { buffer.new ≡ compact_buffer (length table.old) buffer.old text.now }
{
    // A service answers four numbers (01, "Three services"): a refusal has a code.
    let a = read(text, table);
    if a.code != 0 {
        return a;
    }
    if buffer.len() < text.len() {
        return write_measured(text, buffer);
    }
    write_whole(text, buffer)
}
