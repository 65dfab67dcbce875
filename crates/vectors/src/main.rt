// Runs the services on the lines of the input and writes a line for each: the answer, a tab and the
// line itself, so that the file stdout has beside each text what the papers say of it.
//
// A line is a command and its fields, with one tab between:
//
//     read TEXT      Read, with a table of 16,380 words
//     rows N TEXT    Read, with a table of N words, at most 80, each 7 before; its words are
//                    written behind the answer
//     check D S      Check, of a document and a schema, with tables of 16,380 words
//     compare N O    Compare, of a new schema and an old one, with tables of 16,380 words
//
// A text is the bytes of its field, but for `%`: `%XX`, two hex digits in upper case, is that byte,
// and `%rNNNNN` with a byte or a `%XX` behind it is that byte NNNNN times. It has at most 65,600
// bytes.
//
// An empty line, or one that starts with `#`, is written back as it is. Any other line that is not
// of this form gives `bad line` for its answer.
#![tactic(auto)]

mod commands;
mod fields;
mod lines;

use console::{print, put, read_full};
use std::io::Input;

const INPUT: usize = 65536;

// The input is its first 65,536 bytes, or those before a read that fails. What lies behind them is not read: a line is cut there and
// the later ones are not answered, so that the output differs from the file stdout.
fn main(rt: HostRuntime) {
    let mut input = [0u8; INPUT];
    let input = read_full(&mut rt.reader(), &mut input).unwrap_or_else(|broken| broken.read);
    each_line(&rt, input);
}

// A newline ends a line, and so does the end of the input.
fn each_line(rt: &impl Print, input: &[u8]) {
    for line in input.split_inclusive(|byte| *byte == b'\n') {
        run(rt, line.strip_suffix(b"\n").unwrap_or(line));
    }
}

fn run(rt: &impl Print, line: &[u8]) {
    if !line.is_empty() && line[0] != b'#' {
        if let Err(bad_line) = commands::run(rt, line) {
            print(rt, bad_line);
        }
        put(rt, b"\t");
    }
    put(rt, line);
    put(rt, b"\n");
}
