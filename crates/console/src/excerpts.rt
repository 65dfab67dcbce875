// The line of a text in which a place lies, and a mark under the place.
ghost use Rattle.std.specs.Prelude.{◌≤◌, ◌<◌, length};

use crate::lines::{line, print, put};

// How many bytes of a line are shown before the place, and how many from it on.
const SHOWN: usize = 60;

// A text, what it is called, a place of it, and what is said of the place. The text is bytes: no contract of a service says that what it read is UTF-8.
#[derive(Clone, Copy, Debug, PartialEq, Eq)]
pub struct Excerpt<'a> {
    pub text: &'a [u8],
    pub name: &'a [u8],
    pub place: u32,
    pub words: &'a [u8],
}

impl Excerpt<'_> {
    // Prints the line in which the place lies, or what is near the place if it is long, and a line with a mark under the place. Behind the mark
    // stand the name of the text, the number of the line and what is said of the place.
    pub fn print(self, rt: &impl Print) {
        let Excerpt {
            text,
            name,
            place,
            words,
        } = self;
        let at = within(text, place);
        let first = first_shown(text, at);
        let end = end_shown(text, at);
        let cut = !is_line_start(text, first);
        if cut {
            put(rt, b"...");
        }
        put(rt, &text[first..end]);
        if !is_line_end(text, end) {
            put(rt, b"...");
        }
        put(rt, b"\n");
        if cut {
            put(rt, b"   ");
        }
        pad(rt, &text[first..at]);
        let number = line_number(text, at);
        put(rt, b"^ ");
        put(rt, name);
        print(rt, format_args!(", line {number}: "));
        line(rt, words);
    }
}

// A place in a text, at most its end.
fn within(text: &[u8], place: u32) -> usize
    ensures { result ≤ length text.now }
{
    text.len().min(place as usize)
}

// A line ends with LF, CR or both.
fn ends_line(byte: u8) -> bool {
    matches!(byte, b'\n' | b'\r')
}

// A byte of UTF-8 that goes on with a character.
fn goes_on(byte: u8) -> bool {
    matches!(byte, 0x80..=0xbf)
}

// Whether a line starts at a place.
fn is_line_start(text: &[u8], at: usize) -> bool
    requires { at ≤ length text.now }
{
    text[..at].last().is_none_or(|byte| ends_line(*byte))
}

// Whether a line ends before the byte at a place.
fn is_line_end(text: &[u8], at: usize) -> bool {
    text.get(at).is_none_or(|byte| ends_line(*byte))
}

// Where the line starts, but no more than so many bytes before the place.
fn line_start(text: &[u8], at: usize) -> usize
    requires { at ≤ length text.now }
    ensures { result ≤ at }
{
    let before = text[..at].iter().rev().take(SHOWN);
    at - before.take_while(|byte| !ends_line(**byte)).count()
}

// The first byte that is shown: no character is cut.
fn first_shown(text: &[u8], at: usize) -> usize
    requires { at ≤ length text.now }
    ensures { result ≤ at }
{
    let start = line_start(text, at);
    let shown = text[start..at].iter();
    start + shown.take_while(|byte| goes_on(**byte)).count()
}

// Where the line ends, but no more than so many bytes from the place on.
fn line_end(text: &[u8], at: usize) -> usize
    requires { at ≤ length text.now }
    ensures { (at ≤ result) × (result ≤ length text.now) }
{
    let behind = text[at..].iter().take(SHOWN);
    at + behind.take_while(|byte| !ends_line(**byte)).count()
}

// The byte behind the last that is shown: no character is cut.
fn end_shown(text: &[u8], at: usize) -> usize
    requires { at ≤ length text.now }
    ensures { (at ≤ result) × (result ≤ length text.now) }
{
    let end = line_end(text, at);
    if end == text.len() {
        return end;
    }
    let shown = text[at + 1..=end].iter().rev();
    end - shown.take_while(|byte| goes_on(**byte)).count()
}

// Prints a space for each character, and a tab for a tab.
fn pad(rt: &impl Print, shown: &[u8]) {
    for byte in shown.iter().filter(|byte| !goes_on(**byte)) {
        put(rt, if *byte == b'\t' { b"\t" } else { b" " });
    }
}

// The number of the line in which a place lies, from 1.
fn line_number(text: &[u8], at: usize) -> usize
    requires { at ≤ length text.now }
{
    1 + (0..at).filter(|i| ends_with(text, *i)).count()
}

// Whether a line ends with the byte at a place. Of CR and LF it is the LF.
fn ends_with(text: &[u8], at: usize) -> bool
    requires { at < length text.now }
{
    match text[at] {
        b'\n' => true,
        b'\r' => text.get(at + 1) != Some(&b'\n'),
        _ => false,
    }
}
