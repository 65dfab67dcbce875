// What a line is answered by.
use console::print;
use std::error::Error;
use std::fmt;

// A line that is not of a command's form.
#[derive(Clone, Copy, Debug, PartialEq, Eq)]
pub struct BadLine;

impl fmt::Display for BadLine {
    fn fmt<W: fmt::Write>(&self, f: &mut fmt::Formatter<W>) -> fmt::Result {
        write!(f, "bad line")
    }
}

impl Error for BadLine {}

// The words of a table, behind its answer.
pub fn words(rt: &impl Print, table: &[u32]) {
    print(rt, " |");
    for word in table {
        print(rt, format_args!(" {word}"));
    }
}
