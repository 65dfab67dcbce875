// The lines that a program prints. Where the output takes none there is nothing else by which that could be told.
ghost use Rattle.std.specs.Prelude.{Some};
ghost use Rattle.console.specs.Line.{numbers_line};

use std::fmt;
use std::fmt::Display;

// Prints a value.
pub fn print(rt: &impl Print, value: impl Display + Drop) {
    let _ = rt.print(value);
}

// Prints a value, and the end of the line.
pub fn print_line(rt: &impl Print, value: impl Display + Drop) {
    let _ = rt.println(value);
}

// Bytes, and the end of the line.
pub fn line(rt: &impl Print, bytes: &[u8]) {
    put(rt, bytes);
    put(rt, b"\n");
}

// Prints bytes, which need not be text.
pub fn put(rt: &impl Print, bytes: &[u8]) {
    let _ = rt.write_all(bytes);
}

// Three numbers in the form of an answer's four; `-` stands before one below 0.
#[derive(Clone, Copy, Debug, PartialEq, Eq)]
pub struct Numbers(pub [i64; 3]);

impl Display for Numbers {
    ghost output = { λ n. Some (numbers_line n) };

    fn fmt<W: fmt::Write>(&self, f: &mut fmt::Formatter<W>) -> fmt::Result {
        let [first, second, third] = self.0;
        write!(f, "{first} {second} {third}")
    }
}
