// 01: "An answer is four numbers: code, text (0 none, 1, 2), place (a byte offset from 0), other."
ghost use Rattle.std.specs.Prelude.{◌≡◌, Some};
ghost use Rattle.syntax.specs.Answer.{answer};
ghost use Rattle.syntax.specs.Line.{answer_line};

use std::fmt;

// The code is a number, here and where it is made or tested, since C reads it and the contracts of the services say it.
#[derive(Clone, Copy, Debug, PartialEq, Eq)]
pub struct Answer {
    pub code: u32,
    pub text: u32,
    pub place: u32,
    pub other: u32,
}

impl Answer {
    pub fn new(code: u32, text: u32, place: u32, other: u32) -> Self
        ensures { result ≡ answer code text place other }
    {
        Self {
            code,
            text,
            place,
            other,
        }
    }
}

// 01: "the four numbers in decimal on one line, a space between".
impl fmt::Display for Answer {
    ghost output = { λ a. Some (answer_line a) };

    fn fmt<W: fmt::Write>(&self, f: &mut fmt::Formatter<W>) -> fmt::Result {
        let Answer {
            code,
            text,
            place,
            other,
        } = *self;
        write!(f, "{code} {text} {place} {other}")
    }
}
