// What reading a value that holds no other answers.
ghost use Rattle.std.specs.Prelude.{◌≡◌};
ghost use Rattle.chars.specs.Characters.{refusal_at};
ghost use Rattle.chars.specs.declared.refusals.Code.TheVariants.{NotAllowed};
ghost use Rattle.tokens.specs.Tokens.{kind_number};

use chars::{Code, Refusal, refusal_at};

// What a value is that holds no other: `Whole` is a number without fraction or exponent, `Fractional` another number, `Quoted` a string.
#[derive(Clone, Copy, Debug, PartialEq, Eq)]
pub enum Kind {
    Null,
    False,
    True,
    Whole,
    Fractional,
    Quoted,
}

impl From<Kind> for u32 {
    ghost from_gives = { λ kind n. n ≡ kind_number kind };

    // The number of a kind in a row.
    fn from(kind: Kind) -> u32 {
        match kind {
            Kind::Null => 1,
            Kind::False => 2,
            Kind::True => 3,
            Kind::Whole => 4,
            Kind::Fractional => 5,
            Kind::Quoted => 6,
        }
    }
}

// The kind of a value, and the place behind it.
#[derive(Clone, Copy, Debug, PartialEq, Eq)]
pub struct Token {
    pub kind: Kind,
    pub end: usize,
}

// The byte at a place is not allowed there, unless the text ended before it.
pub fn unexpected(text: &[u8], at: usize) -> Refusal
    ensures { result ≡ refusal_at text.now at NotAllowed }
{
    refusal_at(text, at, Code::NotAllowed)
}
