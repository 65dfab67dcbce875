// Why a text is refused, and where (01, "Three services").
ghost use Rattle.std.specs.Prelude.{◌≡◌};
ghost use Rattle.chars.specs.Refusals.{number};

// What is wrong with a text.
#[derive(Clone, Copy, Debug, PartialEq, Eq)]
pub enum Code {
    TooLong,
    Ended,
    NotAllowed,
    NotUtf8,
    LoneSurrogate,
    NameTwice,
    TooDeep,
}

impl From<Code> for u32 {
    ghost from_gives = { λ code n. n ≡ number code };

    // The number of a code in an answer.
    fn from(code: Code) -> u32 {
        match code {
            Code::TooLong => 1,
            Code::Ended => 2,
            Code::NotAllowed => 3,
            Code::NotUtf8 => 4,
            Code::LoneSurrogate => 5,
            Code::NameTwice => 6,
            Code::TooDeep => 7,
        }
    }
}

// A refusal of a text: what is wrong, and at which place.
#[derive(Clone, Copy, Debug, PartialEq, Eq)]
pub struct Refusal {
    pub code: Code,
    pub place: usize,
}

// What is read of a text, or its refusal.
pub type Reading<T> = Result<T, Refusal>;
