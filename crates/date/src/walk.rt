// A walk over the characters of a string: digits, and marks between them.
ghost use Rattle.std.specs.Prelude.{◌≡◌, List, ℕ, ◌<◌, length, leb};
ghost use Rattle.date.specs.Walk.{Stands, CharTold, DigitTold, TwoTold, FourTold, MarkTold, EitherTold, MarkedTold};

use chars::{Character, character_at, peek};

// A number, and the place behind its digits.
#[derive(Clone, Copy, Debug, PartialEq, Eq)]
pub struct Number {
    pub value: u32,
    pub next: usize,
}

// The character at a place, and the place behind it.
fn character(body: &[u8], at: usize) -> Option<Character>
    ensures { (l : List ℕ) (k : ℕ) → Stands body.now at l k → CharTold body.now l k result }
{
    character_at(body, at)
}

// The digit at a place; one that is no escape is read at once.
pub fn digit(body: &[u8], at: usize) -> Option<Number>
    ensures { (l : List ℕ) (k : ℕ) → Stands body.now at l k → DigitTold body.now l k result }
{
    if let b @ b'0'..=b'9' = peek(body, at) {
        return Some(Number {
            value: u32::from(b - b'0'),
            next: at + 1,
        });
    }
    let Character { value, next } = character(body, at)?;
    match value {
        0x30..=0x39 => Some(Number {
            value: value - 0x30,
            next,
        }),
        _ => None,
    }
}

// The two digits at a place.
pub fn two(body: &[u8], at: usize) -> Option<Number>
    ensures { (l : List ℕ) (k : ℕ) → Stands body.now at l k → TwoTold body.now l k result }
{
    let Number {
        value: tens,
        next: middle,
    } = digit(body, at)?;
    let Number { value: ones, next } = digit(body, middle)?;
    Some(Number {
        value: 10 * tens + ones,
        next,
    })
}

// The four digits at a place: `two` twice, as that is `digit` twice. One function for both would be passed the reader of a half, and its
// contract would speak of that reader in place of digits, which is no plainer.
pub fn four(body: &[u8], at: usize) -> Option<Number>
    ensures { (l : List ℕ) (k : ℕ) → Stands body.now at l k → FourTold body.now l k result }
{
    let Number {
        value: hundreds,
        next: middle,
    } = two(body, at)?;
    let Number { value: ones, next } = two(body, middle)?;
    Some(Number {
        value: 100 * hundreds + ones,
        next,
    })
}

// The place behind the mark `c`, where that stands at a place. In the contracts 0 stands for no character, so it is no mark.
pub fn mark(body: &[u8], at: usize, c: u8) -> Option<usize>
    requires { 0 < c }
    ensures { (l : List ℕ) (k : ℕ) → Stands body.now at l k → MarkTold body.now l k c result }
{
    let Character { value, next } = character(body, at)?;
    if value != u32::from(c) {
        return None;
    }
    Some(next)
}

// The place behind the mark `a` or `b`, where one stands at a place.
pub fn either(body: &[u8], at: usize, a: u8, b: u8) -> Option<usize>
    requires { (0 < a) × (0 < b) }
    ensures { (l : List ℕ) (k : ℕ) → Stands body.now at l k → EitherTold body.now l k a b result }
{
    mark(body, at, a).or_else(|| mark(body, at, b))
}

// The two digits behind the mark `c` at a place.
pub fn marked(body: &[u8], at: usize, c: u8) -> Option<Number>
    requires { 0 < c }
    ensures { (l : List ℕ) (k : ℕ) → Stands body.now at l k → MarkedTold body.now l k c result }
{
    two(body, mark(body, at, c)?)
}

// No character stands at a place.
pub fn ends(body: &[u8], at: usize) -> bool
    ensures { (l : List ℕ) (k : ℕ) → Stands body.now at l k → result ≡ leb (length l) k }
{
    character(body, at).is_none()
}
