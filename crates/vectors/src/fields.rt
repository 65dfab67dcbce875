// The fields of a line, and the texts that they spell.
ghost use Rattle.std.specs.Prelude.{◌≡◌, ◌≤◌, ◌<◌, ◌∷◌, ◌++◌, length, Contains, IfSome, IfNone};

// What stands before the first tab, and what behind it.
pub fn split_at_tab(s: &[u8]) -> Option<(&[u8], &[u8])>
    ensures none { IfNone result (¬ Contains s.now 9) }
    ensures around { IfSome result (λ parts. s.now ≡ parts.0.now ++ 9 ∷ parts.1.now) }
    ensures first { IfSome result (λ parts. ¬ Contains parts.0.now 9) }
{
    let tab = s.iter().position(|byte| *byte == b'\t')?;
    Some((&s[..tab], &s[tab + 1..]))
}

// A number of one to five decimal digits.
pub fn number(s: &[u8]) -> Option<usize> {
    if s.is_empty() || s.len() > 5 {
        return None;
    }
    s.iter().try_fold(0usize, |n, byte| {
        let digit = char::from(*byte).to_digit(10)?;
        n.checked_mul(10)?.checked_add(digit as usize)
    })
}

// The value of a hex digit in upper case alone; `to_digit` takes both.
fn hex(b: u8) -> Option<u8>
    ensures { IfSome result (λ d. d < 16) }
{
    match b {
        b'0'..=b'9' => Some(b - b'0'),
        b'A'..=b'F' => Some(b - b'A' + 10),
        _ => None,
    }
}

// Puts the text that a field spells at the start of out, if it fits. Each piece tells what is left of the field.
pub fn decode<'a>(field: &[u8], out: &'a mut [u8]) -> Option<&'a [u8]>
    ensures { IfSome result (λ text. length text.now ≤ length out.old) }
{
    let mut n = 0;
    let mut rest = field;
    while !rest.is_empty() {
        let (times, byte, behind) = first_piece(rest)?;
        if times > out.len() - n {
            return None;
        }
        let end = n + times;
        out[n..end].fill(byte);
        n = end;
        rest = behind;
    }
    Some(&out[..n])
}

// How often a byte stands in the text by what is spelled at the start of s, the byte, and what stands behind.
fn first_piece(s: &[u8]) -> Option<(usize, u8, &[u8])>
    ensures { IfSome result (λ piece. length piece.2.now < length s.now) }
{
    let Some(repeated) = s.strip_prefix(b"%r") else {
        let (byte, rest) = first_byte(s)?;
        return Some((1, byte, rest));
    };
    let (times, unit) = repeated.split_at_checked(5)?;
    let (byte, rest) = first_byte(unit)?;
    Some((number(times)?, byte, rest))
}

// A byte as it is, or `%XX`, and what stands behind. A tab stands between fields only.
fn first_byte(s: &[u8]) -> Option<(u8, &[u8])>
    ensures { IfSome result (λ spelled. length spelled.1.now < length s.now) }
{
    match s {
        [b'%', high, low, rest @ ..] => Some((hex(*high)? * 16 + hex(*low)?, rest)),
        [b'%' | b'\t', ..] | [] => None,
        [byte, rest @ ..] => Some((*byte, rest)),
    }
}
