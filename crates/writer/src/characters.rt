// A character in its one spelling (02, L6).
ghost use Rattle.std.specs.Prelude.{◌≡◌, ◌≤◌, ◌<◌, length};
ghost use Rattle.writer.specs.Spell.{letter_of, hex_digit, long_form, spell_char};
ghost use Rattle.writer.specs.Compact.{over};
ghost use Rattle.grammar.specs.Utf8.{utf8};

// The byte behind the backslash of a short escape.
fn letter(c: u32) -> Option<u8>
    ensures { result ≡ letter_of c }
{
    match c {
        0x22 => Some(b'"'),
        0x5c => Some(b'\\'),
        0x08 => Some(b'b'),
        0x0c => Some(b'f'),
        0x0a => Some(b'n'),
        0x0d => Some(b'r'),
        0x09 => Some(b't'),
        _ => None,
    }
}

// The lower-case digit of a number below 16.
fn hex_digit(n: u8) -> u8
    requires { n < 16 }
    ensures { result ≡ hex_digit n }
{
    if n < 10 { b'0' + n } else { b'a' - 10 + n }
}

// How many bytes a character takes.
pub fn char_len(c: u32) -> usize
    ensures { result ≡ length (spell_char c) }
{
    match letter(c) {
        Some(_) => 2,
        None => match c {
            0..=0x1f => 6,
            0x20..=0x7f => 1,
            0x80..=0x7ff => 2,
            0x800..=0xffff => 3,
            _ => 4,
        },
    }
}

// Writes the escape with four digits of a character below 20 hex.
fn write_long(c: u32, out: &mut [u8])
    requires { (c < 0x20) × (6 ≤ length out.old) }
    ensures { out.new ≡ over (long_form c) out.old }
{
    out[0] = b'\\';
    out[1] = b'u';
    out[2] = b'0';
    out[3] = b'0';
    out[4] = hex_digit((c / 16) as u8);
    out[5] = hex_digit((c % 16) as u8);
}

// Writes the bytes of UTF-8, of a surrogate too, which `char` and its methods do not take.
pub fn write_utf8(c: u32, out: &mut [u8]) -> usize
    requires { (c ≤ 0x10FFFF) × (length (utf8 c) ≤ length out.old) }
    ensures value { result ≡ length (utf8 c) }
    ensures out_after { out.new ≡ over (utf8 c) out.old }
{
    if c < 0x80 {
        out[0] = c as u8;
        return 1;
    }
    let last = 0x80 + (c % 64) as u8;
    if c < 0x800 {
        out[0] = 0xc0 + (c / 64) as u8;
        out[1] = last;
        return 2;
    }
    let third = 0x80 + (c / 64 % 64) as u8;
    if c < 0x10000 {
        out[0] = 0xe0 + (c / 4096) as u8;
        out[1] = third;
        out[2] = last;
        return 3;
    }
    out[0] = 0xf0 + (c / 262144) as u8;
    out[1] = 0x80 + (c / 4096 % 64) as u8;
    out[2] = third;
    out[3] = last;
    4
}

// Writes a character, and tells how many bytes it takes.
pub fn write_char(c: u32, out: &mut [u8]) -> usize
    requires { (c ≤ 0x10FFFF) × (length (spell_char c) ≤ length out.old) }
    ensures value { result ≡ length (spell_char c) }
    ensures out_after { out.new ≡ over (spell_char c) out.old }
{
    if let Some(letter) = letter(c) {
        out[0] = b'\\';
        out[1] = letter;
        return 2;
    }
    if c < 0x20 {
        write_long(c, out);
        return 6;
    }
    write_utf8(c, out)
}
