// The pieces of a document: each writer writes from byte 0 of what it is lent, and tells how many bytes it wrote.
ghost use Rattle.std.specs.Prelude.{◌≡◌, ◌≤◌, length};
ghost use Rattle.writer.specs.Spell.{spell};
ghost use Rattle.samples.specs.Writing.{plain_by, apart_by, Writes, NameReady, NameWritten};

use definitions::TypeName;
use writer::write_string;

// Writes bytes as they stand, each by an assignment: `copy_from_slice` would call the C library's `memcpy`, which the archive for C needs nowhere.
pub fn write_bytes(bytes: &[u8], out: &mut [u8]) -> usize
    requires { length bytes.now ≤ length out.old }
    ensures { Writes bytes.now result out.old out.new }
{
    for (i, byte) in bytes.iter().enumerate() {
        out[i] = *byte;
    }
    bytes.len()
}

// A value of a named type that is neither array nor object.
#[tactic(auto, unfolding(writer::specs::Spell::spell_char, grammar::specs::Utf8::utf8))]
pub fn plain_bytes(name: Option<TypeName>) -> &'static [u8]
    ensures { result.now ≡ spell (plain_by name) }
{
    match name {
        None | Some(TypeName::Json) => b"null",
        Some(TypeName::Schema) => b"\"JSON\"",
        Some(TypeName::Float) => b"0.5",
        Some(TypeName::Integer) => b"0",
        Some(TypeName::Text) => b"\"\"",
        Some(TypeName::Boolean) => b"true",
        Some(TypeName::DateTime) => b"\"2000-01-01T00:00:00Z\"",
    }
}

// A value of a named type that meets only the named types that take all of it: a schema that is no string.
#[tactic(auto, unfolding(writer::specs::Spell::spell_char, grammar::specs::Utf8::utf8))]
pub fn apart_bytes(name: Option<TypeName>) -> &'static [u8]
    ensures { result.now ≡ spell (apart_by name) }
{
    match name {
        Some(TypeName::Schema) => b"{\"Array\":\"JSON\"}",
        _ => plain_bytes(name),
    }
}

// Writes a byte, the name whose opening quote is at a place of a schema, in its one spelling, and a colon.
pub fn write_name(text: &[u8], at: usize, lead: u8, out: &mut [u8]) -> usize
    requires { NameReady text.now at (length out.old) lead }
    ensures { NameWritten text.now at lead result out.old out.new }
{
    out[0] = lead;
    let n = 1 + write_string(text, at, &mut out[1..]).len;
    out[n] = b':';
    n + 1
}
