// Runs of bytes that stand for themselves in a string.
ghost use Rattle.std.specs.Prelude.{◌≡◌};
ghost use Rattle.chars.specs.Plain.{is_plain, plain_end};

use crate::runs::run_end;

#[tactic(auto, unfolding(crate::specs::Plain::is_plain))]
pub fn is_plain(b: u8) -> bool
    ensures { result ≡ is_plain b }
{
    matches!(b, 0x20..=0x7f) && !matches!(b, b'"' | b'\\')
}

// The first place from `at` on that holds no such byte.
pub fn plain_end(text: &[u8], at: usize) -> usize
    ensures { result ≡ plain_end text.now at }
{
    run_end(text, at, is_plain)
}
