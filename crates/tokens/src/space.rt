// Space (01, "Text").
ghost use Rattle.std.specs.Prelude.{◌≡◌};
ghost use Rattle.tokens.specs.Space.{is_space, skip};

use chars::run_end;

// (An arm for each byte becomes one test of a bit. `matches!` becomes comparisons, with which Read of integers takes a tenth longer.)
fn is_space(b: u8) -> bool
    ensures { result ≡ is_space b }
{
    match b {
        b' ' => true,
        b'\t' => true,
        b'\n' => true,
        b'\r' => true,
        _ => false,
    }
}

// The first place from `at` on that holds no space.
pub fn skip(text: &[u8], at: usize) -> usize
    ensures { result ≡ skip text.now at }
{
    run_end(text, at, is_space)
}
