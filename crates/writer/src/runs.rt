// Runs of bytes that are copied as they stand.
ghost use Rattle.std.specs.Prelude.{◌≡◌, ◌+◌, ◌≤◌, ℕ, Bool, length};
ghost use Rattle.chars.specs.Runs.{run, Answers};
ghost use Rattle.chars.specs.Strings.{part};
ghost use Rattle.writer.specs.Compact.{over};
ghost use Rattle.writer.specs.Runs.{is_ordinary, is_structural, is_atom, ordinary_end, atom_end};

use chars::run_end;

#[tactic(auto, unfolding(crate::specs::Runs::is_ordinary))]
fn is_ordinary(b: u8) -> bool
    ensures { result ≡ is_ordinary b }
{
    !matches!(b, b'"' | b'\\')
}

// (An arm for each byte becomes one table with those of `is_atom`; with `matches!` in both, Compact of integers takes a third more
// instructions.)
pub fn is_structural(b: u8) -> bool
    ensures { result ≡ is_structural b }
{
    match b {
        b'[' => true,
        b'{' => true,
        b']' => true,
        b'}' => true,
        b':' => true,
        b',' => true,
        _ => false,
    }
}

// (So here.)
fn is_atom(b: u8) -> bool
    ensures { result ≡ is_atom b }
{
    match b {
        b' ' => false,
        b'\t' => false,
        b'\n' => false,
        b'\r' => false,
        b'"' => false,
        _ => !is_structural(b),
    }
}

// The place behind the ordinary bytes of a string at a place.
pub fn ordinary_end(text: &[u8], at: usize) -> usize
    ensures { result ≡ ordinary_end text.now at }
{
    run_end(text, at, is_ordinary)
}

// Copies the run of bytes at a place that pass the test, and tells the place behind it.
fn copy_run<F: Fn(u8) -> bool>(text: &[u8], at: usize, out: &mut [u8], passes: F) -> usize
    ghost test: { ℕ → Bool }
    requires callable { F.IsAlwaysCallable passes }
    requires answers { Answers (F.post passes) test }
    requires room { run test text.now at ≤ at + length out.old }
    ensures value { result ≡ run test text.now at }
    ensures out_after { out.new ≡ over (part text.now at (run test text.now at)) out.old }
{
    for i in at..text.len() {
        let b = text[i];
        if !passes(b) {
            return i;
        }
        out[i - at] = b;
    }
    at.max(text.len())
}

// Copies these bytes, and tells the place behind them.
pub fn copy_ordinary(text: &[u8], at: usize, out: &mut [u8]) -> usize
    requires { ordinary_end text.now at ≤ at + length out.old }
    ensures value { result ≡ ordinary_end text.now at }
    ensures out_after { out.new ≡ over (part text.now at (ordinary_end text.now at)) out.old }
{
    copy_run(text, at, out, is_ordinary)
}

// Copies the number or literal at a place, and tells the place behind it.
pub fn copy_atom(text: &[u8], at: usize, out: &mut [u8]) -> usize
    requires { atom_end text.now at ≤ at + length out.old }
    ensures value { result ≡ atom_end text.now at }
    ensures out_after { out.new ≡ over (part text.now at (atom_end text.now at)) out.old }
{
    copy_run(text, at, out, is_atom)
}
