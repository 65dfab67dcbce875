// Runs of bytes that pass a test.
ghost use Rattle.std.specs.Prelude.{◌≡◌, ℕ, Bool};
ghost use Rattle.chars.specs.Runs.{run, Answers};

// The first place from `at` on whose byte does not pass the test.
pub fn run_end<F: Fn(u8) -> bool>(text: &[u8], at: usize, passes: F) -> usize
    requires { F.IsAlwaysCallable passes }
    ensures { (p : ℕ → Bool) → Answers (F.post passes) p → result ≡ run p text.now at }
{
    // (By `position`, or a `for` over the places, Read of nested brackets takes 7 % more instructions: the compiler does not join
    // the end of the run with the tests behind it.)
    let mut i = at;
    while i < text.len() && passes(text[i]) {
        i += 1;
    }
    i
}
