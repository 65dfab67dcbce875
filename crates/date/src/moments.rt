// Moments (02, L3).
ghost use Rattle.std.specs.Prelude.{◌≡◌, ◌+◌, ◌*◌, ◌≤◌, ◌<◌};
ghost use Rattle.std.proofs.Math.IntN.{sub_ℕ};
ghost use Rattle.date.specs.Moments.{moment_at};

use crate::calendar::Day;

// The seconds from the start of the day before 0000-01-01 to 1970-01-01T00:00:00Z.
const EPOCH: i64 = 62167305600;

// Whole seconds from 1970-01-01T00:00:00Z, negative before it: of a day counted from 0000-01-01, a moved time, which is counted in
// minutes from the start of the day before, and a second.
fn seconds_at(days: u32, moved: u32, second: u32) -> i64
    requires { (days ≤ 3652424) × (moved < 4319) × (second ≤ 60) }
    ensures { result ≡ sub_ℕ (86400 * days + 60 * moved + second) 62167305600 }
{
    86400 * i64::from(days) + 60 * i64::from(moved) + i64::from(second) - EPOCH
}

impl Day {
    // The moment of a second, where the minute of a moved time has it.
    #[tactic(auto, using(model::proofs::LeapSeconds::has_most))]
    pub fn moment_at(self, moved: u32, second: u32) -> Option<i64>
        requires { moved < 4319 }
        ensures { result ≡ moment_at self moved second }
    {
        if !self.has_second(second, moved) {
            return None;
        }
        Some(seconds_at(self.count(), moved, second))
    }
}
