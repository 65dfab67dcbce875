// The seconds of a minute (01, "Dates"; 02, L2).
ghost use Rattle.std.specs.Prelude.{◌≡◌, ◌<◌};
ghost use Rattle.model.specs.Calendar.{day_before};
ghost use Rattle.model.specs.Date.{utc_day, utc_minute, ends_half, is_leap_minute, has_second};

use crate::calendar::Day;

impl Day {
    // 30 June or 31 December.
    fn ends_half(self) -> bool
        ensures { result ≡ ends_half self }
    {
        matches!((self.month, self.day), (6, 30) | (12, 31))
    }

    // The day after such a one: 1 July or 1 January.
    #[tactic(auto, using(crate::proofs::seconds::Laws::eve, std::proofs::lemmas::Grind::common_steps))]
    fn starts_half(self) -> bool
        ensures { result ≡ ends_half (day_before self) }
    {
        self.day == 1 && matches!(self.month, 1 | 7)
    }

    // Whether a moved time is 23:59 on 30 June or 31 December. It is counted in minutes from the start of the day before this one, and no
    // zone is a day from UTC, so that it is at most 1439 + 2879: it is 23:59 of the day before, of this day, or of neither.
    #[tactic(auto, using(model::proofs::LeapSeconds::on_eve, model::proofs::LeapSeconds::on_day))]
    fn is_leap_minute(self, moved: u32) -> bool
        requires { moved < 4319 }
        ensures { result ≡ is_leap_minute (utc_day self moved) (utc_minute moved) }
    {
        match moved {
            1439 => self.starts_half(),
            2879 => self.ends_half(),
            _ => false,
        }
    }

    // Whether the minute of a moved time has a second.
    pub fn has_second(self, second: u32, moved: u32) -> bool
        requires { moved < 4319 }
        ensures { result ≡ has_second second self moved }
    {
        second <= 59 || second == 60 && self.is_leap_minute(moved)
    }
}
