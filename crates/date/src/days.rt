// Days, counted from 0000-01-01 (02, L3).
ghost use Rattle.std.specs.Prelude.{◌≡◌, ◌-◌, ◌≤◌};
ghost use Rattle.model.specs.Calendar.{first_years, first_months, day_count};

use crate::calendar::{Day, is_leap};

// The days of the years before a year: a leap day in each fourth from 0000 on, but in a hundredth only where it is a four-hundredth.
#[tactic(auto, using(model::proofs::DayNumbers::years_closed))]
pub fn first_years(year: u32) -> u32
    requires { year ≤ 10000 }
    ensures { result ≡ first_years year }
{
    365 * year + (year + 3) / 4 + (year + 399) / 400 - (year + 99) / 100
}

// The days of a year before a month, of which 13 stands for the next year's first: by a formula for a February of 30 days, less what is
// too many.
#[tactic(auto, using(model::proofs::DayNumbers::months_closed, std::proofs::lemmas::Grind::common_steps))]
pub fn first_months(year: u32, month: u32) -> u32
    requires { (1 ≤ month) × (month ≤ 13) }
    ensures { result ≡ first_months year (month - 1) }
{
    let days = (367 * month - 362) / 12;
    if month <= 2 {
        days
    } else if is_leap(year) {
        days - 1
    } else {
        days - 2
    }
}

impl Day {
    // The days from 0000-01-01 to this day.
    #[tactic(auto, using(crate::proofs::days::Laws::count_few), unfolding(model::specs::Calendar::day_count))]
    pub fn count(self) -> u32
        ensures value { result ≡ day_count self }
        ensures few { result ≤ 3652424 }
    {
        first_years(self.year) + first_months(self.year, self.month) + (self.day - 1)
    }
}
