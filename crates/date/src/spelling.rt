// The text of a day by its number, counted from 1970-01-01.
ghost use Rattle.std.specs.Prelude.{◌≡◌, ◌+◌, ◌%◌, ◌≤◌, ◌<◌};
ghost use Rattle.model.specs.Calendar.{first_months, day_count};
ghost use Rattle.date.specs.Days.{DayText};
ghost use Rattle.date.specs.Spelling.{InYear, InMonth, Spells};

use crate::calendar::Day;
use crate::days::{first_months, first_years};

// The numbers of 0000-01-01 and 9999-12-31.
const FIRST: i32 = -719528;

const LAST: i32 = 2932896;

// The year of the day with a count from 0000-01-01. No year has more than 366 days, so that none before the first one tried is right.
// A `while`, since `find` over years would answer by an Option that is never None.
#[tactic(auto, using(model::proofs::DayNumbers::years_most, model::proofs::DayNumbers::years_few))]
fn year_at(count: u32) -> u32
    requires { count ≤ 3652424 }
    ensures { InYear count result }
{
    let mut year = count / 366;
    while first_years(year + 1) <= count {
        year += 1;
    }
    year
}

// The month of the day with a count from the start of its year. No month has more than 31 days. A `while` as in `year_at`.
#[tactic(auto, using(model::proofs::DayNumbers::months_most, model::proofs::DayNumbers::months_few))]
fn month_at(year: u32, count: u32) -> u32
    requires { count < first_months year 12 }
    ensures { InMonth year count result }
{
    let mut month = count / 31 + 1;
    while first_months(year, month + 1) <= count {
        month += 1;
    }
    month
}

// The last digit of a number.
fn digit(n: u32) -> u8
    ensures { result ≡ 0x30 + n % 10 }
{
    b'0' + (n % 10) as u8
}

impl Day {
    // The day with a count from 0000-01-01.
    #[tactic(auto, using(crate::proofs::spelling::Laws::days_left, crate::proofs::spelling::Laws::day_in, crate::proofs::spelling::Laws::count_back))]
    fn at_count(count: u32) -> Self
        requires { count ≤ 3652424 }
        ensures { day_count result ≡ count }
    {
        let year = year_at(count);
        let days = count - first_years(year);
        let month = month_at(year, days);
        let day = days - first_months(year, month) + 1;
        Day { year, month, day }
    }

    // `YYYY-MM-DD`.
    fn text(self) -> [u8; 10]
        ensures { Spells self result }
    {
        let Day { year, month, day } = self;
        let century = year / 100;
        [
            digit(century / 10),
            digit(century),
            digit(year / 10),
            digit(year),
            b'-',
            digit(month / 10),
            digit(month),
            b'-',
            digit(day / 10),
            digit(day),
        ]
    }
}

// The day with a number from 1970-01-01, as `YYYY-MM-DD`, where it is one of the years 0000 to 9999.
pub fn day_text(number: i32) -> Option<[u8; 10]>
    ensures { DayText number result }
{
    match number {
        FIRST..=LAST => Some(Day::at_count((number - FIRST) as u32).text()),
        _ => None,
    }
}
