// The Gregorian calendar (01, "Dates").
ghost use Rattle.std.specs.Prelude.{◌≡◌, ◌≤◌, cond, Some, None};
ghost use Rattle.model.specs.Calendar.{is_leap, days_in, on, in_calendar};

use std::marker::Model;

// A day that the calendar has, in the years 0000 to 9999.
#[derive(Clone, Copy, Debug, PartialEq, Eq)]
pub struct Day {
    pub year: u32,
    pub month: u32,
    pub day: u32,
}

impl Model for Day {
    ghost use Rattle.std.specs.Prelude.{◌≡◌, true, ◌≤◌};
    ghost use Rattle.model.specs.Calendar.{Day, on, in_calendar};

    ghost Value = { Day };

    ghost view = { λ a. on a.year a.month a.day };

    ghost invariant = { λ a. (in_calendar (on a.year a.month a.day) ≡ true) × (a.year ≤ 9999) };

    ghost inverse = { λ x. record { year = x.year; month = x.month; day = x.day } };
}

impl Day {
    // The day with these numbers, where the calendar has it.
    pub fn new(year: u32, month: u32, day: u32) -> Option<Self>
        requires { year ≤ 9999 }
        ensures { result ≡ cond (in_calendar (on year month day)) (Some (on year month day)) None }
    {
        if !in_calendar(year, month, day) {
            return None;
        }
        Some(Day { year, month, day })
    }
}

pub fn is_leap(year: u32) -> bool
    ensures { result ≡ is_leap year }
{
    year % 4 == 0 && (year % 100 != 0 || year % 400 == 0)
}

fn days_in(year: u32, month: u32) -> u32
    ensures { result ≡ days_in year month }
{
    match month {
        2 if is_leap(year) => 29,
        2 => 28,
        4 | 6 | 9 | 11 => 30,
        _ => 31,
    }
}

// Months 01 to 12, and days by the month.
fn in_calendar(year: u32, month: u32, day: u32) -> bool
    ensures { result ≡ in_calendar (on year month day) }
{
    1 <= month && month <= 12 && 1 <= day && day <= days_in(year, month)
}
