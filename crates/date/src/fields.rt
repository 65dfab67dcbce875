// The day of a date; the minutes of its time and of its offset.
ghost use Rattle.std.specs.Prelude.{List, ℕ};
ghost use Rattle.date.specs.Walk.{Stands, DayTold, ClockTold};

use crate::calendar::Day;
use crate::walk::{Number, four, marked, two};

// A day that the calendar has, and the place behind it.
#[derive(Clone, Copy, Debug, PartialEq, Eq)]
pub struct Date {
    pub day: Day,
    pub next: usize,
}

// The minutes of a time of the day, and the place behind it.
#[derive(Clone, Copy, Debug, PartialEq, Eq)]
pub struct Time {
    pub minutes: u32,
    pub next: usize,
}

// `YYYY-MM-DD` at the start.
pub fn day(body: &[u8]) -> Option<Date>
    ensures { DayTold body.now result }
{
    let Number { value: year, next } = four(body, 0)?;
    let Number { value: month, next } = marked(body, next, b'-')?;
    let Number { value: day, next } = marked(body, next, b'-')?;
    let day = Day::new(year, month, day)?;
    Some(Date { day, next })
}

// `hh:mm` at a place: hours 00 to 23, minutes 00 to 59.
pub fn clock(body: &[u8], at: usize) -> Option<Time>
    ensures { (l : List ℕ) (k : ℕ) → Stands body.now at l k → ClockTold body.now l k result }
{
    let Number { value: hour, next } = two(body, at)?;
    let Number {
        value: minute,
        next,
    } = marked(body, next, b':')?;
    if hour > 23 || minute > 59 {
        return None;
    }
    Some(Time {
        minutes: 60 * hour + minute,
        next,
    })
}
