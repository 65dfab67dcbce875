// Dates (01, "Dates"; 02, L2 and L3; RFC 3339, section 5.6).
#![tactic(auto)]

mod calendar;
mod days;
mod endings;
mod fields;
mod moments;
mod seconds;
mod spelling;
mod walk;

ghost use Rattle.std.specs.Prelude.{◌≡◌};
ghost use Rattle.chars.specs.Strings.{characters};
ghost use Rattle.date.specs.Days.{written_day};
ghost use Rattle.date.specs.Moments.{moment_of};

use crate::endings::ending;
use crate::fields::{Date, Time, clock, day};
use crate::walk::{Number, either, marked};
pub use spelling::day_text;

// Judges a string, as the bytes between its quotes: its moment, where it is a date.
pub fn moment_of(body: &[u8]) -> Option<i64>
    ensures { result ≡ moment_of (characters body.now) }
{
    let Date { day, next } = day(body)?;
    let time = either(body, next, b'T', b't')?;
    let Time { minutes, next } = clock(body, time)?;
    let Number {
        value: second,
        next,
    } = marked(body, next, b':')?;
    let behind = ending(body, next)?;
    day.moment_at(minutes + behind, second)
}

// The days from 0000-01-01 to the day at the start of a string, as the bytes between its quotes.
pub fn day_of(body: &[u8]) -> Option<u32>
    ensures { result ≡ written_day (characters body.now) }
{
    let Date { day, .. } = day(body)?;
    Some(day.count())
}
