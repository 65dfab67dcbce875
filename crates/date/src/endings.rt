// The end of a date: perhaps a fraction of a second, and the zone.
ghost use Rattle.std.specs.Prelude.{◌≡◌, ◌<◌};
ghost use Rattle.model.specs.Date.{after_digits};
ghost use Rattle.chars.specs.Strings.{chars_at};
ghost use Rattle.date.specs.Endings.{offset_read, zone_read, end_read};

use crate::fields::{Time, clock};
use crate::walk::{Number, digit, either, ends, mark};

// The minutes of a day.
const DAY: u32 = 1440;

// The minutes of `hh:mm` behind the sign `c` at a place, with nothing behind it.
fn offset(body: &[u8], at: usize, c: u8) -> Option<u32>
    requires { 0 < c }
    ensures { result ≡ offset_read c (chars_at body.now at) }
{
    let Time { minutes, next } = clock(body, mark(body, at, c)?)?;
    ends(body, next).then_some(minutes)
}

// How far the zone at a place is behind UTC, in minutes, and a day more; with nothing behind it.
fn zone(body: &[u8], at: usize) -> Option<u32>
    ensures { result ≡ zone_read (chars_at body.now at) }
{
    if let Some(next) = either(body, at, b'Z', b'z') {
        return ends(body, next).then_some(DAY);
    }
    if let Some(ahead) = offset(body, at, b'+') {
        return Some(DAY - ahead);
    }
    let behind = offset(body, at, b'-')?;
    Some(DAY + behind)
}

// The zone behind the digits at a place, of which there may be none. Each tells where the next begins.
fn digits(body: &[u8], at: usize) -> Option<u32>
    ensures { result ≡ zone_read (after_digits (chars_at body.now at)) }
{
    let mut i = at;
    while let Some(Number { next, .. }) = digit(body, i) {
        i = next;
    }
    zone(body, i)
}

// Behind the seconds: perhaps `.` and one digit or more, then the zone.
pub fn ending(body: &[u8], at: usize) -> Option<u32>
    ensures { result ≡ end_read (chars_at body.now at) }
{
    let Some(point) = mark(body, at, b'.') else {
        return zone(body, at);
    };
    let Number { next, .. } = digit(body, point)?;
    digits(body, next)
}
