//! The date of a request.

ghost use Rattle.std.specs.Prelude.{◌≡◌, ◌↔◌, ℕ, ◌<◌, ◌≤ℤ◌, pos, IsNone, IfSome};
ghost use Rattle.sb_sign.specs.Date.{HasNoDate, IsDateOf, civil_of, date_text_of, two_digits};

use jiff::Timestamp;
use jiff::civil::DateTime;
use jiff::tz::Offset;

/// The last second of 9998, in UTC.
pub(crate) const LAST_MOMENT: i64 = 253_370_764_799;

/// `YYYYMMDDTHHMMSSZ` of a moment in UTC, if it has a date.
pub(crate) fn date_of(moment: i64) -> Option<[u8; 16]>
    ensures none { IsNone result ↔ HasNoDate moment }
    ensures text { IfSome result (IsDateOf moment) }
{
    if moment < 0 || moment > LAST_MOMENT {
        return None;
    }
    match Timestamp::from_second(moment) {
        Ok(instant) => Some(date_text(Offset::UTC.to_datetime(instant))),
        Err(_) => unreachable!(),
    }
}

/// `YYYYMMDDTHHMMSSZ` of a day and a time of day.
fn date_text(civil: DateTime) -> [u8; 16]
    requires { pos 0 ≤ℤ civil.date.year }
    ensures { result ≡ date_text_of (civil_of civil) }
{
    let year = civil.year() as u16;
    let [a, b] = two_digits(year / 100);
    let [c, d] = two_digits(year);
    let [e, f] = two_digits(civil.month() as u16);
    let [g, h] = two_digits(civil.day() as u16);
    let [i, j] = two_digits(civil.hour() as u16);
    let [k, l] = two_digits(civil.minute() as u16);
    let [m, n] = two_digits(civil.second() as u16);
    [a, b, c, d, e, f, g, h, b'T', i, j, k, l, m, n, b'Z']
}

/// The last two digits of a number.
fn two_digits(number: u16) -> [u8; 2]
    ensures { result ≡ two_digits number }
{
    [b'0' + (number / 10 % 10) as u8, b'0' + (number % 10) as u8]
}
