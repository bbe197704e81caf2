ghost use Rattle.std.specs.Prelude.{◌≡◌, ◌/◌, ◌%◌, zip, codes, ◌+◌, ◌*◌, ◌<◌, ◌≤◌, ℤ, pos, ◌+ℤ◌, ◌-ℤ◌, ◌*ℤ◌, length, unsigned_abs, IfOk, IfSome, Some, None, is_some, nat_lt, ◌&&◌, ◌≤ℤ◌, if◌then◌else◌};
ghost use Rattle.std.specs.List.{list_all};
ghost use Rattle.jiff_core.specs.Date.{epoch_day};
ghost use Rattle.gw_text.specs.Civil.{civil};
ghost use Rattle.gw_text.specs.model.Moments as moments;

use crate::text::Text;
use jiff_core::civil::{Date, Time};
use std::alloc::{AllocError, Global};
use std::marker::Model;

/// A moment, in seconds from 1970-01-01T00:00:00Z.
#[derive(Clone, Copy, Debug, PartialEq, Eq, PartialOrd, Ord)]
pub struct Second(pub i64);

impl Model for Second {
    ghost Value = { ℤ };

    ghost view = { λ s. s.0 };

    ghost inverse = { λ z. record { 0 = z } };
}

// 0001-01-01T00:00:00Z.
const FIRST: i64 = -62_135_596_800;

// 9999-12-31T23:59:59Z.
const LAST: i64 = 253_402_300_799;

// The seconds of a day.
const DAY: u64 = 86_400;

// A text of a moment, in which `0` stands for any digit.
const FORM: &[u8; 20] = b"0000-00-00T00:00:00Z";

// The days from -9999-01-01, from which `Date` counts, to 0001-01-01.
const DAYS_BEFORE_FIRST: u32 = 3_652_425;

impl Second {
    /// The moment that a text `YYYY-MM-DDTHH:MM:SSZ` names.
    #[tactic(auto, unfolding(crate::specs::model::Moments::second_of))]
    pub fn parse(s: &str) -> Option<Second>
        ensures { result ≡ moments.second_of s.now }
    {
        let text = s.as_bytes();
        if !has_form(text) {
            return None;
        }
        let year = 100 * two_at(text, 0) + two_at(text, 2);
        let date = date_of(year, two_at(text, 5), two_at(text, 8))?;
        let clock = clock_of(two_at(text, 11), two_at(text, 14), two_at(text, 17))?;
        Some(Second::of(date, clock))
    }

    /// The text of the moment, or of the nearest one in the years 0001 to 9999.
    pub fn print(&self, alloc: Global) -> Result<Text, AllocError>
        ensures text { IfOk result (λ text. text ≡ moments.second_text self.now) }
        ensures again { IfOk result (λ text. moments.second_of text ≡ Some (moments.nearest self.now)) }
    {
        let seconds = self.since_first();
        let days = (seconds / DAY) as u32;
        let date = Date::from_days_since_min(DAYS_BEFORE_FIRST + days);
        let time = Time::from_second((seconds % DAY) as u32, 0);
        let text = text_of(date, time);
        Text::from_bytes(alloc, &text)
    }

    // The seconds from the first moment that prints to the nearest one that does.
    fn since_first(&self) -> u64
        ensures value { result ≡ unsigned_abs (moments.nearest self.now -ℤ moments.first_second) }
        ensures bound { result ≤ 315_537_897_599 }
    {
        (self.0.clamp(FIRST, LAST) - FIRST) as u64
    }

    fn of(date: Date, clock: u32) -> Second
        requires { clock < 86400 }
        ensures { result ≡ epoch_day date *ℤ pos 86400 +ℤ pos clock }
    {
        Second(i64::from(date.to_unix_epoch_day()) * 86_400 + i64::from(clock))
    }
}

fn has_form(text: &[u8]) -> bool
    ensures { result ≡ moments.has_form text.now }
{
    text.len() == FORM.len() && fits_form(text)
}

fn fits_form(text: &[u8]) -> bool
    ensures { result ≡ list_all (λ p. moments.fits p.0 p.1) (zip (codes "0000-00-00T00:00:00Z") text.now) }
{
    FORM.iter()
        .zip(text)
        .all(|(template, b)| fits(*template, *b))
}

fn fits(template: u8, b: u8) -> bool
    ensures { result ≡ moments.fits template b }
{
    if template == b'0' {
        b.is_ascii_digit()
    } else {
        template == b
    }
}

// The number that two digits spell.
fn two_at(text: &[u8], at: usize) -> u32
    requires { at + 1 < length text.now }
    ensures value { result ≡ moments.two_at text.now at }
    ensures bound { result < 10_000 }
{
    10 * u32::from(text[at].saturating_sub(b'0')) + u32::from(text[at + 1].saturating_sub(b'0'))
}

// The day, where the calendar has it.
fn date_of(year: u32, month: u32, day: u32) -> Option<Date>
    ensures some { is_some result ≡ moments.is_date (record { year = year; month = month; day = day }) }
    ensures value { IfSome result (λ d. (d.year ≡ pos year) × (d.month ≡ month) × (d.day ≡ day)) }
{
    if year < 1 || year > 9999 || month > 12 || day > 31 {
        return None;
    }
    Date::new(year as i16, month as i8, day as i8).ok()
}

// The seconds from midnight, where a clock shows the time.
fn clock_of(hour: u32, minute: u32, second: u32) -> Option<u32>
    ensures { result ≡ (if nat_lt hour 24 && nat_lt minute 60 && nat_lt second 60 then Some (3600 * hour + 60 * minute + second) else None) }
{
    if hour < 24 && minute < 60 && second < 60 {
        Some(3600 * hour + 60 * minute + second)
    } else {
        None
    }
}

fn tens(n: u8) -> u8
    requires { n < 100 }
    ensures { result ≡ 48 + n / 10 }
{
    b'0' + n / 10
}

fn ones(n: u8) -> u8
    ensures { result ≡ 48 + n % 10 }
{
    b'0' + n % 10
}

fn text_of(date: Date, time: Time) -> [u8; 20]
    requires { pos 0 ≤ℤ date.year }
    ensures { result ≡ moments.civil_text (civil date time) }
{
    let year = date.year.unsigned_abs();
    let (century, year) = ((year / 100) as u8, (year % 100) as u8);
    let (month, day) = (date.month, date.day);
    let (hour, minute, second) = (time.hour, time.minute, time.second);
    [
        tens(century),
        ones(century),
        tens(year),
        ones(year),
        b'-',
        tens(month),
        ones(month),
        b'-',
        tens(day),
        ones(day),
        b'T',
        tens(hour),
        ones(hour),
        b':',
        tens(minute),
        ones(minute),
        b':',
        tens(second),
        ones(second),
        b'Z',
    ]
}
