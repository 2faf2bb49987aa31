//! Days of the calendar as texts. `jiff` decides which dates there are.
ghost use Rattle.std.specs.Prelude.{◌≡◌, ◌≤◌, ◌≤ℤ◌, IfSome, Some, neg_ℤ, option_map, pos};
ghost use Rattle.jiff_core.specs.Calendar.{IsBetween};
ghost use Rattle.jiff_core.specs.Date.{epoch_day};
ghost use Rattle.term_model.specs.Dates.{day_of, epoch_day_of, digit_of, parts_of, two_of};

use jiff::civil::Date;
use jiff_core::civil;

/// A year, a month and a day, as a text has them.
#[derive(Clone, Copy, Debug, PartialEq, Eq)]
pub struct Ymd {
    pub year: u16,
    pub month: u8,
    pub day: u8,
}

fn digit(b: u8) -> Option<u8>
    ensures value { result ≡ digit_of b }
    ensures bound { IfSome result (λ x. x ≤ 9) }
{
    if b.is_ascii_digit() {
        Some(b - b'0')
    } else {
        None
    }
}

#[tactic(auto, unfolding(crate::specs::Dates::two_of))]
fn two(a: u8, b: u8) -> Option<u8>
    ensures value { result ≡ two_of a b }
    ensures bound { IfSome result (λ x. x ≤ 99) }
{
    let x = digit(a)?;
    let y = digit(b)?;
    Some(10 * x + y)
}

/// The numbers of a text `dddd-dd-dd`, which need not be those of a day.
#[tactic(auto, unfolding(crate::specs::Dates::parts_of))]
pub fn date_parts(text: &[u8; 10]) -> Option<Ymd>
    ensures value { option_map (λ p. record { year = p.year; month = p.month; day = p.day }) result
        ≡ parts_of text.now }
    ensures bound { IfSome result (λ p. (p.year ≤ 9999) × (p.month ≤ 99) × (p.day ≤ 99)) }
{
    let [a, b, c, d, h, e, f, i, g, j] = *text;
    let high = two(a, b)?;
    let low = two(c, d)?;
    let month = two(e, f)?;
    let day = two(g, j)?;
    if h == b'-' && i == b'-' {
        Some(Ymd {
            year: 100 * high as u16 + low as u16,
            month,
            day,
        })
    } else {
        None
    }
}

#[tactic(auto, unfolding(crate::specs::Dates::parts_of))]
fn parts(text: &[u8]) -> Option<Ymd>
    ensures value { option_map (λ p. record { year = p.year; month = p.month; day = p.day }) result
        ≡ parts_of text.now }
    ensures bound { IfSome result (λ p. (p.year ≤ 9999) × (p.month ≤ 99) × (p.day ≤ 99)) }
{
    match text {
        [a, b, c, d, h, e, f, i, g, j] => date_parts(&[*a, *b, *c, *d, *h, *e, *f, *i, *g, *j]),
        _ => None,
    }
}

fn day_number(p: Ymd) -> Option<i64>
    requires { (p.year ≤ 9999) × (p.month ≤ 99) × (p.day ≤ 99) }
    ensures { result ≡ day_of (record { year = p.year; month = p.month; day = p.day }) }
{
    if p.year == 0 {
        return None;
    }
    match Date::new(p.year as i16, p.month as i8, p.day as i8) {
        Ok(date) => Some(date.to_plain().to_unix_epoch_day() as i64),
        Err(_) => None,
    }
}

/// The epoch day of a text `dddd-dd-dd`.
#[tactic(auto, unfolding(crate::specs::Dates::epoch_day_of))]
pub fn epoch_day(text: &[u8]) -> Option<i64>
    ensures { result ≡ epoch_day_of text.now }
{
    match parts(text) {
        Some(p) => day_number(p),
        None => None,
    }
}

// The two digits of a number.
#[tactic(auto, unfolding(crate::specs::Dates::two_of))]
fn digits(n: u8) -> (u8, u8)
    requires { n ≤ 99 }
    ensures { two_of result.0 result.1 ≡ Some n }
{
    (b'0' + n / 10, b'0' + n % 10)
}

// The text of three numbers.
#[tactic(auto, unfolding(crate::specs::Dates::parts_of))]
fn text_of(year: u16, month: u8, day: u8) -> [u8; 10]
    requires { (year ≤ 9999) × (month ≤ 99) × (day ≤ 99) }
    ensures { parts_of result ≡ Some (record { year = year; month = month; day = day }) }
{
    let (a, b) = digits((year / 100) as u8);
    let (c, d) = digits((year % 100) as u8);
    let (e, f) = digits(month);
    let (g, h) = digits(day);
    [a, b, c, d, b'-', e, f, b'-', g, h]
}

// The civil date of a day of the years 0001 to 9999.
fn civil_of(day: i64) -> civil::Date
    requires { IsBetween (neg_ℤ (pos 719_162)) (pos 2_932_896) day }
    ensures date { epoch_day result ≡ day }
    ensures year { pos 1 ≤ℤ result.year }
{
    match civil::Date::from_unix_epoch_day(day) {
        Ok(date) => date,
        Err(_) => unreachable!(),
    }
}

/// The text `dddd-dd-dd` of a day.
#[tactic(auto, unfolding(crate::specs::Dates::epoch_day_of))]
pub fn date_text(day: i64) -> [u8; 10]
    requires { IsBetween (neg_ℤ (pos 719_162)) (pos 2_932_896) day }
    ensures { epoch_day_of result ≡ Some day }
{
    let date = civil_of(day);
    text_of(date.year as u16, date.month, date.day)
}
