//! Days as tables and command lines give them.

ghost use Rattle.std.specs.Prelude.{◌≡◌, ◌<◌, ◌^◌, true, IfSome, option_map};
ghost use Rattle.term_model.specs.Dates.{epoch_day_of};
ghost use Rattle.term_model.specs.Limits.{is_origin};
ghost use Rattle.fixing_files.specs.Days.{count_of, day_named, day_of, number_of, placed_day};
ghost use Rattle.fixing_files.specs.declared.days.NamedDay.TheVariants.{Date};

use decimal::number_up_to;
use term_model::epoch_day;
use term_model::laws::days_of_texts_are_civil;

/// Why a text has no day.
#[derive(Clone, Copy, Debug, PartialEq, Eq)]
pub enum DayFault {
    NotDay,
    NoOrigin,
}

/// The number that one to nine digits write.
pub fn count(text: &[u8]) -> Option<u32>
    ensures value { result ≡ count_of text.now }
    ensures small { IfSome result (λ n. n < 10 ^ 9) }
{
    if text.len() > 9 {
        return None;
    }
    number_up_to(999_999_999, text)
}

// The number of an optional minus and one to nine digits.
fn number(text: &[u8]) -> Option<i64>
    ensures { result ≡ number_of text.now }
{
    match text {
        [first, rest @ ..] if *first == b'-' => Some(-(count(rest)? as i64)),
        _ => Some(count(text)? as i64),
    }
}

/// What the text of a day names.
#[derive(Clone, Copy, Debug, PartialEq, Eq)]
pub enum NamedDay {
    /// A number of days after the origin.
    Number(i64),
    /// A date, by its epoch day.
    Date(i32),
}

// What a date names.
fn date(text: &[u8]) -> Option<NamedDay>
    ensures { result ≡ option_map (λ day. Date day) (epoch_day_of text.now) }
{
    days_of_texts_are_civil();
    let day = epoch_day(text)?;
    Some(NamedDay::Date(day as i32))
}

/// What a text names: an optional `-` and one to nine digits a number of days, a civil date
/// `dddd-dd-dd` of the years 0001 to 9999 its day; and another text nothing. It takes no memory.
#[tactic(auto, unfolding(crate::specs::Days::day_named))]
pub fn read_day(text: &[u8]) -> Option<NamedDay>
    ensures { result ≡ day_named text.now }
{
    match number(text) {
        Some(day) => Some(NamedDay::Number(day)),
        None => date(text),
    }
}

/// The day of the portfolio with this origin, an epoch day, that is named: `NoOrigin` says that it
/// is a date and there is no origin.
pub fn place_day(origin: Option<i64>, named: NamedDay) -> Result<i64, DayFault>
    requires { is_origin origin ≡ true }
    ensures { result ≡ placed_day origin named }
{
    match named {
        NamedDay::Number(day) => Ok(day),
        NamedDay::Date(day) => match origin {
            Some(origin) => Ok(day as i64 - origin),
            None => Err(DayFault::NoOrigin),
        },
    }
}

/// The day of the portfolio that a text names, over its origin: as `place_day` has it of what
/// `read_day` reads. `NotDay` says that the text is neither a number of days nor a date. The origin
/// is an epoch day. It takes no memory.
#[tactic(auto, unfolding(crate::specs::Days::day_of))]
pub fn day_of_text(origin: Option<i64>, text: &[u8]) -> Result<i64, DayFault>
    requires { is_origin origin ≡ true }
    ensures { result ≡ day_of origin text.now }
{
    match read_day(text) {
        Some(named) => place_day(origin, named),
        None => Err(DayFault::NotDay),
    }
}
