ghost use Rattle.std.specs.Prelude.{◌≡◌, ◌≤◌, ℤ, IsTrue, option_map, IfSome, IfNone, length};
ghost use Rattle.acl_text.specs.Puts.{Puts};
ghost use Rattle.acl_host.specs.Days.{IsDayText, full_date};
ghost use Rattle.acl_host.specs.NamedDays.{day_named};
ghost use Rattle.acl_host.specs.DaySteps.{two_in, real_day, digits_day, day_in, date_text};

use crate::days::Day;
use acl_text::{Out, PutFault};
use jiff::civil::Date;
use jiff_core::civil;

fn two_digits(a: u8, b: u8) -> Option<u8>
    ensures number { result ≡ two_in a b }
    ensures small { IfSome result (λ n. n ≤ 99) }
{
    if a.is_ascii_digit() && b.is_ascii_digit() {
        Some((a - b'0') * 10 + (b - b'0'))
    } else {
        None
    }
}

fn real_day(year: u16, month: u8, day: u8) -> Option<Day>
    requires year { year ≤ 9999 }
    requires month { month ≤ 99 }
    requires day { day ≤ 99 }
    ensures { option_map (λ d. d.number) result ≡ real_day year month day }
{
    if year == 0 {
        return None;
    }
    match Date::new(year as i16, month as i8, day as i8) {
        Ok(date) => Some(Day {
            number: date.to_plain().to_unix_epoch_day(),
        }),
        Err(_) => None,
    }
}

#[tactic(auto, unfolding(crate::specs::DaySteps::digits_day))]
fn digits_day(word: &[u8]) -> Option<Day>
    requires { length word.now ≡ 10 }
    ensures { option_map (λ d. d.number) result ≡ digits_day word.now }
{
    let century = two_digits(word[0], word[1])?;
    let year = two_digits(word[2], word[3])?;
    let month = two_digits(word[5], word[6])?;
    let day = two_digits(word[8], word[9])?;
    real_day(u16::from(century) * 100 + u16::from(year), month, day)
}

/// The day that the word names: four, two and two digits with `-` between, as `2026-01-15`, that are a real
/// date of the years 0001 to 9999. What `put_day` puts of a day is read as that day.
pub fn read_day(word: &[u8]) -> Option<Day>
    ensures some { IfSome result (λ day. IsDayText word.now day.number) }
    ensures none { IfNone result ((n : ℤ) → IsDayText word.now n → ⊥) }
    ensures named { result ≡ day_named word.now }
{
    day_of(word)
}

#[tactic(auto, unfolding(crate::specs::DaySteps::day_in))]
fn day_of(word: &[u8]) -> Option<Day>
    ensures { option_map (λ day. day.number) result ≡ day_in word.now }
{
    if word.len() == 10 && word[4] == b'-' && word[7] == b'-' {
        digits_day(word)
    } else {
        None
    }
}

// The digits of a date, with `-` between.
fn full_date(year: u16, month: u8, day: u8) -> [u8; 10]
    requires year { year ≤ 9999 }
    requires month { month ≤ 99 }
    requires day { day ≤ 99 }
    ensures { result ≡ full_date year month day }
{
    let century = (year / 100) as u8;
    let rest = (year % 100) as u8;
    [
        b'0' + century / 10,
        b'0' + century % 10,
        b'0' + rest / 10,
        b'0' + rest % 10,
        b'-',
        b'0' + month / 10,
        b'0' + month % 10,
        b'-',
        b'0' + day / 10,
        b'0' + day % 10,
    ]
}

// The digits of the day, by the calendar of jiff.
fn date_text(day: Day) -> [u8; 10]
    ensures text { result ≡ date_text day.number }
    ensures real { IsDayText (date_text day.number) day.number }
{
    match civil::Date::from_unix_epoch_day(i64::from(day.number)) {
        Ok(date) => full_date(date.year as u16, date.month, date.day),
        Err(_) => unreachable!(),
    }
}

/// Puts the text of the day, which `read_day` reads as that day.
pub fn put_day<O: Out>(out: &mut O, day: Day) -> Result<(), PutFault>
    requires { IsTrue (O.is_open out.old) }
    ensures puts { Puts O.Out out.old out.new (date_text day.number) result }
    ensures text { IsDayText (date_text day.number) day.number }
{
    let text = date_text(day);
    out.put(&text)
}
