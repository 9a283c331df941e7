ghost use Rattle.std.specs.Prelude.{◌≡◌, ◌<◌, ◌≤◌, ◌/◌, ◌%◌, IfOk, IfErr, IfSome, pos, unsigned_abs, string_bytes};
ghost use Rattle.jiff.specs.Words.{date_text, epoch_day};
ghost use Rattle.tk_script.specs.Utc.{IsDateText, IsUtcText, time_part};
ghost use Rattle.tk_script.specs.Lines.{IsWritable};
ghost use Rattle.tk_clock.specs.Limits.{clock_end};

use crate::digits::{nine_digits_of, two_digits_of};
use crate::script_error::ScriptError;
use jiff::civil::Date;
use std::alloc::{Allocator, Global};
use std::marker::Model;

const SECONDS_PER_DAY: u64 = 86_400;

/// Keeps the date of the last day, so that the lines of one day compute it once.
#[derive(Drop)]
pub struct Calendar<A: Allocator = Global> {
    /// The day whose date is kept, counted from 1970-01-01.
    day: Option<u32>,
    /// Its date, `YYYY-MM-DD`.
    date: String<A>,
}

impl<A: Allocator> Model for Calendar<A> {
    ghost Value = { Unit {0} };

    ghost view = { λ _. tt };

    ghost invariant = { λ a. IfSome a.day (λ day. IsDateText day (string_bytes a.date)) };
}

impl<A: Allocator + Copy> Calendar<A> {
    /// Makes a calendar that keeps no date yet.
    pub fn new(alloc: A) -> Calendar<A> {
        Calendar {
            day: None,
            date: String::new(alloc),
        }
    }

    /// Returns the date of a day, counted from 1970-01-01. It allocates only if the day differs
    /// from the last one.
    pub(crate) fn date_of(&mut self, day: u32) -> Result<&str, ScriptError>
        requires { day ≤ 2932896 }
        ensures ok { IfOk result (λ text. IsDateText day text.now) }
        ensures memory { IfErr result (λ e. e ≡ ScriptError.Memory) }
    {
        if let Some(open) = self.day
            && open == day
        {
            return Ok(self.date.as_str());
        }
        self.date = date_string(*self.date.allocator(), date_of_day(day))?;
        self.day = Some(day);
        Ok(self.date.as_str())
    }
}

/// Returns a time since 1970 as UTC text, `YYYY-MM-DDThh:mm:ss.nnnnnnnnnZ`, in the Gregorian
/// calendar without leap seconds.
///
/// `sec` is from 0 to 9,223,372,035 and `nsec` below 1,000,000,000.
///
/// # Errors
///
/// - `Memory`: an allocation failed
pub fn utc<A: Allocator + Copy>(alloc: A, sec: i64, nsec: u32) -> Result<String<A>, ScriptError>
    requires { IsWritable (record { sec = sec; nsec = nsec }) }
    ensures ok { IfOk result (λ s. IsUtcText (unsigned_abs sec) nsec (string_bytes s)) }
    ensures memory { IfErr result (λ e. e ≡ ScriptError.Memory) }
{
    let (day, second) = day_and_second(sec.unsigned_abs());
    let time = time_of_day(second, nsec);
    let mut text = date_string(alloc, date_of_day(day))?;
    text.push_str(str::from_utf8(&time).unwrap())
        .map_err(|_| ScriptError::Memory)?;
    Ok(text)
}

/// Returns the day of a count of seconds after 1970-01-01, and the second in that day.
pub(crate) fn day_and_second(seconds: u64) -> (u32, u32)
    requires { seconds < clock_end }
    ensures day { result.0 ≡ seconds / 86400 }
    ensures second { result.1 ≡ seconds % 86400 }
{
    (
        (seconds / SECONDS_PER_DAY) as u32,
        (seconds % SECONDS_PER_DAY) as u32,
    )
}

/// Returns the date that is `day` days after 1970-01-01.
fn date_of_day(day: u32) -> Date
    requires { day ≤ 2932896 }
    ensures { epoch_day result ≡ pos day }
{
    Date::from_plain(date_at(day))
}

/// Returns this date as jiff_core's, which is plain numbers.
pub(crate) fn date_at(day: u32) -> jiff_core::civil::Date
    requires { day ≤ 2932896 }
    ensures { epoch_day result ≡ pos day }
{
    jiff_core::civil::Date::from_unix_epoch_day(i64::from(day)).unwrap()
}

/// Returns `Thh:mm:ss.nnnnnnnnnZ`.
pub(crate) fn time_of_day(second: u32, nsec: u32) -> [u8; 20]
    requires second { second < 86400 }
    requires nanoseconds { nsec < 1000000000 }
    ensures { result ≡ time_part second nsec }
{
    let hour = two_digits_of(second / 3600);
    let minute = two_digits_of(second / 60 % 60);
    let second = two_digits_of(second % 60);
    let n = nine_digits_of(nsec);
    [
        b'T', hour[0], hour[1], b':', minute[0], minute[1], b':', second[0], second[1], b'.', n[0],
        n[1], n[2], n[3], n[4], n[5], n[6], n[7], n[8], b'Z',
    ]
}

/// Returns `YYYY-MM-DD`.
fn date_string<A: Allocator + Copy>(alloc: A, date: Date) -> Result<String<A>, ScriptError>
    ensures ok { IfOk result (λ s. string_bytes s ≡ date_text date) }
    ensures memory { IfErr result (λ e. e ≡ ScriptError.Memory) }
{
    date.to_string(alloc).map_err(|_| ScriptError::Memory)
}
