use std::alloc::{AllocError, Global};
use tk_clock::Timespec;
use tk_ntp::Timex;

/// Represents an order, with its numbers in the ranges of their types.
#[derive(Clone, Copy)]
pub enum Order {
    /// Makes a fresh discipline with this `hz`.
    New(u32),
    /// Lets this second of REALTIME begin.
    Second(u64),
    /// Says that REALTIME was set.
    Clear,
    /// Gives the discipline a signal of a pulse per second.
    Signal,
    /// Gives a pulse, at nanoseconds of REALTIME's second and of MONOTONIC_RAW.
    Pulse(u32, u64),
    /// Asks the discipline at a time of REALTIME.
    Adjtimex(Timespec, Timex),
}

impl Order {
    /// Reads an order from a line. `None` means that the line is no order.
    pub fn read(alloc: Global, line: &str) -> Result<Option<Order>, AllocError> {
        let Some((word, rest)) = line.split_once(',') else {
            return Ok(match line {
                "clear" => Some(Order::Clear),
                "signal" => Some(Order::Signal),
                _ => None,
            });
        };
        let numbers = numbers_of(alloc, rest)?;
        Ok(order_of(word, numbers.as_slice()))
    }
}

/// Returns the order of a word and its numbers.
fn order_of(word: &str, numbers: &[i64]) -> Option<Order> {
    Some(match (word, numbers) {
        ("new", [hz]) => Order::New(u32::try_from(*hz).ok()?),
        ("second", [sec]) => Order::Second(u64::try_from(*sec).ok()?),
        ("pps", [nsec, raw]) => {
            Order::Pulse(u32::try_from(*nsec).ok()?, u64::try_from(*raw).ok()?)
        }
        ("adjtimex", [sec, nsec, request @ ..]) => {
            let nsec = u32::try_from(*nsec).ok()?;
            Order::Adjtimex(Timespec { sec: *sec, nsec }, timex_of(request)?)
        }
        _ => return None,
    })
}

/// Returns the numbers of a line's fields. A field that isn't a number is left out.
pub fn numbers_of(alloc: Global, fields: &str) -> Result<Vec<i64>, AllocError> {
    let mut numbers = Vec::new(alloc);
    for field in fields.split(',') {
        if let Ok(number) = field.parse::<i64>() {
            numbers.push(number)?;
        }
    }
    Ok(numbers)
}

/// Returns the request with these fields.
pub fn timex_of(numbers: &[i64]) -> Option<Timex> {
    let [
        modes,
        offset,
        freq,
        maxerror,
        esterror,
        status,
        constant,
        tick,
        sec,
        sub,
    ] = numbers
    else {
        return None;
    };
    Some(Timex {
        modes: u32::try_from(*modes).ok()?,
        offset: *offset,
        freq: *freq,
        maxerror: *maxerror,
        esterror: *esterror,
        status: u32::try_from(*status).ok()?,
        constant: *constant,
        tick: *tick,
        sec: *sec,
        sub: *sub,
    })
}
