//! Describes a discipline in plain numbers: the memory that C code holds it in.
//!
//! Each struct has the fields of its value in the value's order, so the numbers written to memory
//! are that value.
ghost use Rattle.std.specs.Prelude.{◌≡◌, ◌<◌};
ghost use Rattle.tk_ntp.specs.Restored.{are_in_range, are_low, are_short, is_plan, is_lag};

use crate::discipline::HZ_LIMIT;
use crate::lag::WORD;
use crate::length::{MAX_FREQUENCY, MAX_PHASE};
use crate::request::{CONSTANT_LIMIT, ERROR_LIMIT};

/// The least and the greatest number that two words contain for a lag.
const LEAST_LAG: u128 = 1 << 123;

const GREATEST_LAG: u128 = 3 << 123;

/// The most that a frequency makes a second gain or lose, in `2^-32` ns.
const MOST_GAINED: u64 = MAX_FREQUENCY as u64;

/// Describes a lag: the number `high * 2^64 + low` minus `2^124`.
#[repr(C)]
#[derive(Clone, Copy, Debug)]
pub struct LagNumbers {
    /// The upper 64 bits.
    pub high: u64,
    /// The lower 64 bits.
    pub low: u64,
}

/// Describes the plan of a leap second.
#[repr(C)]
#[derive(Clone, Copy, Debug)]
pub struct LeapNumbers {
    /// The number of the state: 0 to 4 for `TIME_OK` to `TIME_WAIT`.
    pub state: u32,
    /// 1 if a leap comes, otherwise 0.
    pub is_due: u8,
    /// The second of REALTIME whose beginning is the leap, or 0 if no leap comes.
    pub due: u64,
}

/// Describes a discipline, in the units of its fields.
#[repr(C)]
#[derive(Clone, Copy, Debug)]
pub struct DisciplineNumbers {
    /// The parts of a second.
    pub hz: u32,
    /// The status.
    pub status: u32,
    /// The leap second.
    pub plan: LeapNumbers,
    /// The phase still to give.
    pub offset: i64,
    /// The time constant.
    pub constant: u32,
    /// The greatest error.
    pub maxerror: u32,
    /// The estimated error.
    pub esterror: u32,
    /// The tick.
    pub tick: u32,
    /// The gain of a second.
    pub frequency: i64,
    /// The second of the last offset.
    pub reftime: u64,
    /// The rest of `adjtime`.
    pub adjust: i64,
    /// The phase of the present second.
    pub phase: i64,
}

/// Describes a discipline with its lag.
#[repr(C)]
#[derive(Clone, Copy, Debug)]
pub struct SteeringNumbers {
    /// The discipline.
    pub ntp: DisciplineNumbers,
    /// The lag.
    pub lag: LagNumbers,
}

/// Describes the part of steered clocks that their clocks don't contain.
#[repr(C)]
#[derive(Clone, Copy, Debug)]
pub struct SteeredNumbers {
    /// The discipline and the lag.
    pub steering: SteeringNumbers,
    /// The second of REALTIME that begins next.
    pub next: u64,
    /// The reading up to which the lag is accounted for.
    pub last_account: u64,
}

impl LagNumbers {
    /// Returns whether they are the words of a lag.
    #[tactic(auto, unfolding(crate::specs::Restored::is_lag))]
    pub(crate) fn is_lag(self) -> bool
        ensures { result ≡ is_lag self }
    {
        let words = u128::from(self.high) * WORD + u128::from(self.low);
        LEAST_LAG <= words && words <= GREATEST_LAG
    }
}

impl LeapNumbers {
    /// Returns whether they are the numbers of a plan.
    #[tactic(auto, unfolding(crate::specs::Restored::is_plan))]
    pub(crate) fn is_plan(self) -> bool
        ensures { result ≡ is_plan self }
    {
        self.state <= 4 && self.is_due <= 1 && (self.is_due == 1 || self.due == 0)
    }
}

impl DisciplineNumbers {
    /// Returns whether the numbers other than those of the leap second are in their ranges.
    #[tactic(auto, unfolding(crate::specs::Restored::are_in_range))]
    pub(crate) fn are_in_range(self) -> bool
        ensures { result ≡ are_in_range self }
    {
        0 < self.hz
            && self.hz <= HZ_LIMIT
            && self.are_low()
            && are_short(self.hz, self.offset, self.frequency, self.phase)
    }

    /// Returns whether the numbers without a sign, other than `hz`, are in their ranges.
    #[tactic(auto, unfolding(crate::specs::Restored::are_low))]
    fn are_low(self) -> bool
        ensures { result ≡ are_low self }
    {
        self.constant <= CONSTANT_LIMIT
            && self.maxerror <= ERROR_LIMIT
            && self.esterror <= ERROR_LIMIT
            && 9_000 <= self.tick
            && self.tick <= 11_000
            && self.reftime < 1 << 63
    }
}

/// Returns whether an offset, a frequency and a phase of `hz` parts of a second are in their ranges.
#[tactic(auto, unfolding(crate::specs::Restored::are_short))]
fn are_short(hz: u32, offset: i64, frequency: i64, phase: i64) -> bool
    requires { 0 < hz }
    ensures { result ≡ are_short hz offset frequency phase }
{
    let longest = MAX_PHASE / u64::from(hz);
    let gained = MOST_GAINED / u64::from(hz);
    let (offset, frequency, phase) = (
        offset.unsigned_abs(),
        frequency.unsigned_abs(),
        phase.unsigned_abs(),
    );
    offset <= longest && frequency <= MOST_GAINED && phase <= longest + gained
}
