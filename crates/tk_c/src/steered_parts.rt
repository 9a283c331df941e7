//! Returns single numbers of steered clocks, as adjtimex(2) reports them.
ghost use Rattle.std.specs.Prelude.{◌≡◌, ◌≤◌, ◌^◌, pos, unsigned_abs};
ghost use Rattle.std.specs.Int.{int_div_euclid};
ghost use Rattle.tk_ntp.specs.Length.{max_frequency};
ghost use Rattle.tk_ntp.specs.Reply.{reply_freq};
ghost use Rattle.tk_c.specs.CountedNtp.{whole};
ghost use Rattle.tk_c.specs.SteeredParts.{IsComingLeap, leap_of_numbers};

use crate::counted_ntp::CountedNtp;
use tk_ntp::{LeapNumbers, STA_DEL, STA_INS};

/// Returns what REALTIME moves by at the coming leap second, in seconds: -1 for an insertion, 1
/// for a deletion, 0 if none comes. Writes the second of REALTIME whose beginning is the leap to
/// `second`, unless none comes (`ntp_get_next_leap`).
#[unsafe(no_mangle)]
pub extern "C" fn tkc_ntp_leap(second: &mut u64, ntp: &CountedNtp) -> i64
    ensures { IsComingLeap (whole ntp.now).steered second.old second.new result }
{
    let numbers = ntp.course.numbers();
    let plan = numbers.steering.ntp.plan;
    let by = leap_of(plan, numbers.steering.ntp.status, numbers.next);
    if by == 0 {
        return 0;
    }
    *second = plan.due;
    by
}

/// Returns what REALTIME moves by at the leap of a plan, in seconds, or 0 if it makes none: the
/// status no longer asks for it, or its second is before `next`.
fn leap_of(plan: LeapNumbers, status: u32, next: u64) -> i64
    ensures { result ≡ leap_of_numbers plan status next }
{
    if plan.is_due == 0 || plan.due < next {
        0
    } else if plan.state == 1 && status & STA_INS != 0 {
        -1
    } else if plan.state == 2 && status & STA_DEL != 0 {
        1
    } else {
        0
    }
}

/// Returns the status of the discipline, by the bits `STA_..`: the field `status` of a reply.
#[unsafe(no_mangle)]
pub extern "C" fn tkc_ntp_status(ntp: &CountedNtp) -> u32
    ensures { result ≡ ntp.now.course.steering.ntp.status }
{
    ntp.course.numbers().steering.ntp.status
}

/// Returns the frequency of the discipline, in `2^-16` ppm: the field `freq` of a reply.
#[tactic(auto, using(crate::proofs::Ranges::frequency_low))]
#[unsafe(no_mangle)]
pub extern "C" fn tkc_ntp_frequency(ntp: &CountedNtp) -> i64
    ensures { result ≡ reply_freq ntp.now.course.steering.ntp.frequency }
{
    replied(ntp.course.numbers().steering.ntp.frequency)
}

/// Returns a frequency in `2^-16` ppm, as a reply has it (`PPM_SCALE_INV`).
fn replied(frequency: i64) -> i64
    requires { unsigned_abs frequency ≤ max_frequency }
    ensures { result ≡ reply_freq frequency }
{
    coarse(frequency) * 34_359_739 / (1 << 32)
}

/// Returns a frequency in units of `2^-13` ns, rounded down.
fn coarse(frequency: i64) -> i64
    requires { unsigned_abs frequency ≤ max_frequency }
    ensures value { result ≡ int_div_euclid frequency (pos (2 ^ 19)) }
    ensures most { unsigned_abs result ≤ 4096000000 }
{
    frequency.div_euclid(1 << 19)
}

/// Returns the tick that the discipline was asked for, in microseconds: the field `tick` of a
/// reply.
#[unsafe(no_mangle)]
pub extern "C" fn tkc_ntp_tick_length(ntp: &CountedNtp) -> i64
    ensures { result ≡ pos ntp.now.course.steering.ntp.tick }
{
    i64::from(ntp.course.numbers().steering.ntp.tick)
}
