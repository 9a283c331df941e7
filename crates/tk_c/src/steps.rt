//! Tests steps of REALTIME without making them.
ghost use Rattle.std.specs.Prelude.{◌≡◌, ◌⊎◌, ◌<◌, ◌≤◌, ◌+◌, ◌*◌, ◌^◌, ℤ, pos, ◌+ℤ◌, ◌<ℤ◌, ◌≤ℤ◌, MatchOption, MatchResult, Some, None};
ghost use Rattle.tk_counter.specs.Counter.{mask};
ghost use Rattle.tk_clock.specs.declared.clock_id.ClockId.{ClockId};
ghost use Rattle.tk_clock.specs.declared.clock_id.ClockId.TheVariants.{Realtime, Monotonic, Boottime};
ghost use Rattle.tk_clock.specs.declared.command.Command.TheVariants.{Step};
ghost use Rattle.tk_clock.specs.declared.refusal.Refusal.TheVariants.{Range};
ghost use Rattle.tk_clock.specs.declared.timespec.Timespec.{Timespec};
ghost use Rattle.tk_clock.specs.Limits.{limit, clock_end, monotonic_end, settable_end};
ghost use Rattle.tk_clock.specs.Refusal.{early_refusal};
ghost use Rattle.tk_clock.specs.State.{base_value};
ghost use Rattle.tk_clock.specs.Time.{nanoseconds};
ghost use Rattle.tk_c.specs.Steps.{step_refusal, IsStored, IsStepped};

use crate::code::Code;
use crate::storage::TimeStorage;
use tk_clock::{ClockId, Refusal, Snapshot, Timespec, time_moved};
use tk_counter::NANOS_PER_SECOND;

/// The end of the times that REALTIME may be set to, in ns (`TIME_SETTOD_SEC_MAX`).
const SETTABLE_LIMIT: u64 = 8_277_292_036_000_000_000;

/// Writes REALTIME at a reading to `before`, and REALTIME after a step by `sec` s plus `nsec` ns
/// there to `after`. It makes no step.
///
/// # Errors
///
/// Leaves both, and returns the code of the first test of `tkc_clock_apply` that the step fails,
/// without that of the count: of clocks that this is the snapshot of.
#[unsafe(no_mangle)]
pub extern "C" fn tkc_snapshot_step(
    before: &mut TimeStorage,
    after: &mut TimeStorage,
    snapshot: &Snapshot,
    reading: u64,
    sec: i64,
    nsec: u32,
) -> u32
    ensures { let by : Timespec = record { sec = sec; nsec = nsec } in
        IsStepped snapshot.now.base reading by before.old after.old before.new after.new result }
{
    match stepped(snapshot, reading, Timespec { sec, nsec }) {
        Ok((old, new)) => {
            store_nanos(before, old);
            store_nanos(after, new);
            Code::Done.number()
        }
        Err(refusal) => Code::from(refusal).number(),
    }
}

/// Returns REALTIME before and after a step at a reading, in ns, or the first test that fails.
fn stepped(snapshot: &Snapshot, reading: u64, by: Timespec) -> Result<(u64, u64), Refusal>
    ensures { let base = snapshot.now.base in
        MatchResult result
        (λ times. (step_refusal base reading by ≡ None)
        × (pos times.0 ≡ base_value base Realtime reading)
        × (pos times.1 ≡ base_value base Realtime reading +ℤ nanoseconds by))
        (λ refusal. step_refusal base reading by ≡ Some refusal) }
{
    match test_early(snapshot, reading, by) {
        Ok(_) => stepped_late(snapshot, reading, by),
        Err(refusal) => Err(refusal),
    }
}

/// Returns REALTIME before and after a step that passes the tests of `test_early`, or the first
/// test that fails.
fn stepped_late(snapshot: &Snapshot, reading: u64, by: Timespec) -> Result<(u64, u64), Refusal>
    requires early { let base = snapshot.now.base in
        early_refusal base.counter base.asleep base.last reading (Step by) ≡ None }
    requires low { reading ≤ mask snapshot.now.base.counter }
    requires rest { by.nsec < 10 ^ 9 }
    ensures { let base = snapshot.now.base in
        MatchResult result
        (λ times. (step_refusal base reading by ≡ None)
        × (pos times.0 ≡ base_value base Realtime reading)
        × (pos times.1 ≡ base_value base Realtime reading +ℤ nanoseconds by))
        (λ refusal. step_refusal base reading by ≡ Some refusal) }
{
    match monotonic_within(snapshot, reading) {
        Ok(monotonic) => stepped_within(snapshot, reading, by, monotonic),
        Err(refusal) => Err(refusal),
    }
}

/// Returns REALTIME before and after a step of clocks whose MONOTONIC and BOOTTIME are below their
/// limits, or `Invalid`.
fn stepped_within(
    snapshot: &Snapshot,
    reading: u64,
    by: Timespec,
    monotonic: u64,
) -> Result<(u64, u64), Refusal>
    requires early { let base = snapshot.now.base in
        early_refusal base.counter base.asleep base.last reading (Step by) ≡ None }
    requires value { pos monotonic ≡ base_value snapshot.now.base Monotonic reading }
    requires monotonic { base_value snapshot.now.base Monotonic reading <ℤ limit Monotonic }
    requires boottime { base_value snapshot.now.base Boottime reading <ℤ limit Boottime }
    requires rest { by.nsec < 10 ^ 9 }
    ensures { let base = snapshot.now.base in
        MatchResult result
        (λ times. (step_refusal base reading by ≡ None)
        × (pos times.0 ≡ base_value base Realtime reading)
        × (pos times.1 ≡ base_value base Realtime reading +ℤ nanoseconds by))
        (λ refusal. step_refusal base reading by ≡ Some refusal) }
{
    let real = monotonic + snapshot.origin(ClockId::Realtime).offset;
    match settable(monotonic, real, by) {
        Some(after) => Ok((real, after)),
        None => Err(Refusal::Invalid),
    }
}

/// Returns MONOTONIC at a reading up to the mask, in ns, or `Range` if MONOTONIC or BOOTTIME is at
/// its limit or beyond it.
fn monotonic_within(snapshot: &Snapshot, reading: u64) -> Result<u64, Refusal>
    requires { reading ≤ mask snapshot.now.base.counter }
    ensures { let values : ClockId → ℤ = λ clock. base_value snapshot.now.base clock reading in
        MatchResult result
        (λ nanos. (pos nanos ≡ values Monotonic) × (values Monotonic <ℤ limit Monotonic)
        × (values Boottime <ℤ limit Boottime))
        (λ refusal. (refusal ≡ Range)
        × ((limit Monotonic ≤ℤ values Monotonic) ⊎ (limit Boottime ≤ℤ values Boottime))) }
{
    let Ok(monotonic) = snapshot.nanos(ClockId::Monotonic, reading) else {
        return Err(Refusal::Range);
    };
    let Ok(_) = snapshot.nanos(ClockId::Boottime, reading) else {
        return Err(Refusal::Range);
    };
    Ok(monotonic)
}

/// Returns REALTIME after it is moved by an amount, in ns, or `None` if it is below MONOTONIC then,
/// or at a time that may not be set.
fn settable(monotonic: u64, real: u64, by: Timespec) -> Option<u64>
    requires real { real < (clock_end + monotonic_end) * 10 ^ 9 }
    requires rest { by.nsec < 10 ^ 9 }
    ensures { let after = pos real +ℤ nanoseconds by in
        MatchOption result
        ((after <ℤ pos monotonic) ⊎ (pos (settable_end * 10 ^ 9) ≤ℤ after))
        (λ nanos. (pos nanos ≡ after) × (pos monotonic ≤ℤ after)
        × (after <ℤ pos (settable_end * 10 ^ 9))) }
{
    let Some(after) = time_moved(real, by) else {
        return None;
    };
    if after < monotonic || after >= SETTABLE_LIMIT {
        return None;
    }
    Some(after)
}

/// Runs the tests of a step that don't depend on a clock's value.
#[tactic(auto, using(crate::proofs::StepTests::formed))]
fn test_early(snapshot: &Snapshot, reading: u64, by: Timespec) -> Result<(), Refusal>
    ensures { let base = snapshot.now.base in
        MatchResult result
        (λ _. (early_refusal base.counter base.asleep base.last reading (Step by) ≡ None)
        × (reading ≤ mask base.counter) × (by.nsec < 10 ^ 9))
        (λ refusal. early_refusal base.counter base.asleep base.last reading (Step by)
        ≡ Some refusal) }
{
    let desc = snapshot.desc();
    if snapshot.asleep() {
        return Err(Refusal::Asleep);
    }
    if reading > desc.mask() || u64::from(by.nsec) >= NANOS_PER_SECOND {
        return Err(Refusal::Invalid);
    }
    if desc.is_behind(desc.gap(snapshot.last(), reading)) {
        return Err(Refusal::Behind);
    }
    Ok(())
}

/// Writes a time in ns.
fn store_nanos(out: &mut TimeStorage, nanos: u64)
    ensures { IsStored out.new (pos nanos) }
{
    out.sec = (nanos / NANOS_PER_SECOND) as i64;
    out.nsec = (nanos % NANOS_PER_SECOND) as u32;
    out.padding = 0;
}
