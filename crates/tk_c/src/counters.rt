ghost use Rattle.std.specs.Prelude.{◌≡◌, MatchOption, MatchResult, Some, None};
ghost use Rattle.tk_counter.specs.Counter.{Counter};
ghost use Rattle.tk_counter.specs.Description.{first_fault};
ghost use Rattle.tk_counter.specs.Frequency.{hertz, kilohertz};
ghost use Rattle.tk_c.specs.Codes.{number_of, code_of_fault};
ghost use Rattle.tk_c.specs.declared.code.Code.TheVariants.{Done};
ghost use Rattle.tk_c.specs.Rate.{IsMadeAtRate, requested_rate};
ghost use Rattle.tk_c.specs.Storage.{counter_storage};

use crate::code::Code;
use crate::storage::CounterStorage;
use tk_clock::Snapshot;
use tk_counter::{CounterDesc, DescError};

/// Writes the counter with these numbers to `out` (`CounterDesc::new`).
///
/// A reading has 8 to 64 bits, and a cycle lasts `mult / 2^shift` ns.
///
/// # Errors
///
/// Leaves `out` and returns, in this order:
///
/// - `Code::BadBits` unless `bits` is 8 to 64;
/// - `Code::BadShift` if `shift` is above 32;
/// - `Code::BadMult` if `mult` is below 256;
/// - `Code::BadAdjust` if `mult` plus 11 percent doesn't fit in 32 bits.
#[unsafe(no_mangle)]
pub extern "C" fn tkc_counter_new(out: &mut CounterStorage, bits: u32, mult: u32, shift: u32) -> u32
    ensures { let counter : Counter = record { bits = bits; mult = mult; shift = shift } in
        MatchOption (first_fault counter)
        ((result ≡ number_of Done) × (out.new ≡ counter_storage counter))
        (λ fault. (result ≡ number_of (code_of_fault fault)) × (out.new ≡ out.old)) }
{
    write(out, CounterDesc::new(bits, mult, shift))
}

/// Writes the counter that runs at `hz` cycles a second to `out` (`CounterDesc::from_hz`).
///
/// Gaps of up to `maxsec` seconds convert within 64 bits.
///
/// # Errors
///
/// Leaves `out` and returns, in this order:
///
/// - `Code::BadBits` unless `bits` is 8 to 64;
/// - `Code::BadRate` if `hz` is 0 or above 2^32 - 1, or unless `maxsec` is 1 to 600.
#[unsafe(no_mangle)]
pub extern "C" fn tkc_counter_from_hz(
    out: &mut CounterStorage,
    bits: u32,
    hz: u64,
    maxsec: u32,
) -> u32
    ensures { IsMadeAtRate hertz bits hz maxsec out.old result out.new }
{
    write(out, CounterDesc::from_hz(bits, requested_rate(hz), maxsec))
}

/// Writes the counter that runs at `khz` cycles a millisecond to `out` (`CounterDesc::from_khz`).
///
/// Gaps of up to `maxsec` seconds convert within 64 bits.
///
/// # Errors
///
/// Leaves `out` and returns, in this order:
///
/// - `Code::BadBits` unless `bits` is 8 to 64;
/// - `Code::BadRate` if `khz` is 0 or above 2^32 - 1, or unless `maxsec` is 1 to 600.
#[unsafe(no_mangle)]
pub extern "C" fn tkc_counter_from_khz(
    out: &mut CounterStorage,
    bits: u32,
    khz: u64,
    maxsec: u32,
) -> u32
    ensures { IsMadeAtRate kilohertz bits khz maxsec out.old result out.new }
{
    write(
        out,
        CounterDesc::from_khz(bits, requested_rate(khz), maxsec),
    )
}

/// Writes the numbers of a counter (`CounterDesc::bits`, `mult` and `shift`): the bits of a
/// reading, and the mult and shift of a cycle, which takes `mult / 2^shift` ns.
///
/// `tkc_counter_new` makes the same counter from these numbers.
#[unsafe(no_mangle)]
pub extern "C" fn tkc_counter_numbers(
    bits: &mut u32,
    mult: &mut u32,
    shift: &mut u32,
    counter: &CounterDesc,
)
    ensures bits { bits.new ≡ counter.now.bits }
    ensures mult { mult.new ≡ counter.now.mult }
    ensures shift { shift.new ≡ counter.now.shift }
    ensures back { first_fault (record { bits = bits.new; mult = mult.new; shift = shift.new })
        ≡ None }
{
    *bits = counter.bits();
    *mult = counter.mult();
    *shift = counter.shift();
}

/// Writes the counter whose readings a snapshot converts to `out` (`Snapshot::desc`).
#[unsafe(no_mangle)]
pub extern "C" fn tkc_snapshot_counter(out: &mut CounterStorage, snapshot: &Snapshot)
    ensures { out.new ≡ counter_storage snapshot.now.base.counter }
{
    *out = CounterStorage::from(snapshot.desc());
}

/// Returns a rate as `CounterDesc` takes it, in 32 bits. A rate above 2^32 - 1 becomes 0, which is
/// refused.
fn requested_rate(rate: u64) -> u32
    ensures { result ≡ requested_rate rate }
{
    if rate > u64::from(u32::MAX) {
        0
    } else {
        rate as u32
    }
}

/// Writes a counter to `out` and returns the code of success, or returns the code of the fault.
pub(crate) fn write(out: &mut CounterStorage, made: Result<CounterDesc, DescError>) -> u32
    ensures { MatchResult made
        (λ counter. (result ≡ number_of Done) × (out.new ≡ counter_storage counter))
        (λ fault. (result ≡ number_of (code_of_fault fault)) × (out.new ≡ out.old)) }
{
    match made {
        Ok(counter) => {
            *out = CounterStorage::from(counter);
            Code::Done.number()
        }
        Err(fault) => Code::from(fault).number(),
    }
}
