use crate::stop::Stop;
use tk_counter::CounterDesc;

/// Prints the numbers of a counter for a program that converts cycles itself:
///
/// - the multiplier at 500 ppm;
/// - the longest gap whose product with any multiplier fits in 64 bits, as the kernel requires;
/// - the longest gap after which a read is as fast as after a short one.
pub(crate) fn bounds(rt: &impl Print, desc: CounterDesc) -> Result<(), Stop> {
    println!(rt; "multiplier at 500 ppm: {}", desc.mult_for(500 << 16))?;
    println!(rt; "longest gap of 64 bits: {}", desc.max_cycles())?;
    println!(rt; "longest gap of a fast read: {}", desc.fast_span())?;
    Ok(())
}
