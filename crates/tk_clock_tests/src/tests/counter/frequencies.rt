use super::{assert_same, assert_same_at, next_random};
use tk_counter::{CounterDesc, DescError};

/// The scales of the kernel's `clocksource_register_hz` and `clocksource_register_khz`.
const HERTZ: u32 = 1;

const KILOHERTZ: u32 = 1_000;

/// Computes the mult and the shift as kernel/time/clocksource.c does: `clocks_calc_mult_shift` for
/// 10^9 / scale, and then the halving of `__clocksource_update_freq_scale`.
fn kernel_scale(scale: u32, rate: u32, maxsec: u32) -> Option<(u64, u32)> {
    let unit = 1_000_000_000u64.checked_div(u64::from(scale))?;
    let mut free = 32u32;
    let span = u64::from(maxsec).saturating_mul(u64::from(scale));
    let mut left = span.saturating_mul(u64::from(rate)) >> 32;
    for _ in 0..32 {
        if left > 0 {
            left >>= 1;
            free = free.saturating_sub(1);
        }
    }
    for shift in (1..33).rev() {
        let mult = ((unit << shift).saturating_add(u64::from(rate / 2))).checked_div(u64::from(
            rate,
        ))?;
        if mult.checked_shr(free)? == 0 {
            return Some(kernel_halving(mult, shift));
        }
    }
    None
}

fn kernel_halving(mult: u64, shift: u32) -> (u64, u32) {
    if mult.saturating_add(mult.saturating_mul(11) / 100) > 0xffff_ffff {
        return (mult / 2, shift.saturating_sub(1));
    }
    (mult, shift)
}

/// A row contains the scale, the rate, the seconds, the mult and the shift. A C copy of the
/// arithmetic of these two functions, built by gcc, made the values; a copy in Python made those in
/// kHz, too.
const FROM_KERNEL: [(u32, u32, u32, u32, u32); 24] = [
    (HERTZ, 1, 1, 2_000_000_000, 1),
    (HERTZ, 1, 600, 2_000_000_000, 1),
    (HERTZ, 32_768, 600, 2_000_000_000, 16),
    (HERTZ, 1_193_182, 600, 3_515_225_674, 22),
    (HERTZ, 3_579_545, 4, 2_343_484_437, 23),
    (HERTZ, 14_318_180, 300, 1_171_742_219, 24),
    (HERTZ, 19_200_000, 600, 873_813_333, 24),
    (HERTZ, 24_000_000, 600, 699_050_667, 24),
    (HERTZ, 1_000_000_000, 4, 2_147_483_648, 31),
    (HERTZ, 1_050_000_000, 1, 2_045_222_522, 31),
    (HERTZ, 4_294_967_295, 1, 1_000_000_000, 32),
    (HERTZ, 4_294_967_295, 600, 3_906_250, 24),
    (KILOHERTZ, 1, 1, 2_048_000_000, 11),
    (KILOHERTZ, 1, 600, 2_048_000_000, 11),
    (KILOHERTZ, 3, 1, 2_730_666_667, 13),
    (KILOHERTZ, 24_000, 600, 699_050_667, 24),
    (KILOHERTZ, 1_050_000, 1, 2_045_222_522, 31),
    (KILOHERTZ, 4_294_967, 600, 3_906_250, 24),
    (KILOHERTZ, 4_294_968, 600, 3_906_249, 24),
    (KILOHERTZ, 4_491_000, 1, 956_349_877, 32),
    (KILOHERTZ, 4_491_000, 4, 478_174_938, 31),
    (KILOHERTZ, 4_491_000, 600, 3_735_742, 24),
    (KILOHERTZ, 4_294_967_295, 1, 1_000_000, 32),
    (KILOHERTZ, 4_294_967_295, 600, 3_906, 24),
];

/// Describes a counter by its rate in Hz or in kHz.
fn described(scale: u32, bits: u32, rate: u32, maxsec: u32) -> Result<CounterDesc, DescError> {
    if scale == HERTZ {
        CounterDesc::from_hz(bits, rate, maxsec)
    } else {
        CounterDesc::from_khz(bits, rate, maxsec)
    }
}

#[test]
fn a_rate_is_scaled_as_in_the_kernel(rt: HostRuntime) {
    for (scale, rate, maxsec, mult, shift) in FROM_KERNEL {
        for bits in [32, 64] {
            let desc = described(scale, bits, rate, maxsec).expect(&rt, "a counter");
            let made = (desc.bits(), desc.mult(), desc.shift());
            let row = (scale, rate, maxsec);
            assert_same_at(&rt, &row, &made, &(bits, mult, shift));
        }
    }
}

#[test]
fn a_frequency_fixes_the_amounts(rt: HostRuntime) {
    let desc = described(HERTZ, 32, 24_000_000, 600).expect(&rt, "a counter");
    assert_same(&rt, &desc.max_adj(), &76_895_573);
    assert_same(&rt, &desc.max_cycles(), &4_294_967_295);
}

#[test]
fn the_bits_are_refused_before_the_rate(rt: HostRuntime) {
    for (bits, rate, maxsec, fault) in [
        (7, 0, 601, Err(DescError::Bits)),
        (65, 24_000_000, 600, Err(DescError::Bits)),
        (32, 0, 600, Err(DescError::Rate)),
        (32, 24_000_000, 0, Err(DescError::Rate)),
        (32, 24_000_000, 601, Err(DescError::Rate)),
    ] {
        for scale in [HERTZ, KILOHERTZ] {
            let row = (scale, bits, rate, maxsec);
            assert_same_at(&rt, &row, &described(scale, bits, rate, maxsec), &fault);
        }
    }
}

#[test]
fn any_frequency_is_scaled_as_by_the_kernels_loops(rt: HostRuntime) {
    let mut seed = 88_172_645_463_325_252;
    for _ in 0..4_000 {
        seed = next_random(seed);
        let rate = (seed >> 32 >> (seed & 31)) as u32 | 1;
        let maxsec = 1 + (seed >> 8 & 511) as u32;
        for scale in [HERTZ, KILOHERTZ] {
            let desc = described(scale, 64, rate, maxsec).expect(&rt, "a counter");
            let made = Some((u64::from(desc.mult()), desc.shift()));
            let row = (scale, rate, maxsec);
            assert_same_at(&rt, &row, &made, &kernel_scale(scale, rate, maxsec));
        }
    }
}

#[test]
fn a_rate_makes_the_same_counter_in_hz_and_in_khz(rt: HostRuntime) {
    let mut seed = 1_181_783_497_276_652_981;
    for _ in 0..4_000 {
        seed = next_random(seed);
        let khz = 1 + (seed >> 32 >> (seed & 31)) as u32 % 4_294_967;
        let maxsec = 1 + (seed >> 8 & 511) as u32;
        let in_hz = described(HERTZ, 64, khz.saturating_mul(1_000), maxsec);
        let in_khz = described(KILOHERTZ, 64, khz, maxsec);
        assert_same_at(&rt, &(khz, maxsec), &in_khz.is_ok(), &true);
        assert_same_at(&rt, &(khz, maxsec), &in_khz, &in_hz);
    }
}
