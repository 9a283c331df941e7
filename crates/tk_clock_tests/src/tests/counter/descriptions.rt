use super::{assert_same, assert_same_at, desc_of, nanosecond_counter, quick, slow};
use tk_counter::{CounterDesc, DescError};

#[test]
fn the_first_fault_is_returned(rt: HostRuntime) {
    for (bits, mult, shift, fault) in [
        (7, 16_777_216, 24, DescError::Bits),
        (65, 255, 33, DescError::Bits),
        (32, 16_777_216, 33, DescError::Shift),
        (32, 255, 33, DescError::Shift),
        (32, 255, 24, DescError::Mult),
        (32, 4_000_000_000, 2, DescError::Adjust),
        (32, 3_869_339_907, 2, DescError::Adjust),
    ] {
        let made = CounterDesc::new(bits, mult, shift);
        assert_same_at(&rt, &(bits, mult, shift), &made, &Err(fault));
    }
}

#[test]
fn the_ends_of_the_ranges_are_taken(rt: HostRuntime) {
    for (bits, mult, shift) in [(8, 256, 0), (64, 3_869_339_906, 32)] {
        let desc = desc_of(&rt, bits, mult, shift);
        assert_same(
            &rt,
            &(desc.bits(), desc.mult(), desc.shift()),
            &(bits, mult, shift),
        );
    }
}

#[test]
fn a_description_fixes_its_amounts(rt: HostRuntime) {
    let desc = nanosecond_counter(&rt);
    assert_same(
        &rt,
        &(desc.mask(), desc.half()),
        &(4_294_967_295, 2_147_483_647),
    );
    assert_same(&rt, &desc.max_adj(), &1_845_493);
    assert_same(&rt, &desc.max_cycles(), &4_294_967_295);
    assert_same(&rt, &desc.fast_span(), &2_147_483_647);
    assert_same(&rt, &desc.second(), &16_777_216_000_000_000);
    assert_same(&rt, &slow(&rt).second(), &1_000_000_000);
}

#[test]
fn a_wide_counter_is_bounded_by_the_word(rt: HostRuntime) {
    assert_same(
        &rt,
        &(quick(&rt).mask(), quick(&rt).half()),
        &(u64::MAX, u64::MAX >> 1),
    );
    let wide = desc_of(&rt, 48, 16_777_216, 24);
    assert_same(&rt, &wide.fast_span(), &495_275_528_219);
}

#[test]
fn a_fault_reads_as_a_sentence(rt: HostRuntime) {
    let text = format!(in rt.alloc(); "{}", DescError::Adjust).expect(&rt, "memory");
    assert_same(
        &rt,
        &text.as_str(),
        &"the mult and 11 percent of it do not fit 32 bits",
    );
}
