//! Keepers of steered clocks that run already.
use super::{CALLER, assert_alike, assert_same, offset, plain};
use std::process::Abort;
use tk_clock::{Command, Refusal};
use tk_ntp::SteeredClock;
use tk_steered::Steered;

/// The greatest number of commands that can be counted.
const MOST: u64 = (1 << 63) - 1;

/// Returns clocks that follow an offset, after ten seconds and a half.
fn running(rt: &impl Abort) -> SteeredClock {
    let mut plain = plain(rt);
    let _reply = plain.adjtimex(0, &offset(400_000));
    assert_same(rt, &plain.advance(10_500_000_000), &Ok(()));
    plain
}

#[test]
fn a_keeper_of_running_clocks_goes_on_with_them(rt: HostRuntime) {
    let mut plain = running(&rt);
    let numbers = plain.numbers();
    let restored = SteeredClock::from_numbers(plain.clock(), numbers).expect(&rt, "numbers");
    let mut steered = Steered::open_from(rt.alloc(), restored, 700).expect(&rt, "a keeper");
    assert_alike(&rt, &steered.clock(), &plain);
    assert_same(&rt, &steered.keeper().len(), &700);
    for place in 1..=20u64 {
        let reading = 10_500_000_000 + place * 777_777_777;
        assert_same(
            &rt,
            &steered.advance(CALLER, reading),
            &plain.advance(reading),
        );
        assert_alike(&rt, &steered.clock(), &plain);
    }
    // the seconds gave commands, which have the numbers after 700
    assert_same(&rt, &steered.keeper().entry(701).is_some(), &true);
    assert_same(&rt, &steered.keeper().entry(700).is_none(), &true);
}

#[test]
fn the_commands_of_running_clocks_are_counted_on(rt: HostRuntime) {
    let running = running(&rt);
    let mut steered = Steered::open_from(rt.alloc(), running, 700).expect(&rt, "a keeper");
    let reading = 10_600_000_000;
    let found = steered.apply(CALLER, reading, Command::Update);
    assert_same(&rt, &found, &Ok(701));
}

#[test]
fn more_commands_than_can_be_counted_are_refused(rt: HostRuntime) {
    let running = running(&rt);
    for front in [MOST + 1, u64::MAX] {
        let refused = Steered::open_from(rt.alloc(), running, front).err();
        assert_same(&rt, &refused, &Some(Refusal::Invalid));
    }
    let mut full = Steered::open_from(rt.alloc(), running, MOST).expect(&rt, "a keeper");
    let found = full.apply(CALLER, 10_600_000_000, Command::Update);
    assert_same(&rt, &found, &Err(Refusal::Full));
}
