use super::{assert_same, time};
use tk_clock::Refusal;
use tk_keeper::Timekeeper;
use tk_test_support::nanosecond_counter;

#[test]
fn only_a_settable_time_opens(rt: HostRuntime) {
    let desc = nanosecond_counter().expect(&rt, "a counter");
    for (reading, real) in [
        (4_294_967_296, time(0, 0)),
        (0, time(-1, 0)),
        (0, time(8_277_292_036, 0)),
    ] {
        let refused = Timekeeper::open(rt.alloc(), desc, reading, real).err();
        let wanted = Some(Refusal::Invalid);
        assert_same(&rt, &(reading, real, refused), &(reading, real, wanted));
    }
}
