use super::{act, assert_opening, assert_rows, look, time};
use tk_clock::{ClockId, Command};

#[test]
fn reads_an_opening_and_rows(rt: HostRuntime) {
    let script = b"open,32,16777216,24,5,1700000000,7\nupdate,007\nget,9,monotonic\n";
    let counter = (32, 16_777_216, 24);
    assert_opening(&rt, script, counter, 5, time(1_700_000_000, 7));
    let rows = [act(7, Command::Update), look(9, ClockId::Monotonic)];
    assert_rows(&rt, script, rows.as_slice());
    let narrow = b"open,8,256,0,255,0,0\n";
    assert_opening(&rt, narrow, (8, 256, 0), 255, time(0, 0));
    assert_rows(&rt, narrow, &[]);
}

#[test]
fn reads_an_opening_by_its_frequency(rt: HostRuntime) {
    let script = b"openhz,32,24000000,600,0,1700000000,0\n";
    let counter = (32, 699_050_667, 24);
    assert_opening(&rt, script, counter, 0, time(1_700_000_000, 0));
}
