use super::{OPENED_REAL, assert_same};
use tk_clock::Command;
use tk_test_support::opened_page;

#[test]
fn an_update_is_passed_on_and_read(rt: HostRuntime) {
    let (page, mut desk, mut viewer) = opened_page(&rt, rt.alloc()).expect(&rt, "a page");
    let words = [0, 0, 16_777_216, 0, 0, OPENED_REAL, 0, 0, 0, 0];
    assert_same(&rt, &viewer.read(&rt, &page).words(), &words);
    assert_same(&rt, &viewer.front(), &0);
    let number = desk.command(&rt, &page, 100, Command::Update);
    assert_same(&rt, &number, &Ok(1));
    desk.tell(&rt, &page, &mut viewer);
    assert_same(&rt, &viewer.front(), &1);
    let amount = 1_677_721_600;
    let words = [1, 100, 16_777_216, amount, 0, OPENED_REAL, 0, 0, amount, 0];
    assert_same(&rt, &viewer.read(&rt, &page).words(), &words);
    assert_same(&rt, &viewer.front(), &1);
}

#[test]
fn each_publication_shows_its_own_words(rt: HostRuntime) {
    let (page, mut desk, mut viewer) = opened_page(&rt, rt.alloc()).expect(&rt, "a page");
    for (reading, cmd, words) in [
        (
            0,
            Command::Tick(11_000),
            [1, 0, 18_454_937, 0, 0, OPENED_REAL, 0, 0, 0, 0],
        ),
        (
            1_000_000_000,
            Command::Freq(32_768_000),
            [
                2,
                1_000_000_000,
                18_463_326,
                1_677_721_000_000_000,
                1,
                OPENED_REAL,
                0,
                0,
                0,
                1,
            ],
        ),
        (
            1_000_000_000,
            Command::Tai(37),
            [
                3,
                1_000_000_000,
                18_463_326,
                1_677_721_000_000_000,
                1,
                OPENED_REAL,
                0,
                74,
                0,
                1,
            ],
        ),
        (
            1_000_000_000,
            Command::Leap { by: -1, tai: 38 },
            [
                4,
                1_000_000_000,
                18_463_326,
                1_677_721_000_000_000,
                1,
                OPENED_REAL - 1_000_000_000,
                0,
                76,
                0,
                1,
            ],
        ),
    ] {
        let number = desk.command(&rt, &page, reading, cmd);
        number.expect(&rt, "a command");
        assert_same(&rt, &viewer.read(&rt, &page).words(), &words);
    }
}

#[test]
fn a_split_viewer_knows_as_much_and_a_joined_one_the_more(rt: HostRuntime) {
    let (page, mut desk, viewer) = opened_page(&rt, rt.alloc()).expect(&rt, "a page");
    let (mut early, mut late) = viewer.split(&page);
    let number = desk.command(&rt, &page, 7, Command::Update);
    number.expect(&rt, "an update");
    assert_same(&rt, &early.read(&rt, &page).last(), &7);
    assert_same(&rt, &(early.front(), late.front()), &(1, 0));
    let number = desk.command(&rt, &page, 9, Command::Suspend);
    number.expect(&rt, "a suspension");
    assert_same(&rt, &late.read(&rt, &page).asleep(), &true);
    let (early, again) = early.split(&page);
    assert_same(&rt, &(early.front(), again.front()), &(1, 1));
    let joined = early.join(late, &page);
    assert_same(&rt, &joined.front(), &2);
    assert_same(&rt, &joined.join(again, &page).front(), &2);
}
