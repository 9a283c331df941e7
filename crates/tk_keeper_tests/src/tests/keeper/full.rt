use super::{answers, assert_same, folds, length, reserves, updated};
use tk_clock::Command::Update;
use tk_clock::Refusal::Full;

#[test]
fn folding_makes_room_again(rt: HostRuntime) {
    let mut keeper = updated(&rt, rt.alloc(), 1_048_576, 0);
    // the journal lists no further command, so no command needs memory
    assert_same(&rt, &reserves(&mut keeper, 5), &Ok(()));
    answers(&rt, &mut keeper, &[(0, Update, Err(Full))]);
    folds(&rt, &mut keeper, 1, 1_048_575);
    answers(&rt, &mut keeper, &[(0, Update, Ok(1_048_577))]);
    assert_same(&rt, &length(&keeper), &1_048_577);
}
