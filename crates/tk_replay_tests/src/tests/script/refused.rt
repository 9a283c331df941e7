//! Scripts and stamps use the process's memory only, because `csv` does. If an allocation fails,
//! under `rt try --test --fail-alloc N -- refused::`, a test ends with `Memory`; otherwise the
//! result is right.

use super::{act, assert_same, look};
use std::test::Fail;
use tk_clock::{ClockId, Command};
use tk_script::{Row, Script, ScriptError, Stamps};

const SCRIPT: &[u8] = b"openhz,32,24000000,600,0,1700000000,0
get,18446744073709551615,monotonic_coarse
freq,18446744073709551615,-9223372036854775808
update,0
update,0
update,0
update,0
update,0
update,0
update,0
";

/// Returns an update at reading 0. (The prover of the borrow checker fails on a row that is copied
/// often.)
fn update() -> Row {
    act(0, Command::Update)
}

/// Returns the rows of `SCRIPT`.
fn rows() -> [Row; 9] {
    [
        look(u64::MAX, ClockId::MonotonicCoarse),
        act(u64::MAX, Command::Freq(i64::MIN)),
        update(),
        update(),
        update(),
        update(),
        update(),
        update(),
        update(),
    ]
}

#[test]
fn reads_a_script_where_memory_is_there(rt: HostRuntime) -> Result<(), Fail> {
    match Script::from_bytes(rt.alloc(), SCRIPT) {
        Ok(script) => {
            assert_same(&rt, &script.rows.as_slice(), &rows().as_slice());
            Ok(())
        }
        Err(error) => {
            assert_same(&rt, &error, &ScriptError::Memory);
            Err(error)?
        }
    }
}

#[test]
fn reads_stamps_where_memory_is_there(rt: HostRuntime) -> Result<(), Fail> {
    let bytes = b"1,18446744073709551615\n2,2\n3,3\n4,4\n5,5\n6,6\n7,7\n8,8\n9,9\n";
    match Stamps::from_bytes(rt.alloc(), bytes) {
        Ok(returned) => {
            assert_same(
                &rt,
                &returned.fronts.as_slice(),
                &[1, 2, 3, 4, 5, 6, 7, 8, 9].as_slice(),
            );
            let stamps = [u64::MAX, 2, 3, 4, 5, 6, 7, 8, 9];
            assert_same(&rt, &returned.stamps.as_slice(), &stamps.as_slice());
            Ok(())
        }
        Err(error) => {
            assert_same(&rt, &error, &ScriptError::Memory);
            Err(error)?
        }
    }
}
