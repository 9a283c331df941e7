use super::assert_lines;
use tk_counter::DescError;
use tk_script::ScriptError;

#[test]
fn shows_each_fault(rt: HostRuntime) {
    let of_records = [
        ScriptError::Opening { row: 1 },
        ScriptError::Word { row: 2 },
        ScriptError::Fields { row: 3 },
        ScriptError::Number { row: 4 },
        ScriptError::Counter {
            row: 5,
            error: DescError::Shift,
        },
    ];
    let texts = "record 1: not a valid opening\n\
record 2: unknown word\n\
record 3: wrong number of fields\n\
record 4: not a number in range\n\
record 5: the shift is above 32\n";
    assert_lines(&rt, of_records.as_slice(), texts);
    let others = [
        ScriptError::TooLarge,
        ScriptError::Empty,
        ScriptError::Memory,
    ];
    let texts = "larger than 16777216 bytes\nno record\nout of memory\n";
    assert_lines(&rt, others.as_slice(), texts);
}
