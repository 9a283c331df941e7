//! Finds the fields of a line that are not kept with it.
ghost use Rattle.std.specs.Prelude.{◌≡◌, option_map};
ghost use Rattle.csv.specs.Records.{field_at};
ghost use Rattle.tk_script.specs.Plain.{cut_at_commas};

use memchr::memchr;

/// Returns the field at an index of a line. It searches for all commas before it.
pub(crate) fn field_in_line(line: &[u8], i: usize) -> Option<&[u8]>
    ensures { option_map (λ s. s.now) result ≡ field_at (cut_at_commas line.now) i }
{
    let mut rest = line;
    'commas: for place in 0..i {
        let Some(comma) = memchr(b',', rest) else {
            return None;
        };
        rest = &rest[comma + 1..];
    }
    match memchr(b',', rest) {
        Some(comma) => Some(&rest[..comma]),
        None => Some(rest),
    }
}
