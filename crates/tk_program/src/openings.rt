ghost use Rattle.std.specs.Prelude.{◌↔◌, IsTrue};
ghost use Rattle.tk_program.specs.Openings.{AreSameOpenings};

use tk_script::Opening;

/// Returns whether two openings have the same counter, reading and REALTIME.
///
/// `open` and `openhz` that describe the same counter are equal.
pub fn same_opening(one: &Opening, other: &Opening) -> bool
    ensures { IsTrue result ↔ AreSameOpenings one.now other.now }
{
    one.desc == other.desc && one.reading == other.reading && one.real == other.real
}
