//! Reads scripts by the names of their files.
ghost use Rattle.std.specs.Prelude.{◌≡◌, IfErr, IfOk};
ghost use Rattle.tk_program.specs.Race.{AreScriptsFrom, IsScriptFrom, StopsScript, StopsScripts, asks, changes_counter};

use crate::ending::Ending;
use crate::files::read_file;
use crate::folder::Folder;
use crate::racer::Racer;
use std::alloc::Global;
use tk_report::Fault;
use tk_script::{Row, Script, Start};

/// Reads and parses the script of each file, before it opens the next file.
///
/// # Errors
///
/// Returns the first fault; `Fault::Memory` may replace any other result:
/// - `Ending::Fault` with `Fault::Read`: a file can't be opened or read
/// - `Ending::File`: its script has a fault
/// - `Ending::Running`: its script begins from running clocks that nothing steers
/// - `Ending::Steered`: its script opens steered clocks, or continues running ones
/// - `Ending::Counter`: its script changes its counter
/// - `Ending::Steered`: its script contains a request
/// - `Ending::Fault` with `Fault::Memory`: an allocation failed
pub(crate) fn read_scripts<D: Folder>(
    alloc: Global,
    folder: &D,
    names: &[&str],
) -> Result<Vec<Racer>, Ending>
    ensures ok { IfOk result (λ scripts. AreScriptsFrom D.Folder.open_gives D.File.Read.remaining
        D.File.Source.read_gives folder.now names.now scripts.items) }
    ensures err { IfErr result (StopsScripts D.Folder.open_gives D.File.Read.remaining
        D.File.Source.read_gives folder.now names.now) }
{
    let Ok(mut scripts) = Vec::with_capacity(alloc, names.len()) else {
        return Err(Ending::Fault(Fault::Memory));
    };
    'files: for (place, name) in names.iter().enumerate() {
        scripts.push_reserved(read_script(alloc, folder, place, name)?);
    }
    Ok(scripts)
}

/// Reads and parses the script of the file at an index.
fn read_script<D: Folder>(
    alloc: Global,
    folder: &D,
    place: usize,
    name: &str,
) -> Result<Racer, Ending>
    ensures ok { IfOk result (IsScriptFrom D.Folder.open_gives D.File.Read.remaining
        D.File.Source.read_gives folder.now name.now) }
    ensures err { IfErr result (StopsScript D.Folder.open_gives D.File.Read.remaining
        D.File.Source.read_gives folder.now place name.now) }
{
    let text = match read_file(alloc, folder, name) {
        Ok(text) => text,
        Err(fault) => return Err(Ending::Fault(fault)),
    };
    let Script { start, rows } = match Script::from_bytes(alloc, text.as_slice()) {
        Ok(script) => script,
        Err(error) => return Err(Ending::of_file(place, error)),
    };
    let opening = match start {
        Start::Opened(opening) => opening,
        Start::Running { .. } => return Err(Ending::Running { index: place }),
        Start::Steered { .. } => return Err(Ending::Steered { index: place }),
        Start::Continued { .. } => return Err(Ending::Steered { index: place }),
    };
    let racer = Racer { opening, rows };
    if has_change(&racer) {
        return Err(Ending::Counter { index: place });
    }
    if has_request(&racer) {
        return Err(Ending::Steered { index: place });
    }
    Ok(racer)
}

/// Returns whether a script changes its counter.
fn has_change(racer: &Racer) -> bool
    ensures { result ≡ changes_counter racer.now }
{
    let mut rows = racer.rows.iter();
    rows.any(|row| matches!(row, Row::Change { .. }))
}

/// Returns whether a script contains a request.
fn has_request(racer: &Racer) -> bool
    ensures { result ≡ asks racer.now }
{
    let mut rows = racer.rows.iter();
    rows.any(|row| matches!(row, Row::Ask { .. }))
}
