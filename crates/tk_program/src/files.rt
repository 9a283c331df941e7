//! Reads files by their names.
ghost use Rattle.std.specs.Prelude.{IfOk, IfErr};
ghost use Rattle.tk_program.specs.Files.{AreReadFrom, IsReadFrom, StopsFile, StopsFiles};

use crate::folder::Folder;
use std::alloc::Global;
use tk_report::{Fault, read_to_end};

/// Reads each file, in order, to its end or up to one byte more than the largest script.
///
/// # Errors
///
/// - `Read`: a file can't be opened or read; no later one is opened
/// - `Memory`: an allocation failed
pub(crate) fn read_files<D: Folder>(
    alloc: Global,
    folder: &D,
    names: &[&str],
) -> Result<Vec<Vec<u8>>, Fault>
    ensures ok { IfOk result (λ texts. AreReadFrom D.Folder.open_gives D.File.Read.remaining
        D.File.Source.read_gives folder.now names.now texts.items) }
    ensures err { IfErr result (StopsFiles D.Folder.open_gives D.File.Read.remaining
        D.File.Source.read_gives folder.now names.now) }
{
    let mut texts = Vec::with_capacity(alloc, names.len())?;
    'files: for name in names {
        texts.push_reserved(read_file(alloc, folder, name)?);
    }
    Ok(texts)
}

/// Reads one file.
pub(crate) fn read_file<D: Folder>(alloc: Global, folder: &D, name: &str) -> Result<Vec<u8>, Fault>
    ensures ok { IfOk result (λ text. IsReadFrom D.Folder.open_gives D.File.Read.remaining
        D.File.Source.read_gives folder.now name.now text.items) }
    ensures err { IfErr result (StopsFile D.Folder.open_gives D.File.Read.remaining
        D.File.Source.read_gives folder.now name.now) }
{
    let Some(mut file) = folder.open_once(name) else {
        return Err(Fault::Read);
    };
    read_to_end(alloc, &mut file)
}
