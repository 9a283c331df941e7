//! The law that a session's lines are the report of the whole script.
ghost use Rattle.tk_session.specs.Whole.{FaultIsTheScripts, LinesAreTheReport, OpeningFaultIsTheScripts};

/// Proves that the lines of a session, one after the other, are the report of the script whose text
/// consists of its records. Each record ends with a line feed, which the last one may lack. The first
/// record is not an empty line. If a record is refused by a fault, the script has this fault, and no
/// report: a later record, or the first one.
///
/// The script has at most 16,777,216 bytes.
///
/// It does nothing when it runs.
pub fn lines_are_the_report()
    ensures lines { LinesAreTheReport }
    ensures fault { FaultIsTheScripts }
    ensures opening { OpeningFaultIsTheScripts }
{}
