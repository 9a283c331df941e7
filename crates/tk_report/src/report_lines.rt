ghost use Rattle.std.specs.Prelude.{◌≡◌, ◌+◌, ◌<◌, ◌≤◌, ◌^◌, [], OnOk, IfOk, IfErr};
ghost use Rattle.tk_report.specs.Lines.{HasRoom, IsNoted};
ghost use Rattle.tk_script.specs.Lines.{open_line};

use crate::checked_report::CheckedReport;
use std::alloc::Allocator;
use tk_counter::CounterDesc;
use tk_script::{Calendar, ScriptError, line_differs, line_open};

/// Contains the lines of a report so far.
#[derive(Drop)]
pub(crate) struct Lines<A: Allocator> {
    pub(crate) text: Vec<u8, A>,
    pub(crate) calendar: Calendar<A>,
    /// The number of records that have a line, the opening included.
    records: u64,
    /// The number of lines `differs,RECORD,VALUE`.
    differences: u64,
}

impl<A: Allocator + Copy> Lines<A> {
    /// Begins a report with the line of the opening.
    pub(crate) fn open(alloc: A, desc: &CounterDesc) -> Result<Lines<A>, ScriptError>
        ensures ok { IfOk result (λ lines. (lines.text.items ≡ open_line desc.now)
            × (lines.records ≡ 1) × (lines.differences ≡ 0)) }
        ensures err { IfErr result (λ error. error ≡ ScriptError.Memory) }
    {
        let mut text = Vec::new(alloc);
        line_open(&mut text, desc)?;
        Ok(Lines {
            text,
            calendar: Calendar::new(alloc),
            records: 1,
            differences: 0,
        })
    }

    /// Counts a record that has a line. If it does not give an expected value, this appends a line
    /// with that value, and counts the difference.
    #[inline(always)]
    pub(crate) fn note(&mut self, missed: Option<u64>) -> Result<(), ScriptError>
        requires { HasRoom 1 self.old }
        ensures noted { OnOk result (IsNoted self.old [] missed self.new) }
        ensures err { IfErr result (λ error. error ≡ ScriptError.Memory) }
    {
        self.records += 1;
        if let Some(value) = missed {
            line_differs(&mut self.text, self.records, value)?;
            self.differences += 1;
        }
        Ok(())
    }

    /// Ends the report.
    pub(crate) fn finish(self) -> CheckedReport<A>
        ensures text { result.text.items ≡ self.text.items }
        ensures differences { result.differences ≡ self.differences }
    {
        let Lines {
            text,
            calendar: _,
            records: _,
            differences,
        } = self;
        CheckedReport { text, differences }
    }
}
