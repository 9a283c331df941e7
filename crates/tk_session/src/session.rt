ghost use Rattle.std.specs.Prelude.{◌≡◌, ◌+◌, ◌≤◌, length, true, false, IsSome, None, MatchResult};
ghost use Rattle.tk_clock.specs.Limits.{listed_most};
ghost use Rattle.tk_clock.specs.Running.{IsRunning};
ghost use Rattle.tk_ntp.specs.Course.{course_of};
ghost use Rattle.tk_ntp.specs.SteeredClock.{steered_opened, steered_refusal};
ghost use Rattle.tk_script.specs.Start.{IsOpenable};
ghost use Rattle.tk_session.specs.Session as spec;

mod closed;

use crate::fault::Fault;
use crate::text::Text;
use crate::{plain, steered};
use std::marker::Model;
use tk_clock::{Snapshot, Timespec};
use tk_counter::CounterDesc;
use tk_ntp::{Course, SteeredClock};
use tk_report::{CountedClocks, PlainStart};
use tk_script::{Line, Row, Start, is_line, row_in, start_in};

/// The parts of a second of a discipline that steers no clocks.
const USUAL_HZ: u32 = 100;

/// The first byte of a byte order mark.
const MARK: u8 = 0xef;

/// Carries out the records of a script one at a time, and makes their lines of its report.
///
/// The records are those of a script without quotes: its lines, without their line feeds. A report of
/// the whole script has the lines that `open` and `record` return, one after the other.
#[repr(C)]
#[derive(Clone, Copy)]
pub struct Session {
    /// Contains the clocks.
    clocks: CountedClocks,
    /// Contains the course of the discipline that steers the clocks, if one does.
    course: Course,
    /// Contains the number of records so far, the opening included.
    records: u64,
    /// Contains the number of lines `differs,RECORD,VALUE` so far.
    differences: u64,
    /// Says whether a discipline steers the clocks.
    is_steered: bool,
}

impl Model for Session {
    ghost use Rattle.std.specs.Prelude.{◌≤◌};
    ghost use Rattle.tk_session.specs.Session.{Session};

    ghost Value = { Session };

    ghost view = { λ a. record {
      clocks = a.clocks;
      course = a.course;
      is_steered = a.is_steered;
      records = a.records;
      differences = a.differences;
    } };

    ghost invariant = { λ a. a.differences ≤ a.records };

    ghost inverse = { λ s. record {
      clocks = s.clocks;
      course = s.course;
      is_steered = s.is_steered;
      records = s.records;
      differences = s.differences;
    } };
}

impl Session {
    /// Opens a session with the first record of a script, and returns it with the record's line.
    ///
    /// # Errors
    ///
    /// - `NotPlain`: the record is not a plain line
    /// - `Script`: the fault `Opening`, `Fields` or `Number` of the record; an empty record is not
    ///   a valid opening
    pub fn open(line: &[u8]) -> Result<(Session, Text), Fault>
        ensures { MatchResult result
            (λ opened. spec.IsOpenedBy line.now opened.1 opened.0)
            (λ fault. spec.IsNoOpening line.now fault) }
    {
        if !is_first(line) {
            return Err(Fault::NotPlain);
        }
        match start_in(line) {
            Ok(start) => {
                let session = Session::begin(start);
                let text = Text::of(&Line::open(&session.snapshot().desc()));
                Ok((session, text))
            }
            Err(error) => Err(Fault::Script(error)),
        }
    }

    /// Begins with the clocks of a script.
    fn begin(start: Start) -> Session
        requires { IsOpenable start }
        ensures clocks { spec.IsSessionOf result (spec.begun start) }
        ensures records { result.records ≡ 1 }
        ensures differences { result.differences ≡ 0 }
    {
        match start {
            Start::Opened(opening) => {
                Session::of_plain(CountedClocks::begin(PlainStart::Opened(opening), None))
            }
            Start::Running { clock, front } => {
                let start = PlainStart::Running { clock, front };
                Session::of_plain(CountedClocks::begin(start, None))
            }
            Start::Steered { opening, hz } => {
                let clock = steered_at(opening.desc, opening.reading, opening.real, hz);
                Session::of_steered(clock, 0)
            }
            Start::Continued { clock, front } => Session::of_steered(clock, front),
        }
    }

    /// Begins with clocks that no discipline steers.
    fn of_plain(clocks: CountedClocks) -> Session
        ensures clocks { result.clocks ≡ clocks }
        ensures steered { result.is_steered ≡ false }
        ensures records { result.records ≡ 1 }
        ensures differences { result.differences ≡ 0 }
    {
        let course = idle_course(clocks.snapshot().desc());
        Session {
            clocks,
            course,
            records: 1,
            differences: 0,
            is_steered: false,
        }
    }

    /// Begins with clocks that a discipline steers.
    fn of_steered(clock: SteeredClock, front: u64) -> Session
        ensures clocks { result.clocks ≡ record {
          clock = clock.clock;
          count = front;
          since = front;
          most = listed_most;
        } }
        ensures course { result.course ≡ course_of clock }
        ensures steered { result.is_steered ≡ true }
        ensures records { result.records ≡ 1 }
        ensures differences { result.differences ≡ 0 }
        ensures running { let now = clock.clock in IsRunning now.base now.frequency now.tick }
    {
        let clocks = clock.clock();
        // the contract of `tick` says that the clocks run
        let _ = clocks.tick();
        Session {
            clocks: CountedClocks::of(clocks, front),
            course: clock.course(),
            records: 1,
            differences: 0,
            is_steered: true,
        }
    }

    /// Carries out the next record, and returns its lines: the line of the record, and that of the
    /// expected value which a read does not give. An empty line is no record: it has no line and
    /// changes nothing.
    ///
    /// # Errors
    ///
    /// - `NotPlain`: the record is not a plain line
    /// - `TooMany`: no more records can be counted
    /// - `Script`: the fault `Word`, `Fields`, `Number` or `Counter` of the record
    pub fn record(&mut self, line: &[u8]) -> Result<Text, Fault>
        ensures { MatchResult result
            (λ text. spec.Takes self.old line.now text self.new)
            (λ fault. spec.IsRefused (self.old.records + 1) line.now fault
            × (self.new ≡ self.old)) }
    {
        if !is_line(line) {
            return Err(Fault::NotPlain);
        }
        if line.is_empty() {
            return Ok(Text::new());
        }
        if self.records == u64::MAX {
            return Err(Fault::TooMany);
        }
        let number = self.records + 1;
        match row_in(number, line) {
            Ok(row) => Ok(self.carry_out(number, row)),
            Err(error) => Err(Fault::Script(error)),
        }
    }

    /// Carries out the row of the record `number`, and counts it.
    fn carry_out(&mut self, number: u64, row: Row) -> Text
        requires { number ≡ self.old.records + 1 }
        ensures { spec.IsCarriedOut self.old row result self.new }
    {
        let (mut text, missed) = self.tell(row);
        self.records = number;
        match missed {
            Some(value) => {
                self.differences += 1;
                text.add(&Line::differs(number, value));
                text
            }
            None => text,
        }
    }

    /// Carries out a row, and returns its line and the expected value that a read does not give.
    fn tell(&mut self, row: Row) -> (Text, Option<u64>)
        ensures told { (clocks : spec.Clocks) → spec.IsSessionOf self.old clocks →
            (later : spec.Clocks) × spec.IsTold clocks row result.0 result.1 later
            × spec.IsSessionOf self.new later }
        ensures short { IsSome result.1 → length result.0 ≤ 96 }
        ensures records { self.new.records ≡ self.old.records }
        ensures differences { self.new.differences ≡ self.old.differences }
    {
        if self.is_steered {
            steered::tell(&mut self.clocks, &mut self.course, row)
        } else {
            plain::tell(&mut self.clocks, row)
        }
    }

    /// Returns a snapshot of the clocks after the last record.
    pub fn snapshot(&self) -> Snapshot
        ensures { result
            ≡ record { front = self.now.clocks.count; base = self.now.clocks.clock.base } }
    {
        self.clocks.snapshot()
    }

    /// Returns the clocks.
    pub fn clocks(&self) -> &CountedClocks
        ensures { result.now ≡ self.now.clocks }
    {
        &self.clocks
    }

    /// Returns the course of the discipline, which steers the clocks if `is_steered` says so.
    pub fn course(&self) -> &Course
        ensures { result.now ≡ self.now.course }
    {
        &self.course
    }

    /// Returns whether a discipline steers the clocks.
    pub fn is_steered(&self) -> bool
        ensures { result ≡ self.now.is_steered }
    {
        self.is_steered
    }

    /// Returns the number of records so far, the opening included.
    pub fn records(&self) -> u64
        ensures { result ≡ self.now.records }
    {
        self.records
    }

    /// Returns the number of reads so far that did not give the value that their record states.
    pub fn differences(&self) -> u64
        ensures { result ≡ self.now.differences }
    {
        self.differences
    }
}

/// Returns whether a line can be the first record: it is plain, and no byte order mark can begin it.
fn is_first(line: &[u8]) -> bool
    ensures { result ≡ spec.is_plain_first line.now }
{
    is_line(line) && (line.is_empty() || line[0] != MARK)
}

/// Opens the clocks of a script that a discipline steers.
fn steered_at(desc: CounterDesc, reading: u64, real: Timespec, hz: u32) -> SteeredClock
    requires { steered_refusal desc reading real hz ≡ None }
    ensures { result ≡ steered_opened desc reading real hz }
{
    SteeredClock::open(desc, reading, real, hz).unwrap()
}

/// Returns the course of a discipline that steers no clocks.
fn idle_course(desc: CounterDesc) -> Course {
    let epoch = Timespec { sec: 0, nsec: 0 };
    steered_at(desc, 0, epoch, USUAL_HZ).course()
}
