ghost use Rattle.std.specs.Prelude.{◌≡◌, IfSome};

use crate::clocks::{OPENED_TIME, nanosecond_counter};
use std::alloc::Global;
use std::marker::Model;
use std::sync::Wait;
use tk_clock::{Clock, Command, Entry, Refusal};
use tk_page::{Page, Publisher, Viewer};

/// Applies commands to clocks, and publishes the clocks on a page after each.
///
/// Contracts see it as its publisher: the page, and the journal that was published on it.
#[derive(Drop)]
pub struct PageDesk {
    clock: Clock,
    publisher: Publisher,
    front: u64,
}

impl Model for PageDesk {
    ghost use Rattle.std.specs.Prelude.{◌≡◌};
    ghost use Rattle.tk_clock.specs.Journal.{accepted_count};
    ghost use Rattle.tk_clock.specs.State.{state_of};
    ghost use Rattle.tk_page.specs.History.{History};

    ghost Value = { History };

    ghost view = { λ d. d.publisher };

    ghost invariant = { λ d.
        (d.clock ≡ state_of d.publisher.journal) × (d.front ≡ accepted_count d.publisher.journal) };
}

/// Opens clocks and a page of their snapshot, and returns the page, its desk and one viewer.
/// Returns `None` if a call fails.
pub fn opened_page<R: Wait>(rt: &R, alloc: Global) -> Option<(Page, PageDesk, Viewer)>
    ensures desk { IfSome result (λ opened. opened.1.page ≡ opened.0) }
    ensures viewer { IfSome result (λ opened. opened.2.page ≡ opened.0) }
{
    let clock = Clock::open(nanosecond_counter().ok()?, 0, OPENED_TIME).ok()?;
    let (page, publisher, viewer) = Page::open(alloc, rt, clock.snapshot(0)).ok()?;
    let desk = PageDesk {
        clock,
        publisher,
        front: 0,
    };
    Some((page, desk, viewer))
}

impl PageDesk {
    /// Returns the number of accepted commands.
    pub fn front(&self) -> u64 {
        self.front
    }

    /// Applies a command, publishes the clocks after it, and returns the command's number. The
    /// publication may wait.
    ///
    /// # Errors
    ///
    /// Returns `Full` if the number of commands doesn't fit in 64 bits, and then the refusal of the
    /// command.
    pub fn command<R: Wait>(
        &mut self,
        rt: &R,
        page: &Page,
        reading: u64,
        cmd: Command,
    ) -> Result<u64, Refusal>
        requires page { self.old.page ≡ page.now }
        ensures page { self.new.page ≡ self.old.page }
    {
        let Some(front) = self.front.checked_add(1) else {
            return Err(Refusal::Full);
        };
        self.clock.apply(reading, cmd)?;
        let entry = Entry {
            who: 0,
            reading,
            cmd,
        };
        self.front = front;
        let snapshot = self.clock.snapshot(front);
        self.publisher.publish(rt, page, entry, snapshot);
        Ok(front)
    }

    /// Passes all publications to a viewer. It may wait.
    pub fn tell<R: Wait>(&mut self, rt: &R, page: &Page, viewer: &mut Viewer)
        requires page { self.old.page ≡ page.now }
        requires viewer { viewer.old.page ≡ page.now }
        ensures page { self.new.page ≡ self.old.page }
        ensures viewer { viewer.new.page ≡ viewer.old.page }
    {
        page.tell(rt, &mut self.publisher, viewer);
    }
}
