use crate::reply_line::print_reply;
use crate::steered_order::SteeredOrder;
use std::io;
use tk_clock::Refusal;
use tk_ntp::SteeredClock;

/// Keeps steered clocks.
#[derive(Drop)]
pub struct SteeredSession {
    steered: Option<SteeredClock>,
}

impl SteeredSession {
    /// Makes a session without clocks.
    pub fn new() -> SteeredSession {
        SteeredSession { steered: None }
    }

    /// Follows an order, and prints the answer and the state of the clocks.
    pub fn follow(&mut self, rt: &HostRuntime, order: &SteeredOrder) -> io::Result<()> {
        if let SteeredOrder::Open(desc, reading, real, hz) = *order {
            return match SteeredClock::open(desc, reading, real, hz) {
                Ok(steered) => self.keep(rt, "open", steered),
                Err(refusal) => println!(rt; "no,{refusal:?}"),
            };
        }
        let Some(steered) = self.steered else {
            return println!(rt; "no");
        };
        self.change(rt, order, steered)
    }

    /// Follows an order to the clocks.
    fn change(
        &mut self,
        rt: &HostRuntime,
        order: &SteeredOrder,
        mut steered: SteeredClock,
    ) -> io::Result<()> {
        let result = match order {
            SteeredOrder::Advance(reading) => steered.advance(*reading),
            SteeredOrder::AdvanceLate(reading) => steered.advance_late(*reading),
            SteeredOrder::Apply(reading, cmd) => steered.apply(*reading, *cmd),
            SteeredOrder::Ask(reading, request) => match steered.adjtimex(*reading, request) {
                Ok(reply) => {
                    print_reply(rt, &reply)?;
                    println!(rt;)?;
                    Ok(())
                }
                Err(refusal) => Err(refusal),
            },
            SteeredOrder::Open(..) => Err(Refusal::Invalid),
        };
        match result {
            Ok(()) => self.keep(rt, "ok", steered),
            Err(refusal) => {
                println!(rt; "no,{refusal:?}")?;
                self.keep(rt, "ok", steered)
            }
        }
    }

    /// Keeps the clocks, and prints their state.
    fn keep(&mut self, rt: &HostRuntime, word: &str, steered: SteeredClock) -> io::Result<()> {
        self.steered = Some(steered);
        let clock = steered.clock();
        let now = clock.snapshot(0);
        print!(rt; "{word},{},{},{}", now.last(), now.sec(), now.frac())?;
        print!(rt;
            ",{},{},{}",
            now.real_offset(),
            now.boot_offset(),
            now.tai()
        )?;
        print!(rt;
            ",{},{},{}",
            clock.frequency(),
            clock.tick(),
            u8::from(now.asleep())
        )?;
        match steered.next_second() {
            Some(reading) => println!(rt; ",{reading}"),
            None => println!(rt; ",none"),
        }
    }
}
