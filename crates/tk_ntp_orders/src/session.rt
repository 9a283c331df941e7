use crate::order::Order;
use crate::reply_line::{print_pps_reply, print_reply};
use crate::steered_order::SteeredOrder;
use crate::steered_session::SteeredSession;
use std::io;
use tk_clock::Timespec;
use tk_ntp::{Discipline, Pps, Timex};

/// Keeps a discipline with its signal, TAI minus REALTIME in seconds, and steered clocks.
#[derive(Drop)]
pub struct Session {
    ntp: Option<Discipline>,
    pps: Option<Pps>,
    tai: u32,
    steered: SteeredSession,
}

impl Session {
    /// Makes a session without a discipline and without clocks.
    pub fn new() -> Session {
        Session {
            ntp: None,
            pps: None,
            tai: 0,
            steered: SteeredSession::new(),
        }
    }

    /// Follows the order of a line, and prints the answer.
    pub fn follow(&mut self, rt: &HostRuntime, line: &str) -> io::Result<()> {
        if let Some(order) = SteeredOrder::read(rt.alloc(), line)? {
            return self.steered.follow(rt, &order);
        }
        match Order::read(rt.alloc(), line)? {
            Some(Order::New(hz)) => self.open(rt, hz),
            Some(Order::Second(sec)) => self.begin(rt, sec),
            Some(Order::Clear) => self.clear(rt),
            Some(Order::Signal) => self.take_signal(rt),
            Some(Order::Pulse(nsec, raw)) => self.pulse(rt, nsec, raw),
            Some(Order::Adjtimex(real, request)) => self.ask(rt, real, &request),
            None => println!(rt; "no"),
        }
    }

    fn open(&mut self, rt: &HostRuntime, hz: u32) -> io::Result<()> {
        self.tai = 0;
        self.pps = None;
        self.ntp = Discipline::new(hz);
        match &self.ntp {
            Some(ntp) => println!(rt; "new,{}", ntp.second_length()),
            None => println!(rt; "no"),
        }
    }

    fn begin(&mut self, rt: &HostRuntime, sec: u64) -> io::Result<()> {
        let Some(mut ntp) = self.ntp else {
            return println!(rt; "no");
        };
        if sec > i64::MAX as u64 {
            return println!(rt; "no");
        }
        let leap = ntp.overflow(sec);
        self.tai = leap.tai_after(self.tai);
        if let Some(mut pps) = self.pps {
            if pps.second() {
                ntp.lose_signal();
            }
            self.pps = Some(pps);
        }
        self.ntp = Some(ntp);
        let seconds = leap.seconds();
        println!(rt; "second,{seconds},{},{}", self.tai, ntp.second_length())
    }

    fn clear(&mut self, rt: &HostRuntime) -> io::Result<()> {
        let Some(mut ntp) = self.ntp else {
            return println!(rt; "no");
        };
        ntp.clear();
        self.ntp = Some(ntp);
        if let Some(mut pps) = self.pps {
            pps.clear();
            self.pps = Some(pps);
        }
        println!(rt; "clear,{}", ntp.second_length())
    }

    fn ask(&mut self, rt: &HostRuntime, real: Timespec, request: &Timex) -> io::Result<()> {
        let Some(mut ntp) = self.ntp else {
            return println!(rt; "no");
        };
        if request.is_faulty() || real.sec < 0 {
            return println!(rt; "no");
        }
        if let Some(by) = request.step() {
            ntp.clear();
            println!(rt; "step,{},{}", by.sec, by.nsec)?;
        }
        let status = ntp.numbers().status;
        let reply = ntp.adjtimex(request, real, self.tai);
        self.tai = reply.tai;
        self.ntp = Some(ntp);
        print_reply(rt, &reply)?;
        println!(rt; ",{}", ntp.second_length())?;
        let Some(mut pps) = self.pps else {
            return Ok(());
        };
        pps.ask(request, status);
        self.pps = Some(pps);
        print_pps_reply(rt, &pps.reply(&reply))
    }

    fn take_signal(&mut self, rt: &HostRuntime) -> io::Result<()> {
        if self.ntp.is_none() {
            return println!(rt; "no");
        }
        self.pps = Some(Pps::new());
        println!(rt; "signal")
    }

    fn pulse(&mut self, rt: &HostRuntime, nsec: u32, raw: u64) -> io::Result<()> {
        let (Some(mut ntp), Some(mut pps)) = (self.ntp, self.pps) else {
            return println!(rt; "no");
        };
        if nsec >= 1_000_000_000 || raw > i64::MAX as u64 {
            return println!(rt; "no");
        }
        ntp.pulse(pps.pulse(nsec, raw));
        self.ntp = Some(ntp);
        self.pps = Some(pps);
        println!(rt; "pps,{},{}", ntp.numbers().status, ntp.second_length())
    }
}
