use std::io;
use tk_ntp::{PpsReply, Reply};

/// Prints a reply, without an end of the line.
pub fn print_reply(rt: &HostRuntime, reply: &Reply) -> io::Result<()> {
    let timex = &reply.timex;
    print!(rt;
        "adj,{:?},{},{},{}",
        reply.state, timex.sec, timex.sub, timex.offset
    )?;
    print!(rt; ",{},{},{}", timex.freq, timex.maxerror, timex.esterror)?;
    print!(rt; ",{},{},{}", timex.status, timex.constant, timex.tick)?;
    print!(rt; ",{}", reply.tai)
}

/// Prints the part of a reply that shows a signal.
pub fn print_pps_reply(rt: &HostRuntime, reply: &PpsReply) -> io::Result<()> {
    print!(rt;
        "pps,{:?},{},{},{},{}",
        reply.state, reply.ppsfreq, reply.jitter, reply.shift, reply.stabil
    )?;
    println!(rt;
        ",{},{},{},{}",
        reply.jitcnt, reply.calcnt, reply.errcnt, reply.stbcnt
    )
}
