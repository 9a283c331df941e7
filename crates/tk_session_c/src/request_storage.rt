ghost use Rattle.std.specs.Prelude.{◌≡◌};
ghost use Rattle.tk_session_c.specs.Rows.{no_request, request_storage};

use std::mem::size_of;
use tk_ntp::Timex;

const _: () = prove!(size_of::<RequestStorage>() == 208);

/// Describes the memory that a request is written to: `struct tkc_timex`. Units are those of `Timex`.
#[repr(C)]
#[derive(Clone, Copy)]
pub struct RequestStorage {
    /// Says which fields are given, by the bits `ADJ_..`.
    pub modes: u32,
    /// The padding, 0 once a request is written.
    pub modes_padding: u32,
    /// The offset between the clock and its reference.
    pub offset: i64,
    /// The frequency.
    pub freq: i64,
    /// The greatest error.
    pub maxerror: i64,
    /// The estimated error.
    pub esterror: i64,
    /// The status, by the bits `STA_..`.
    pub status: u32,
    /// The padding, 0 once a request is written.
    pub status_padding: u32,
    /// The time constant of the PLL, or the TAI offset.
    pub constant: i64,
    /// The fields `precision` and `tolerance` of a reply, 0 once a request is written.
    pub limits: [u64; 2],
    /// The whole seconds of a time.
    pub sec: i64,
    /// The part of a second in the time.
    pub sub: i64,
    /// The tick.
    pub tick: i64,
    /// The other fields of a reply and the padding, 0 once a request is written.
    pub rest: [u64; 14],
}

impl RequestStorage {
    /// Returns the memory of a request.
    pub(crate) fn of(request: &Timex) -> RequestStorage
        ensures { result ≡ request_storage request.now }
    {
        RequestStorage {
            modes: request.modes,
            modes_padding: 0,
            offset: request.offset,
            freq: request.freq,
            maxerror: request.maxerror,
            esterror: request.esterror,
            status: request.status,
            status_padding: 0,
            constant: request.constant,
            limits: [0; 2],
            sec: request.sec,
            sub: request.sub,
            tick: request.tick,
            rest: [0; 14],
        }
    }

    /// Returns the memory of no request: all fields are 0.
    pub(crate) fn none() -> RequestStorage
        ensures { result ≡ request_storage no_request }
    {
        RequestStorage {
            modes: 0,
            modes_padding: 0,
            offset: 0,
            freq: 0,
            maxerror: 0,
            esterror: 0,
            status: 0,
            status_padding: 0,
            constant: 0,
            limits: [0; 2],
            sec: 0,
            sub: 0,
            tick: 0,
            rest: [0; 14],
        }
    }
}
