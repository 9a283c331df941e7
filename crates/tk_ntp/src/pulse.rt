/// Says what a discipline takes from a pulse (`Discipline::pulse`).
#[derive(Clone, Copy, Debug, PartialEq, Eq)]
pub struct Pulse {
    /// Contains the bits of a status that the pulse turns on, besides `STA_PPSSIGNAL`.
    pub status: u32,
    /// Contains what each second gains by the interval that ended, in `2^-32` ns, within 500 ppm.
    pub frequency: Option<i64>,
    /// Contains what REALTIME misses, in nanoseconds, at most half a second in either direction.
    pub correction: Option<i64>,
}
