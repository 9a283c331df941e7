/// Says which part of the numbers of steered clocks is out of its range: the first one.
#[derive(Clone, Copy, Debug, PartialEq, Eq)]
pub enum NumbersError {
    /// A number of the discipline, other than those of its leap second.
    Discipline,
    /// A number of the leap second.
    Leap,
    /// The lag.
    Lag,
    /// The second of REALTIME that begins next.
    Second,
}
