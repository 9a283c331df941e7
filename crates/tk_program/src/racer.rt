use tk_script::{Opening, Row};

/// Contains a script that can race: it opens its clocks, keeps their counter, and contains no
/// request.
#[derive(Drop)]
pub(crate) struct Racer {
    /// The values with which the clocks are opened.
    pub(crate) opening: Opening,
    /// Commands and reads, in the order of their records.
    pub(crate) rows: Vec<Row>,
}
