//! Why an input is no script.

/// Why a line makes its input no script.
#[derive(Clone, Copy, Debug, PartialEq, Eq)]
pub enum Reason {
    Word,
    Number,
    Node,
    Name,
    Path,
    Contents,
    Order,
    Limit,
    Missing,
}
