//! Lines of a script that are read in parts.

/// The end of a part of a line.
#[derive(Clone, Copy, Debug, PartialEq, Eq)]
pub enum PartEnd {
    /// None: more of the line may follow.
    Open,
    /// A line feed.
    LineFeed,
    /// The end of the text.
    Text,
}
