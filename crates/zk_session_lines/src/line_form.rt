//! The form of lines.

/// The form of lines.
#[derive(Clone, Copy, Debug, PartialEq, Eq)]
pub enum LineForm {
    Text,
    /// A JSON object a line.
    Json,
}
