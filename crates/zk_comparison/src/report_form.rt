//! The form of a report.

/// The form of a report.
#[derive(Clone, Copy, Debug, PartialEq, Eq)]
pub enum ReportForm {
    /// Lines of text.
    Lines,
    /// An object of JSON for each line.
    Objects,
}
