//! The session that is asked for.

use zk_session_lines::LineForm;

/// The session that is asked for, and the form of its lines.
#[derive(Clone, Copy, Debug, PartialEq, Eq)]
pub struct AskedSession {
    pub session: i64,
    pub form: LineForm,
}
