//! What each rule of Zab keeps: it is one of the moves of `zab_laws`, or none, given what messages
//! and roles say about a run. A tag's call reaches at most one leader of one epoch, and gives at
//! most one entry. Laws only.
#![tactic(auto)]
