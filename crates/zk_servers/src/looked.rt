use crate::{Outcome, Receipt};

/// A read that happened, with the events that its session gets with the reply.
#[derive(Drop)]
pub struct Looked {
    pub receipt: Receipt,
    pub outcome: Outcome,
}
