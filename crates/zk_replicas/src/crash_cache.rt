use zk_machine::Machine;
use zk_model::Answered;

/// What a server had delivered before it crashed. It shows nothing until it delivers the same
/// list again; then it continues from there, without applying its history anew. there then: it need
/// not apply all of its history again.
#[derive(Drop)]
pub struct CrashCache {
    pub machine: Machine,
    pub answers: Vec<Answered>,
}
