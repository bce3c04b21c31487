//! Part of `zk_cli`, split off for the prover's time alone.
//!
//! The command line of `zk`: the words that name a command, its inputs and its output, a data
//! directory or a question about one, servers for connections, or an ensemble for clients; and the
//! options of a form.
#![tactic(auto)]

mod command;
mod commands;
mod comparison;
mod comparisons;
mod debugging;
mod difference;
mod ensemble;
mod ensemble_job;
mod folders;
mod follow;
mod form;
mod history;
mod line;
mod moments;
mod options;
mod parting;
mod paths;
mod restoration;
mod serving;
mod session;
mod sessions;
mod snapshot;
mod top;
mod verification;
mod zxids;

pub use command::{Job, Order};
pub use commands::Command;
pub use comparison::CompareJob;
pub use comparisons::{ComparedFolder, Comparisons, read_comparisons};
pub use debugging::{FolderDebug, folder_debug_from};
pub use difference::DiffJob;
pub use ensemble::Ensemble;
pub use ensemble_job::EnsembleJob;
pub use folders::{FolderJob, FolderOrder, Until, folder_job_from};
pub use form::Form;
pub use history::HistoryJob;
pub use line::{CommandFault, CommandLine, read_command_line};
pub use restoration::RestoreJob;
pub use serving::Serving;
pub use session::SessionJob;
pub use sessions::SessionsJob;
pub use snapshot::SnapshotJob;
pub use top::{By, TopJob};
pub use verification::VerifyJob;
pub use zk_helps::{ErrorKind, Refusal, refusal_of, refusal_of_bytes};
