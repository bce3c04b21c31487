//! `zk compare`: what the logs of two servers have in common by meaning, where they differ, and
//! which of them begins or ends first; and where their trees differ. Of several servers, each further
//! one is compared with the first. As lines or as objects of JSON, over any folders and any writers.
#![tactic(auto)]

mod compared_directory;
mod comparison;
mod finding;
mod judgement;
mod lines;
mod loss;
mod meaning;
mod notices;
mod objects;
mod pair;
mod report_form;
mod several;
mod trees;

pub use compared_directory::ComparedDirectory;
pub use comparison::{compare, compare_json};
pub use report_form::ReportForm;
pub use several::compare_each;
