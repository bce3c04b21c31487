//! `zk diff` and `zk restore` of a data directory, over any folders and any writers.
//!
//! `zk diff` prints what differs between two trees: the nodes that were created, deleted or
//! changed, in order of path, each with the last transaction that changed it. `zk restore` prints a
//! script that creates the nodes of a tree, for `zkCli.sh`, ZooKeeper's command-line client.
#![tactic(auto)]

mod acl;
mod change;
mod compared;
mod last_changes;
mod laws;
mod line;
mod logged;
mod moved;
mod node;
mod node_difference;
mod paths;
mod script;
mod sign;
mod stamps;
mod tree_difference;
mod tree_script;
mod word;

pub use change::push_differences;
pub use compared::{Compared, compare, tree_of};
pub use last_changes::LastChanges;
pub use laws::{empty_where_same, line_where_differ, lines_where_differing, turns_one_into_other};
pub use node_difference::differ_at;
pub use paths::Paths;
pub use script::push_script;
pub use stamps::Stamp;
pub use tree_difference::diff;
pub use tree_script::restore;
