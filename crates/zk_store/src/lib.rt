//! The files of a host's store: what they stand for, and how a server's stable part is stored in
//! them and recovered, over every crash.
//!
//! They are a transaction log, to which entries are appended and from which they are cut; the tags
//! of its entries, 8 bytes a tag; and a book of two blocks and a byte that selects one, which is
//! replaced atomically. Each change of a file is followed by its sync.
#![tactic(auto)]

mod block;
mod book;
mod book_fault;
pub mod book_storing;
mod change_laws;
mod changes;
mod comparing;
mod creation;
mod extending;
mod files;
mod files_fault;
mod front;
mod joining;
mod laws;
mod loading;
mod log_fault;
mod log_laws;
mod log_reader;
pub mod log_storing;
mod old_format;
mod reading;
mod recovery;
mod stored_log;
mod tag_fault;
mod tag_storing;

pub use book::{Book, Join, StoredBook};
pub use book_fault::BookFault;
pub use book_storing::replace;
pub use change_laws::changes_are_noticed;
pub use changes::{cut_and_sync, write_and_sync};
pub use comparing::is_front;
pub use creation::{count_boot, create};
pub use extending::extend;
pub use files::StoreFiles;
pub use files_fault::FilesFault;
pub use joining::replace_history;
pub use laws::one_stable_part;
pub use loading::read_prefix;
pub use log_fault::LogStoreFault;
pub use log_laws::{
    cut_short_is_not_forged, one_reading, stored_log_is_read, zeros_after_are_not_forged,
};
pub use log_reader::{LogReader, WINDOW, read_part};
pub use log_storing::{append, can_append, read_all, truncate};
pub use old_format::{book_file, read_old_book, renewed_tags};
pub use reading::read_entries;
pub use recovery::recover;
pub use stored_log::StoredLog;
pub use tag_fault::TagFault;
pub use tag_storing::{bytes_from, read, write};
