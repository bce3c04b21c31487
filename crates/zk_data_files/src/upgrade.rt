//! A store's files in the format without checksums: they are written anew once.

use crate::data_fault::DataFault;
use crate::system_files::{SHARED, place_draft, read_file, replace_file, write_draft};
use zk_store::{book_file, read_old_book, renewed_tags};

/// Writes a server's files anew if its book is in the old format: drafts of the tags, and then the
/// book. After a crash before that, the old files are there, and the next call does the same; after
/// it, the next call puts the drafts in their place.
pub(crate) fn upgrade(rt: &HostRuntime, directory: &str, logs: &str) -> Result<(), DataFault> {
    let Some(bytes) = read_file(rt, directory, "book")? else {
        return Ok(());
    };
    if let Some(book) = read_old_book(bytes.as_slice()) {
        draft_tags(rt, logs, "log.1-wal")?;
        draft_tags(rt, directory, "joining-wal")?;
        let bytes = book_file(rt.alloc(), &book)?;
        replace_file(rt, directory, "book", SHARED, bytes.as_slice())?;
    }
    place_draft(rt, logs, "log.1-wal")?;
    place_draft(rt, directory, "joining-wal")
}

/// Writes a draft of a file of tags, in the new format.
fn draft_tags(rt: &HostRuntime, directory: &str, name: &str) -> Result<(), DataFault> {
    let Some(bytes) = read_file(rt, directory, name)? else {
        return Ok(());
    };
    let tags = renewed_tags(rt.alloc(), bytes.as_slice())?;
    write_draft(rt, directory, name, SHARED, tags.as_slice())
}
