//! The lines of a directory's transactions.
ghost use Rattle.std.specs.Prelude.{◌≡◌, []};
ghost use Rattle.std.specs.String.{string_bytes};
ghost use Rattle.zk_listings.specs.Listings.{AppendsRecord};

use crate::{Form, push_txn_line};
use std::alloc::Global;
use zk_newer_records::{NewerRecord, RecordFold};
use zk_path::NoMemory;

/// A line for each record so far.
#[derive(Drop)]
pub(crate) struct RecordLines {
    form: Form,
    pub(crate) text: String,
}

impl RecordLines {
    /// No record yet.
    pub(crate) fn new(alloc: Global, form: Form) -> RecordLines
        ensures form { result.form ≡ form }
        ensures text { string_bytes result.text ≡ [] }
    {
        RecordLines {
            form,
            text: String::new(alloc),
        }
    }
}

impl RecordFold for RecordLines {
    ghost follows = { AppendsRecord };

    fn take(&mut self, newer: &NewerRecord) -> Result<(), NoMemory> {
        push_txn_line(&mut self.text, self.form, &newer.txn)
    }
}
