use crate::data_fault::DataFault;
use crate::epochs::{Epochs, epoch_text};
use crate::system_files::{SHARED, replace_file};

/// The files `acceptedEpoch` and `currentEpoch` of a server, as ZooKeeper has them, for other tools.
/// This project never reads them: the book has the epochs.
#[derive(Drop)]
pub struct EpochFiles<'a> {
    rt: &'a HostRuntime,
    directory: String,
    /// What they contain, if they were written.
    written: Option<Epochs>,
}

impl<'a> EpochFiles<'a> {
    /// Those in a directory, which were not written yet.
    pub(crate) fn new(rt: &'a HostRuntime, directory: String) -> EpochFiles<'a> {
        EpochFiles {
            rt,
            directory,
            written: None,
        }
    }

    /// Writes the epochs, if the files have others.
    ///
    /// A failure is no error, and the next call tries again: no server recovers its epochs from these
    /// files, and a server that stopped for them would fail its clients.
    pub(crate) fn update(&mut self, epochs: Epochs) {
        if self.written == Some(epochs) {
            return;
        }
        self.written = match self.write(epochs) {
            Ok(()) => Some(epochs),
            Err(_) => None,
        };
    }

    fn write(&self, epochs: Epochs) -> Result<(), DataFault> {
        self.write_one("acceptedEpoch", epochs.accepted)?;
        self.write_one("currentEpoch", epochs.current)
    }

    fn write_one(&self, name: &str, epoch: u32) -> Result<(), DataFault> {
        let text = epoch_text(self.rt.alloc(), epoch)?;
        replace_file(
            self.rt,
            self.directory.as_str(),
            name,
            SHARED,
            text.as_bytes(),
        )
    }
}
