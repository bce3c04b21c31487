//! An output file that is created once there is something to write.

use std::fs::File;
use std::io::Write;
use std::{fs, io};

/// A file by its path, created or truncated with the first write.
#[derive(Drop)]
pub(crate) struct NewFile<'a> {
    rt: &'a HostRuntime,
    path: &'a str,
    file: Option<File>,
}

impl<'a> NewFile<'a> {
    pub(crate) fn at(rt: &'a HostRuntime, path: &'a str) -> NewFile<'a> {
        NewFile {
            rt,
            path,
            file: None,
        }
    }
}

impl Write for NewFile<'_> {
    fn write(&mut self, buf: &[u8]) -> io::Result<usize> {
        if let Some(file) = &mut self.file {
            return file.write(buf);
        }
        let mut file = fs::create(self.rt, self.path)?;
        let taken = file.write(buf)?;
        self.file = Some(file);
        Ok(taken)
    }

    fn flush(&mut self) -> io::Result<()> {
        match &mut self.file {
            Some(file) => file.flush(),
            None => Ok(()),
        }
    }
}
