//! Logs in memory that grow.
use std::alloc::Global;
use zk_directory_state::HistoryFault;
use zk_listings::GrowingLogs;

/// A log: the zxid in its name, and its bytes so far.
pub(crate) type Grown<'a> = (i64, &'a [u8]);

/// Logs as they stand.
#[derive(Clone, Copy, Debug)]
pub(crate) struct Logs<'a> {
    pub(crate) logs: &'a [Grown<'a>],
}

/// A part of bytes: those from an offset on, and at most `count`.
fn part(alloc: Global, bytes: &[u8], at: u64, count: usize) -> Result<Vec<u8>, HistoryFault> {
    let rest = bytes.get(at as usize..).unwrap_or_default();
    let part = rest.get(..count).unwrap_or(rest);
    Ok(Vec::from_slice(alloc, part)?)
}

impl GrowingLogs for Logs<'_> {
    fn zxids(&self, alloc: Global) -> Result<Vec<i64>, HistoryFault> {
        let mut zxids = Vec::new(alloc);
        for (zxid, _) in self.logs {
            if zxids.push(*zxid).is_err() {
                return Err(HistoryFault::NoMemory);
            }
        }
        Ok(zxids)
    }

    fn read(
        &self,
        alloc: Global,
        zxid: i64,
        at: u64,
        count: usize,
    ) -> Result<Vec<u8>, HistoryFault> {
        for (name, bytes) in self.logs {
            if *name == zxid {
                return part(alloc, bytes, at, count);
            }
        }
        Err(HistoryFault::Read)
    }
}

/// A log of three entries, of 49, 51 and 45 bytes after the header of 16.
pub(crate) static FIRST: [u8; 161] = [
    90, 75, 76, 71, 0, 0, 0, 2, 0, 0, 0, 0, 0, 0, 0, 0, 0, 0, 0, 0, 54, 42, 6, 232, 0, 0, 0, 36, 1,
    0, 0, 0, 0, 0, 0, 1, 0, 0, 0, 0, 0, 0, 0, 1, 0, 0, 0, 1, 0, 0, 1, 154, 197, 151, 63, 21, 255,
    255, 255, 246, 0, 0, 117, 48, 66, 0, 0, 0, 0, 35, 211, 3, 43, 0, 0, 0, 38, 1, 0, 0, 0, 0, 0, 0,
    1, 0, 0, 0, 1, 0, 0, 0, 1, 0, 0, 0, 2, 0, 0, 1, 154, 197, 152, 43, 108, 0, 0, 0, 2, 0, 0, 0, 2,
    47, 98, 66, 0, 0, 0, 0, 30, 161, 6, 204, 0, 0, 0, 32, 1, 0, 0, 0, 0, 0, 0, 1, 0, 0, 0, 0, 0, 0,
    0, 1, 0, 0, 0, 3, 0, 0, 1, 154, 197, 153, 23, 195, 255, 255, 255, 245, 66,
];

pub(crate) static SECOND: [u8; 110] = [
    90, 75, 76, 71, 0, 0, 0, 2, 0, 0, 0, 0, 0, 0, 0, 0, 0, 0, 0, 0, 30, 161, 6, 204, 0, 0, 0, 32,
    1, 0, 0, 0, 0, 0, 0, 1, 0, 0, 0, 0, 0, 0, 0, 1, 0, 0, 0, 3, 0, 0, 1, 154, 197, 153, 23, 195,
    255, 255, 255, 245, 66, 0, 0, 0, 0, 52, 30, 6, 195, 0, 0, 0, 36, 1, 0, 0, 0, 0, 0, 0, 2, 0, 0,
    0, 0, 0, 0, 0, 1, 0, 0, 0, 4, 0, 0, 1, 154, 197, 154, 4, 26, 255, 255, 255, 246, 0, 0, 15, 160,
    66,
];

pub(crate) static LATER: [u8; 61] = [
    90, 75, 76, 71, 0, 0, 0, 2, 0, 0, 0, 0, 0, 0, 0, 0, 0, 0, 0, 0, 27, 41, 6, 21, 0, 0, 0, 32, 1,
    0, 0, 0, 0, 0, 0, 2, 0, 0, 0, 0, 0, 0, 0, 1, 0, 0, 0, 6, 0, 0, 1, 154, 197, 154, 4, 26, 255,
    255, 255, 245, 66,
];
