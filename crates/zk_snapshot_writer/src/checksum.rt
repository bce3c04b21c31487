ghost use Rattle.std.specs.Prelude.{◌≡◌, ◌<◌, ◌%◌, ℕ, List, length as length_of};
ghost use Rattle.zk_records.specs.Checksum.{sum_one, sum_two};
ghost use Rattle.zk_snapshot_writer.specs.Checksums.{after, start, total};

use zk_records::adler;

/// The largest prime below 2^16, by which both sums are reduced.
const BASE: u64 = 65521;

/// The Adler-32 checksum of bytes that are added a part at a time: both sums.
#[derive(Clone, Copy, Debug)]
pub(crate) struct Checksum {
    first: u32,
    second: u32,
}

impl Checksum {
    /// Of no bytes.
    pub(crate) fn new() -> Checksum
        ensures { result ≡ start }
    {
        Checksum {
            first: 1,
            second: 0,
        }
    }

    /// After more bytes.
    pub(crate) fn after(self, bytes: &[u8]) -> Checksum
        ensures { result ≡ after self bytes.now }
    {
        let sum = u64::from(adler(bytes));
        let first = first_after(self.first, sum % 65536);
        let second = second_after(self.first, self.second, bytes.len() as u64, sum / 65536);
        Checksum { first, second }
    }

    /// The checksum of bytes after those that were added.
    pub(crate) fn total_after(self, bytes: &[u8]) -> u32
        ensures { result ≡ total (after self bytes.now) }
    {
        let sums = self.after(bytes);
        sums.second * 65536 + sums.first
    }
}

/// The first sum after bytes whose own first sum is `comes`.
fn first_after(first: u32, comes: u64) -> u32
    requires { comes < 65521 }
    ensures { (bytes : List ℕ) → comes ≡ sum_one 1 bytes % 65521 → result ≡ sum_one first bytes % 65521 }
{
    ((u64::from(first) + comes + (BASE - 1)) % BASE) as u32
}

/// The second sum after `length` bytes whose own second sum is `comes`.
fn second_after(first: u32, second: u32, length: u64, comes: u64) -> u32
    requires { comes < 65521 }
    ensures { (bytes : List ℕ) → length ≡ length_of bytes → comes ≡ sum_two 1 0 bytes % 65521 → result ≡ sum_two first second bytes % 65521 }
{
    let length = length % BASE;
    let sum = u64::from(second) + length * u64::from(first) + comes + (BASE - length);
    (sum % BASE) as u32
}
