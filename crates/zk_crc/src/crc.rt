ghost use Rattle.std.specs.Prelude.{◌≡◌, ◌*◌, ◌/◌, ◌%◌, ◌<◌, length, bit_xor};
ghost use Rattle.zk_crc.specs.Crc.{after_byte, after_bytes, moved_by};

use crate::far::{AFTER_24, AFTER_32};
use crate::near::{AFTER_8, AFTER_16};

/// The number of bytes that enter the register at a time.
const WORD: usize = 4;

/// The register after these bytes. Does not allocate.
pub fn after_bytes(register: u32, bytes: &[u8]) -> u32
    ensures { result ≡ after_bytes register bytes.now }
{
    let (words, rest) = bytes.split_at(bytes.len() / WORD * WORD);
    after_rest(after_words(register, words), rest)
}

/// The checksum of a register.
pub fn complement(register: u32) -> u32
    ensures { result ≡ bit_xor register 0xFFFFFFFF }
{
    register ^ 0xffff_ffff
}

/// The register after bytes that make whole words.
fn after_words(register: u32, bytes: &[u8]) -> u32
    requires { length bytes.now % 4 ≡ 0 }
    ensures { result ≡ after_bytes register bytes.now }
{
    let mut after = register;
    for word in 0..bytes.len() / WORD {
        let at = WORD * word;
        let next = u32::from_le_bytes([bytes[at], bytes[at + 1], bytes[at + 2], bytes[at + 3]]);
        after = moved_word(after ^ next);
    }
    after
}

/// The register after these bytes, one at a time.
#[tactic(auto, unfolding(crate::specs::Crc::after_bytes))]
fn after_rest(register: u32, bytes: &[u8]) -> u32
    ensures { result ≡ after_bytes register bytes.now }
{
    let mut after = register;
    for byte in bytes {
        after = after_byte(after, *byte);
    }
    after
}

/// The register after one more byte.
fn after_byte(register: u32, byte: u8) -> u32
    ensures { result ≡ after_byte register byte }
{
    let low = (register & 0xff) as u8 ^ byte;
    moved_8(low) ^ (register >> 8)
}

/// The register after 32 shifts: its four bytes are looked up apart.
fn moved_word(register: u32) -> u32
    ensures { result ≡ moved_by 32 register }
{
    let second = register >> 8;
    let third = second >> 8;
    let fourth = third >> 8;
    let far = moved_32((register & 0xff) as u8) ^ moved_24((second & 0xff) as u8);
    far ^ moved_16((third & 0xff) as u8) ^ moved_8(fourth as u8)
}

/// The effect of eight shifts on a register with only these bits.
fn moved_8(low: u8) -> u32
    ensures { result ≡ moved_by 8 low }
{
    AFTER_8[usize::from(low)]
}

fn moved_16(low: u8) -> u32
    ensures { result ≡ moved_by 16 low }
{
    AFTER_16[usize::from(low)]
}

fn moved_24(low: u8) -> u32
    ensures { result ≡ moved_by 24 low }
{
    AFTER_24[usize::from(low)]
}

fn moved_32(low: u8) -> u32
    ensures { result ≡ moved_by 32 low }
{
    AFTER_32[usize::from(low)]
}
