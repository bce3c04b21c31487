use sqlite_disk::{Disk, Tally};
use std::io;

/// A file of one of three types. Each call is passed on.
#[derive(Drop)]
pub enum OneOf<A: Disk, B: Disk, C: Disk> {
    First(A),
    Second(B),
    Third(C),
}

impl<A: Disk, B: Disk, C: Disk> Disk for OneOf<A, B, C> {
    ghost use Rattle.zk_data_files.specs.OneOf.{seen_in, may_leave_in, is_usable_in, faults_in, tally_of_in, is_clean_in, key_of_in, is_fair_in, is_frozen_in, is_rotten_in, is_mixing_in};
    ghost use Rattle.zk_data_files.specs.declared.one_of.OneOf.TheVariants.{First, Second, Third};

    ghost seen = { λ it. seen_in A.Disk B.Disk C.Disk it };

    ghost may_leave = { λ it. may_leave_in A.Disk B.Disk C.Disk it };

    ghost is_usable = { λ it. is_usable_in A.Disk B.Disk C.Disk it };

    ghost faults = { λ it. faults_in A.Disk B.Disk C.Disk it };

    ghost tally_of = { λ it. tally_of_in A.Disk B.Disk C.Disk it };

    ghost is_clean = { λ it. is_clean_in A.Disk B.Disk C.Disk it };

    ghost key_of = { λ it. key_of_in A.Disk B.Disk C.Disk it };

    ghost is_fair = { λ it. is_fair_in A.Disk B.Disk C.Disk it };

    ghost is_frozen = { λ it. is_frozen_in A.Disk B.Disk C.Disk it };

    ghost is_rotten = { λ it. is_rotten_in A.Disk B.Disk C.Disk it };

    ghost is_mixing = { λ it. is_mixing_in A.Disk B.Disk C.Disk it };

    fn mixes(&self) -> bool {
        match self {
            OneOf::First(it) => it.mixes(),
            OneOf::Second(it) => it.mixes(),
            OneOf::Third(it) => it.mixes(),
        }
    }

    fn key(&self) -> u64 {
        match self {
            OneOf::First(it) => it.key(),
            OneOf::Second(it) => it.key(),
            OneOf::Third(it) => it.key(),
        }
    }

    fn tally(&self) -> Tally {
        match self {
            OneOf::First(it) => it.tally(),
            OneOf::Second(it) => it.tally(),
            OneOf::Third(it) => it.tally(),
        }
    }

    fn may_be_used(&self) -> bool {
        match self {
            OneOf::First(it) => it.may_be_used(),
            OneOf::Second(it) => it.may_be_used(),
            OneOf::Third(it) => it.may_be_used(),
        }
    }

    fn len(&mut self) -> io::Result<usize> {
        match self {
            OneOf::First(it) => it.len(),
            OneOf::Second(it) => it.len(),
            OneOf::Third(it) => it.len(),
        }
    }

    fn read_at(&mut self, at: usize, buf: &mut [u8]) -> io::Result<()> {
        match self {
            OneOf::First(it) => it.read_at(at, buf),
            OneOf::Second(it) => it.read_at(at, buf),
            OneOf::Third(it) => it.read_at(at, buf),
        }
    }

    fn read_checked(&mut self, key: u64, want: u64, at: usize, buf: &mut [u8]) -> io::Result<()> {
        match self {
            OneOf::First(it) => it.read_checked(key, want, at, buf),
            OneOf::Second(it) => it.read_checked(key, want, at, buf),
            OneOf::Third(it) => it.read_checked(key, want, at, buf),
        }
    }

    fn write_at(&mut self, at: usize, bytes: &[u8]) -> io::Result<()> {
        match self {
            OneOf::First(it) => it.write_at(at, bytes),
            OneOf::Second(it) => it.write_at(at, bytes),
            OneOf::Third(it) => it.write_at(at, bytes),
        }
    }

    fn set_len(&mut self, len: usize) -> io::Result<()> {
        match self {
            OneOf::First(it) => it.set_len(len),
            OneOf::Second(it) => it.set_len(len),
            OneOf::Third(it) => it.set_len(len),
        }
    }

    fn sync(&mut self) -> io::Result<()> {
        match self {
            OneOf::First(it) => it.sync(),
            OneOf::Second(it) => it.sync(),
            OneOf::Third(it) => it.sync(),
        }
    }

    ghost seen_may_stay = { elim [ First x ↦ A.seen_may_stay x | Second x ↦ B.seen_may_stay x | Third x ↦ C.seen_may_stay x ] };

    ghost fair_if_clean = { elim [ First x ↦ A.fair_if_clean x | Second x ↦ B.fair_if_clean x | Third x ↦ C.fair_if_clean x ] };
}
