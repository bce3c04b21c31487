//! Reading a byte of a line.
ghost use Rattle.std.specs.Prelude.{◌≡◌, ◌+◌, ◌-◌, ◌<◌, ◌^◌, IfErr, OnOk};
ghost use Rattle.zk_log.specs.Devices.{reader_of, reads_of, read_failures_of};
ghost use Rattle.zk_commands.specs.HearingBytes.{GivesByte};
ghost use Rattle.zk_commands.specs.declared.session.TalkFault.TheVariants as faults;

use crate::session::TalkFault;
use std::io::Read;
use zk_log::Source;

/// The next byte; `None` at the end.
pub fn next_byte<F: Read>(source: &mut Source<F>) -> Result<Option<u8>, TalkFault>
    requires reads { reads_of source.old < 2 ^ 64 - 1 }
    requires failures { read_failures_of source.old < 2 ^ 64 - 1 }
    ensures bytes { GivesByte (F.remaining (reader_of source.old)) (F.remaining (reader_of source.new)) result }
    ensures reads { reads_of source.new ≡ reads_of source.old + 1 }
    ensures failures { OnOk result (read_failures_of source.new ≡ read_failures_of source.old) }
    ensures refused { IfErr result (λ fault. (fault ≡ faults.Read) × (read_failures_of source.new ≡ read_failures_of source.old + 1)) }
{
    let mut byte = [0; 1];
    match source.read(&mut byte) {
        Ok(0) => Ok(None),
        Ok(_) => Ok(Some(byte[0])),
        Err(_) => Err(TalkFault::Read),
    }
}
