ghost use Rattle.std.specs.Prelude.{◌<◌};

use crate::storage::{Storage, StoreFault};

/// A tag has 24 bits for the count of its host's starts.
pub const TAG_BOOTS: u32 = 16_777_216;

/// Issues the tags of one host since its last start. A tag has 8 bits for the host, 24 for the
/// count of its starts, and 32 for the request's number: no two requests share one.
#[derive(Debug, Drop)]
pub struct TagIssuer {
    host: u8,
    boot: u32,
    used: u32,
    ghost in_range: { boot < 16777216 },
}

impl TagIssuer {
    ghost use Rattle.std.specs.Prelude.{◌≡◌, ◌≤◌, ◌<◌, ◌+◌, ◌⊎◌, IfOk, IfSome, IfNone, OnOk, OnSome, IsErrOf};
    ghost use Rattle.zab_epoch.specs.declared.stable.Stable.{Stable};
    ghost use Rattle.zab_host.specs.declared.storage.StoreFault.TheVariants as faults;
    ghost use Rattle.zab_host.specs.Tags.{tag_of};

    /// Counts a start of the host on its store, and issues tags that no earlier start has issued.
    pub fn open<S: Storage>(host: u8, storage: &mut S) -> Result<TagIssuer, StoreFault>
        ensures host { IfOk result (λ it. it.host ≡ host) }
        ensures boot { IfOk result (λ it. it.boot ≡ S.boots storage.old + 1) }
        ensures unused { IfOk result (λ it. it.used ≡ 0) }
        ensures counted { OnOk result (S.boots storage.new ≡ S.boots storage.old + 1) }
        ensures rises { S.boots storage.old ≤ S.boots storage.new }
        ensures full { IsErrOf result faults.BootsFull → 16777215 ≤ S.boots storage.old }
        ensures crash { (found : Stable) → S.may_recover storage.new found → S.may_recover storage.old found }
    {
        let boot = storage.count_boot()?;
        if boot >= TAG_BOOTS {
            return Err(StoreFault::BootsFull);
        }
        Ok(TagIssuer {
            host,
            boot,
            used: 0,
        })
    }

    /// Issues the next tag; `None` once 4,294,967,295 are issued.
    pub fn issue(&mut self) -> Option<u64>
        ensures tag { IfSome result (λ tag. tag ≡ tag_of self.old.host self.old.boot self.old.used) }
        ensures counted { OnSome result (self.new ≡ record self.old { used = self.old.used + 1 }) }
        ensures room { OnSome result (self.old.used < 4294967295) }
        ensures full { IfNone result (self.old.used ≡ 4294967295) }
        ensures unchanged { IfNone result (self.new ≡ self.old) }
    {
        let used = self.used.checked_add(1)?;
        let tag = u64::from(self.host) * 72_057_594_037_927_936
            + u64::from(self.boot) * 4_294_967_296
            + u64::from(self.used);
        self.used = used;
        Some(tag)
    }
}
