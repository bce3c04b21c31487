//! The files of a store that is opened.

ghost use Rattle.std.specs.Prelude.{◌≡◌, ◌⊎◌, IsTrue, IfOk, IfErr, OnOk};
ghost use Rattle.sqlite_disk.specs.Disk.{Only};
ghost use Rattle.zab_epoch.specs.declared.stable.Stable.{Stable as StablePart};
ghost use Rattle.zk_store.specs.Books.{HasBook, NoBook, book_of};
ghost use Rattle.zk_store.specs.Holding.{AreClean, AreUsable, Hold, IsReady, MayRecover, Remains, empty};
ghost use Rattle.zk_data_files.specs.FileStores.{AreStartsOf, IsFirst, IsCallFault, HaveLostTheirBook};

use crate::OpenFault;
use sqlite_disk::Disk;
use std::alloc::Global;
use zab_epoch::Stable;
use zk_log::HEADER;
use zk_store::{StoreFiles, StoredBook, create, recover};

/// What the files of a store hold.
#[derive(Debug, Drop)]
pub(crate) struct Opened {
    pub counted: StoredBook,
    pub stable: Stable,
}

/// Recovers the stable part of files. If there is no book, creates an empty store.
pub(crate) fn open_files<D: Disk>(
    alloc: Global,
    files: &mut StoreFiles<D>,
) -> Result<Opened, OpenFault>
    requires usable { AreUsable D.Disk files.old }
    ensures starts { IfOk result (λ it. AreClean D.Disk files.new → AreStartsOf (book_of (D.Disk.seen files.old.book)) it.counted.book.boots) }
    ensures ready { IfOk result (λ it. IsReady D.Disk files.new it.counted) }
    ensures held { IfOk result (λ it. AreClean D.Disk files.new → Hold D.Disk files.new it.counted it.stable) }
    ensures recovers { (found : StablePart) → MayRecover D.Disk files.new found
        → MayRecover D.Disk files.old found ⊎ IsFirst (D.Disk.seen files.old.book) found }
    ensures fault { IfErr result (λ fault. IsCallFault D.Disk fault files.old files.new) }
    ensures book { OnOk result (AreClean D.Disk files.new → HaveLostTheirBook D.Disk files.old → ⊥) }
    ensures remains { Remains D.Disk files.old files.new }
    ensures clean { AreClean D.Disk files.new → AreClean D.Disk files.old }
{
    match zk_store::book_storing::recover(&mut files.book)? {
        Some(counted) => recover_stable(alloc, files, counted),
        None => create_first(alloc, files),
    }
}

/// Recovers the stable part of files with this book.
fn recover_stable<D: Disk>(
    alloc: Global,
    files: &mut StoreFiles<D>,
    counted: StoredBook,
) -> Result<Opened, OpenFault>
    requires ready { IsReady D.Disk files.old counted }
    requires book { IsTrue (D.Disk.is_clean files.old.book) → book_of (D.Disk.seen files.old.book) ≡ HasBook counted.book }
    ensures starts { IfOk result (λ it. it.counted.book.boots ≡ counted.book.boots) }
    ensures ready { IfOk result (λ it. IsReady D.Disk files.new it.counted) }
    ensures held { IfOk result (λ it. AreClean D.Disk files.new → Hold D.Disk files.new it.counted it.stable) }
    ensures recovers { (found : StablePart) → MayRecover D.Disk files.new found → MayRecover D.Disk files.old found }
    ensures fault { IfErr result (λ fault. IsCallFault D.Disk fault files.old files.new) }
    ensures remains { Remains D.Disk files.old files.new }
    ensures clean { AreClean D.Disk files.new → AreClean D.Disk files.old }
{
    let mut counted = counted;
    let stable = recover(alloc, files, &mut counted)?;
    Ok(Opened { counted, stable })
}

/// Creates an empty store in files without a book, unless the log has entries.
fn create_first<D: Disk>(alloc: Global, files: &mut StoreFiles<D>) -> Result<Opened, OpenFault>
    requires usable { AreUsable D.Disk files.old }
    requires none { IsTrue (D.Disk.is_clean files.old.book) → book_of (D.Disk.seen files.old.book) ≡ NoBook }
    requires only { IsTrue (D.Disk.is_clean files.old.book) → Only (D.Disk.seen files.old.book) (D.Disk.may_leave files.old.book) }
    ensures starts { IfOk result (λ it. it.counted.book.boots ≡ 0) }
    ensures ready { IfOk result (λ it. IsReady D.Disk files.new it.counted) }
    ensures held { IfOk result (λ it. AreClean D.Disk files.new → Hold D.Disk files.new it.counted it.stable) }
    ensures recovers { (found : StablePart) → MayRecover D.Disk files.new found
        → MayRecover D.Disk files.old found ⊎ (found ≡ empty) }
    ensures fault { IfErr result (λ fault. IsCallFault D.Disk fault files.old files.new) }
    ensures book { OnOk result (AreClean D.Disk files.new → HaveLostTheirBook D.Disk files.old → ⊥) }
    ensures clean { AreClean D.Disk files.new → AreClean D.Disk files.old }
{
    if files.log.len()? > HEADER {
        return Err(OpenFault::NoBook);
    }
    let counted = create(alloc, files)?;
    Ok(Opened {
        counted,
        stable: Stable::new(alloc),
    })
}
