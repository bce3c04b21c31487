ghost use Rattle.std.specs.Prelude.{◌≡◌, false, true, IfOk, IfErr};
ghost use Rattle.sqlite_std_file.specs.File.{IsFresh};
ghost use Rattle.zk_store.specs.Holding.{AreClean, AreUsable, MayLeave, MayRecover, seen_of};
ghost use Rattle.zk_store.specs.Stores.{Files};
ghost use Rattle.zk_store.specs.Books.{book_of};
ghost use Rattle.zk_data_files.specs.FileStores.{AreStartsOf};
ghost use Rattle.zk_data_files.specs.Started.{FindsAll, FindsOnly};

use crate::start::{BookStart, JoiningStart, LogStart, StoreStart};
use crate::{FileStore, OneOf, Unopened};
use sqlite_disk::Disk;
use sqlite_std_file::FileFrom;
use std::alloc::Global;
use zk_store::StoreFiles;

/// A file of a store, with what it held.
pub type StoreFile<S> = OneOf<
    FileFrom<LogStart<S>>,
    FileFrom<JoiningStart<S>>,
    FileFrom<BookStart<S>>,
>;

/// The files of a store as they were opened: they hold what `S` says, and a crash leaves it.
pub(crate) fn started_files<S: StoreStart>(
    log: FileFrom<LogStart<S>>,
    tags: FileFrom<LogStart<S>>,
    joining: FileFrom<JoiningStart<S>>,
    joining_tags: FileFrom<JoiningStart<S>>,
    book: FileFrom<BookStart<S>>,
) -> StoreFiles<StoreFile<S>>
    requires log { IsFresh false log }
    requires tags { IsFresh true tags }
    requires joining { IsFresh false joining }
    requires joining_tags { IsFresh true joining_tags }
    requires book { IsFresh false book }
    ensures seen { seen_of ⟦<StoreFile<S> as Disk>⟧ result ≡ S.files }
    ensures left { (left : Files) → MayLeave ⟦<StoreFile<S> as Disk>⟧ result left → left ≡ S.files }
    ensures clean { AreClean ⟦<StoreFile<S> as Disk>⟧ result }
{
    StoreFiles {
        log: OneOf::First(log),
        tags: OneOf::First(tags),
        joining: OneOf::Second(joining),
        joining_tags: OneOf::Second(joining_tags),
        book: OneOf::Third(book),
    }
}

/// Opens a store on files that hold `start`, and of which a crash leaves that.
pub(crate) fn open_from<D: Disk + Drop>(
    alloc: Global,
    files: StoreFiles<D>,
) -> Result<FileStore<D>, Unopened<D>>
    ensures all { (start : Files) → seen_of D.Disk files ≡ start
        → IfOk result (λ it. AreClean D.Disk it.files → FindsAll start (MayRecover D.Disk it.files)) }
    ensures only { (start : Files) → seen_of D.Disk files ≡ start → ((left : Files) → MayLeave D.Disk files left → left ≡ start)
        → IfOk result (λ it. FindsOnly start (MayRecover D.Disk it.files)) }
    ensures counts { (start : Files) → seen_of D.Disk files ≡ start
        → IfOk result (λ it. AreClean D.Disk it.files → AreStartsOf (book_of start.book) it.counted.book.boots) }
{
    FileStore::open(alloc, files)
}
