use sqlite_disk::Start;
use std::marker::PhantomData;

/// What the five files of a store hold as they are opened. A function over `S: StoreStart` is proved
/// for all contents, which no code can read.
pub trait StoreStart: Drop {
    ghost use Rattle.zk_store.specs.Stores.{Files};

    ghost files: { Files };
}

/// For `main` to name, and for code without clauses on what files hold as they are opened: at this
/// type such a clause speaks of empty files alone.
#[derive(Clone, Copy, Debug)]
pub struct UnknownStart;

impl StoreStart for UnknownStart {
    ghost use Rattle.std.specs.Prelude.{[]};

    ghost files = { record { log = []; tags = []; joining = []; joining_tags = []; book = [] } };
}

/// The starts of a store's files. The value of `S` is used up, so that code over any `S` opens one
/// store.
pub(crate) fn starts_of<S: StoreStart>(_start: S) -> (LogStart<S>, JoiningStart<S>, BookStart<S>) {
    (
        LogStart { start: PhantomData },
        JoiningStart { start: PhantomData },
        BookStart { start: PhantomData },
    )
}

/// A log and its tags.
#[derive(Drop)]
pub struct LogStart<S: StoreStart> {
    start: PhantomData<S>,
}

impl<S: StoreStart> Start for LogStart<S> {
    ghost use Rattle.std.specs.Prelude.{false};

    ghost log = { S.StoreStart.files.tags };

    ghost db = { S.StoreStart.files.log };

    ghost is_mixing = { false };

    fn mixes() -> bool {
        false
    }
}

/// The log and the tags of a change.
#[derive(Drop)]
pub struct JoiningStart<S: StoreStart> {
    start: PhantomData<S>,
}

impl<S: StoreStart> Start for JoiningStart<S> {
    ghost use Rattle.std.specs.Prelude.{false};

    ghost log = { S.StoreStart.files.joining_tags };

    ghost db = { S.StoreStart.files.joining };

    ghost is_mixing = { false };

    fn mixes() -> bool {
        false
    }
}

/// A book.
#[derive(Drop)]
pub struct BookStart<S: StoreStart> {
    start: PhantomData<S>,
}

impl<S: StoreStart> Start for BookStart<S> {
    ghost use Rattle.std.specs.Prelude.{false};

    ghost log = { S.StoreStart.files.book };

    ghost db = { S.StoreStart.files.book };

    ghost is_mixing = { false };

    fn mixes() -> bool {
        false
    }
}
