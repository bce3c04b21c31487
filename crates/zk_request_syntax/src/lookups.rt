//! Reads the lines of reads.
ghost use Rattle.std.specs.Prelude.{◌≡◌, Some};
ghost use Rattle.zk_listing.specs.Reading.{Takes, mapped, spaced, Makes};
ghost use Rattle.zk_request_syntax.specs.Promises.{ReadsAll};
ghost use Rattle.zk_request_syntax.specs.Reading.{lookup_at, lookup_of, watched_at, text_field_at, call_of};
ghost use Rattle.zk_request_syntax.specs.RequestLines.{SpellsLookup};

use crate::fields::alone;
use crate::spaced::spaced_text;
use crate::words::{flag, take_word};
use std::alloc::Global;
use zk_listing::ListCause;
use zk_path::{Path, PathFault};
use zk_table::ReadCall;

/// The content of a read's line.
#[derive(Debug, Drop)]
pub enum Lookup {
    /// A read, and whether to set a watch on what is read.
    Asks { call: ReadCall, watch: bool },
    /// A read at a text that is no path.
    BadPath,
}

/// What is read of a node.
#[derive(Clone, Copy, Debug)]
pub(crate) enum Aspect {
    Content,
    Existence,
    Children,
    Acl,
}

impl Aspect {
    /// Returns the read at a path.
    fn at(self, path: Path) -> ReadCall
        ensures { result ≡ call_of self path }
    {
        match self {
            Aspect::Content => ReadCall::GetData { path },
            Aspect::Existence => ReadCall::Exists { path },
            Aspect::Children => ReadCall::GetChildren { path },
            Aspect::Acl => ReadCall::GetAcl { path },
        }
    }
}

/// Reads `get [-w] PATH`, `stat [-w] PATH`, `ls [-w] PATH` or `getacl PATH`.
pub fn read_lookup(alloc: Global, text: &str) -> Result<Lookup, ListCause>
    ensures { ReadsAll SpellsLookup text.now result }
{
    let mut rest = text;
    let read = lookup_by_word(alloc, &mut rest);
    alone(read, rest)
}

/// Reads a read, and leaves what comes after it.
#[tactic(auto, unfolding(crate::specs::Reading::lookup_at))]
pub(crate) fn lookup_by_word(alloc: Global, input: &mut &str) -> Result<Lookup, ListCause>
    ensures { Takes result input.new.now (lookup_at input.old.now) }
{
    match take_word(input) {
        "get" => watched(alloc, Aspect::Content, input),
        "stat" => watched(alloc, Aspect::Existence, input),
        "ls" => watched(alloc, Aspect::Children, input),
        "getacl" => at_path(alloc, Aspect::Acl, false, input),
        _ => Err(ListCause::Word),
    }
}

/// Reads a read that may set a watch, after its word.
fn watched(alloc: Global, aspect: Aspect, input: &mut &str) -> Result<Lookup, ListCause>
    ensures { Takes result input.new.now (watched_at aspect input.old.now) }
{
    let watch = flag(input, "-w");
    at_path(alloc, aspect, watch, input)
}

/// Reads a space and the text of a path.
fn at_path(
    alloc: Global,
    aspect: Aspect,
    watch: bool,
    input: &mut &str,
) -> Result<Lookup, ListCause>
    ensures { Takes result input.new.now (mapped (lookup_of aspect watch) (spaced text_field_at) input.old.now) }
{
    let text = spaced_text(alloc, input)?;
    lookup_of(alloc, aspect, watch, text.as_str())
}

fn lookup_of(alloc: Global, aspect: Aspect, watch: bool, text: &str) -> Result<Lookup, ListCause>
    ensures { Makes result (Some (lookup_of aspect watch text.now)) }
{
    match Path::read(alloc, text) {
        Ok(path) => Ok(Lookup::Asks {
            call: aspect.at(path),
            watch,
        }),
        Err(PathFault::NoMemory) => Err(ListCause::NoMemory),
        Err(_) => Ok(Lookup::BadPath),
    }
}
