ghost use Rattle.std.specs.Prelude.{◌≡◌, IfOk};
ghost use Rattle.zk_client_session.specs.Links.{path_in};

use std::alloc::Global;
use zk_path::{NoMemory, Path, PathFault};

/// The path with this text; `None` for an invalid one.
pub(crate) fn path_in(alloc: Global, text: &str) -> Result<Option<Path>, NoMemory>
    ensures { IfOk result (λ found. found ≡ path_in text.now) }
{
    match Path::read(alloc, text) {
        Ok(path) => Ok(Some(path)),
        Err(PathFault::NoMemory) => Err(NoMemory),
        Err(_) => Ok(None),
    }
}
