ghost use Rattle.std.specs.Prelude.{◌≡◌, IfOk};
ghost use Rattle.zk_cli_args.specs.Incidents.{is_path};

use std::alloc::Global;
use zk_path::{NoMemory, Path, PathFault};

/// Whether a word is the path of a node, there or not.
pub(crate) fn is_path(alloc: Global, word: &str) -> Result<bool, NoMemory>
    ensures { IfOk result (λ is. is ≡ is_path word.now) }
{
    match Path::read(alloc, word) {
        Ok(_) => Ok(true),
        Err(PathFault::NoMemory) => Err(NoMemory),
        Err(_) => Ok(false),
    }
}
