//! Reads of many nodes.

ghost use Rattle.std.specs.Prelude.{◌≡◌, pos, nat_eq, filter, count_by, IfOk};
ghost use Rattle.std.specs.Int.{w32, int_wrap};
ghost use Rattle.std.specs.List.{starts_with};
ghost use Rattle.std.specs.String.{string_bytes};
ghost use Rattle.zk_client_session.specs.TreeReads.{ephemerals_of, prefix_below, extends, descendant_count};

use std::alloc::Global;
use zk_acl::Text;
use zk_path::{NoMemory, Path};
use zk_table::Names;
use zk_tree::Tree;

/// The paths of a session's ephemeral nodes that have a prefix, in order.
pub fn ephemerals(alloc: Global, tree: &Tree, session: i64, prefix: &str) -> Result<Names, NoMemory>
    ensures { IfOk result (λ paths. paths ≡ ephemerals_of tree.now session prefix.now) }
{
    let paths = with_prefix(tree.owned_by(session)?, prefix);
    names_of(alloc, &paths)
}

fn with_prefix(paths: Vec<Path>, prefix: &str) -> Vec<Path>
    ensures { result.items ≡ filter (λ path. starts_with nat_eq path prefix.now) paths.items }
{
    let mut paths = paths;
    paths.retain(|path| has_prefix(path.text(), prefix));
    paths
}

fn has_prefix(text: &str, prefix: &str) -> bool
    ensures { result ≡ starts_with nat_eq text.now prefix.now }
{
    text.as_bytes().starts_with(prefix.as_bytes())
}

fn names_of(alloc: Global, paths: &[Path]) -> Result<Names, NoMemory>
    ensures { IfOk result (λ names. names ≡ paths.now) }
{
    let mut names = Vec::new(alloc);
    for path in paths {
        names.push(Text::read(alloc, path.text())?)?;
    }
    Ok(Names::new(names))
}

/// The number of all nodes below a path, in 32 bits that wrap.
pub fn descendant_count(alloc: Global, tree: &Tree, path: &Path) -> Result<i32, NoMemory>
    ensures { IfOk result (λ count. count ≡ descendant_count tree.now path.now) }
{
    let prefix = prefix_below(alloc, path.text())?;
    let paths = tree.paths()?;
    Ok(wrapped(count_extending(&paths, prefix.as_str())))
}

fn prefix_below(alloc: Global, path: &str) -> Result<String, NoMemory>
    ensures { IfOk result (λ prefix. string_bytes prefix ≡ prefix_below path.now) }
{
    let mut prefix = String::from_str(alloc, path)?;
    if path != "/" {
        prefix.push('/')?;
    }
    Ok(prefix)
}

fn count_extending(paths: &[Path], prefix: &str) -> usize
    ensures { result ≡ count_by (extends prefix.now) paths.now }
{
    paths
        .iter()
        .filter(|path| extends(path.text(), prefix))
        .count()
}

/// Whether a path starts with a prefix, and goes on.
fn extends(path: &str, prefix: &str) -> bool
    ensures { result ≡ extends prefix.now path.now }
{
    has_prefix(path, prefix) && path != prefix
}

/// A number modulo 2^32.
pub(crate) fn wrapped(number: usize) -> i32
    ensures { result ≡ int_wrap w32 (pos number) }
{
    ((number % (1 << 32)) as u32).cast_signed()
}
