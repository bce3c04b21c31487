//! The nodes of a snapshot, encoded.

ghost use Rattle.std.specs.Prelude.{◌≡◌, ◌++◌, OnOk};
ghost use Rattle.zk_snapshot.specs.Snapshots.{moments, versions, kept, written_path, stored, IsKept, IsStored};

use crate::fields::{put_content, put_int, put_long, put_text};
use zk_path::{NoMemory, Path};
use zk_snapshot::{Kept, Moments, Stored, Versions};

fn put_moments(out: &mut Vec<u8>, one: &Moments) -> Result<(), NoMemory>
    ensures { OnOk result (out.new.items ≡ out.old.items ++ moments one.now) }
{
    put_long(out, one.czxid)?;
    put_long(out, one.mzxid)?;
    put_long(out, one.ctime)?;
    put_long(out, one.mtime)?;
    Ok(())
}

fn put_versions(out: &mut Vec<u8>, one: &Versions) -> Result<(), NoMemory>
    ensures { OnOk result (out.new.items ≡ out.old.items ++ versions one.now) }
{
    put_int(out, one.version)?;
    put_int(out, one.creates)?;
    put_int(out, one.aversion)?;
    Ok(())
}

/// `DataNode`.
fn put_kept(out: &mut Vec<u8>, one: &Kept) -> Result<(), NoMemory>
    requires { IsKept one.now }
    ensures { OnOk result (out.new.items ≡ out.old.items ++ kept one.now) }
{
    put_content(out, &one.content)?;
    put_long(out, one.access)?;
    put_moments(out, &one.moments)?;
    put_versions(out, &one.versions)?;
    put_long(out, one.owner)?;
    put_long(out, one.pzxid)?;
    Ok(())
}

/// The text of a path: empty for the root.
fn written_path(path: &Path) -> &str
    ensures { result.now ≡ written_path path.now }
{
    let text = path.text();
    if text == "/" {
        return "";
    }
    text
}

/// A node with its path.
pub(crate) fn put_stored(out: &mut Vec<u8>, one: &Stored) -> Result<(), NoMemory>
    requires { IsStored one.now }
    ensures { OnOk result (out.new.items ≡ out.old.items ++ stored one.now) }
{
    put_text(out, written_path(&one.path))?;
    put_kept(out, &one.kept)
}
