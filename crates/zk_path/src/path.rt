ghost use Rattle.std.specs.Prelude.{◌≡◌, ◌≢◌, [], false, None, Some, IfOk, IfErr, IsOkUnless, if◌then◌else◌};
ghost use Rattle.std.specs.Result.{IsErrOf};
ghost use Rattle.std.specs.List.{AllByRecursion};
ghost use Rattle.std.specs.Option.{ForSome, option_copied};
ghost use Rattle.zk_path.specs.Paths.{IsPath, IsName, fault_of, name_fault, is_slash, is_root, before_last_slash, after_last_slash, parent_of, name_of, child_of};

use crate::fault::PathFault;
use crate::grammar::{check_name, check_path};
use crate::memory::NoMemory;
use std::alloc::Global;
use std::marker::Model;
use std::sync::ArcStr;

/// The path of a node: `/`, or names each preceded by `/`. Copies share the text.
///
/// ZooKeeper Programmer's Guide, "The ZooKeeper Data Model".
#[derive(Debug, Drop)]
pub struct Path {
    alloc: Global,
    text: ArcStr,
}

impl Model for Path {
    ghost use Rattle.std.specs.Prelude.{◌≡◌, List, ℕ, None};
    ghost use Rattle.std.specs.Arc.{arc_str_bytes};
    ghost use Rattle.zk_path.specs.Paths.{fault_of};

    ghost Value = { List ℕ };

    ghost view = { λ path. arc_str_bytes path.text };

    ghost invariant = { λ path. fault_of (arc_str_bytes path.text) ≡ None };
}

impl Path {
    /// Parses a path.
    ///
    /// Fails with the first fault of a text that is not a path, and with [`PathFault::NoMemory`] if
    /// an allocation fails.
    pub fn read(alloc: Global, text: &str) -> Result<Path, PathFault>
        ensures found { IfOk result (λ path. path ≡ text.now) }
        ensures is_path { IfOk result (λ _. IsPath text.now) }
        ensures only { IsPath text.now → IsOkUnless result PathFault.NoMemory }
        ensures fault { IfErr result (λ fault. fault ≢ PathFault.NoMemory → fault_of text.now ≡ Some fault) }
        ensures refused { ForSome (fault_of text.now) (IsErrOf result) }
    {
        check_path(text)?;
        Ok(Path {
            alloc,
            text: ArcStr::from_str(alloc, text)?,
        })
    }

    pub fn text(&self) -> &str
        ensures text { result.now ≡ self.now }
        ensures is_path { fault_of self.now ≡ None }
    {
        self.text.as_str()
    }

    /// The text of the parent's path; `None` for the root.
    pub fn parent(&self) -> Option<&str>
        ensures { option_copied result ≡ parent_of self.now }
    {
        if self.text() == "/" {
            return None;
        }
        let (above, _) = self.around_last_slash();
        if above.is_empty() {
            return Some("/");
        }
        Some(above)
    }

    /// The last name; empty for the root.
    pub fn name(&self) -> &str
        ensures { result.now ≡ name_of self.now }
    {
        let (_, name) = self.around_last_slash();
        name
    }

    /// Returns the path of a child. The name must not be empty or contain a slash.
    ///
    /// Fails with the fault of a text that is not a name, and with [`PathFault::NoMemory`] if an
    /// allocation fails.
    pub fn child(&self, name: &str) -> Result<Path, PathFault>
        requires filled { name.now ≢ [] }
        requires whole { AllByRecursion (λ b. is_slash b ≡ false) name.now }
        ensures found { IfOk result (λ path. path ≡ child_of self.now name.now) }
        ensures is_name { IfOk result (λ _. IsName name.now) }
        ensures only { IsName name.now → IsOkUnless result PathFault.NoMemory }
        ensures fault { IfErr result (λ fault. fault ≢ PathFault.NoMemory → name_fault name.now ≡ Some fault) }
        ensures refused { ForSome (name_fault name.now) (IsErrOf result) }
    {
        check_name(name)?;
        let mut text = String::from_str(self.alloc, self.before_names())?;
        text.push('/')?;
        text.push_str(name)?;
        Ok(Path {
            alloc: self.alloc,
            text: ArcStr::from_string(text)?,
        })
    }

    /// A copy that shares the text, without allocating. Fails with [`NoMemory`] if the text's owner
    /// count is full.
    pub fn copy(&self) -> Result<Path, NoMemory>
        ensures { IfOk result (λ copy. copy ≡ self.now) }
    {
        Ok(Path {
            alloc: self.alloc,
            text: self.text.clone()?,
        })
    }

    /// The text that precedes the slash before a child's name.
    fn before_names(&self) -> &str
        ensures { result.now ≡ (if is_root self.now then [] else self.now) }
    {
        let text = self.text();
        if text == "/" {
            return "";
        }
        text
    }

    /// The texts before and after the last slash.
    fn around_last_slash(&self) -> (&str, &str)
        ensures before { result.0.now ≡ before_last_slash self.now }
        ensures behind { result.1.now ≡ after_last_slash self.now }
    {
        self.text().rsplit_once('/').unwrap()
    }
}
