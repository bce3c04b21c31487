ghost use Rattle.std.specs.Prelude.{◌≡◌, IfOk};

use std::alloc::Global;
use std::marker::Model;
use std::sync::Arc;
use zk_path::NoMemory;

/// The bytes of a node, which the standard calls its data. Copies share the bytes.
#[derive(Debug, Drop)]
pub struct Content {
    bytes: Arc<Vec<u8>>,
}

impl Model for Content {
    ghost use Rattle.std.specs.Arc.{arc_value};
    ghost use Rattle.std.specs.Prelude.{List, ℕ};

    ghost Value = { List ℕ };

    ghost view = { λ content. (arc_value content.bytes).items };
}

impl Content {
    pub fn new(alloc: Global, bytes: Vec<u8>) -> Result<Content, NoMemory>
        ensures { IfOk result (λ content. content ≡ bytes.items) }
    {
        Ok(Content {
            bytes: Arc::new(alloc, bytes)?,
        })
    }

    /// Copies `bytes`.
    pub fn read(alloc: Global, bytes: &[u8]) -> Result<Content, NoMemory>
        ensures { IfOk result (λ content. content ≡ bytes.now) }
    {
        Content::new(alloc, Vec::from_slice(alloc, bytes)?)
    }

    pub fn as_slice(&self) -> &[u8]
        ensures { result.now ≡ self.now }
    {
        self.bytes.as_slice()
    }

    /// A copy that shares the bytes, without allocating. Fails with [`NoMemory`] if the bytes'
    /// owner count is full.
    pub fn copy(&self) -> Result<Content, NoMemory>
        ensures { IfOk result (λ copy. copy ≡ self.now) }
    {
        Ok(Content {
            bytes: Arc::try_clone(&self.bytes)?,
        })
    }

    /// A copy of a node's content, where `None` is null content. Does not allocate, like
    /// [`Content::copy`].
    pub fn copy_of(content: &Option<Content>) -> Result<Option<Content>, NoMemory>
        ensures { IfOk result (λ copy. copy ≡ content.now) }
    {
        match content {
            Some(content) => Ok(Some(content.copy()?)),
            None => Ok(None),
        }
    }
}
