ghost use Rattle.std.specs.Prelude.{◌≡◌, map, IfOk};
ghost use Rattle.zk_path.specs.Paths.{name_of};

use std::alloc::Global;
use std::marker::Model;
use zk_acl::Text;
use zk_path::{NoMemory, Path};

/// Names of nodes, modelled as a list.
#[derive(Debug, Drop)]
pub struct Names {
    texts: Vec<Text>,
}

impl Model for Names {
    ghost use Rattle.std.specs.Prelude.{List, ℕ};

    ghost Value = { List (List ℕ) };

    ghost view = { λ names. names.texts.items };
}

impl Names {
    /// Wraps `texts` without allocating.
    pub fn new(texts: Vec<Text>) -> Names
        ensures { result ≡ texts.items }
    {
        Names { texts }
    }

    /// The last names of `paths`, in their order.
    pub fn of(alloc: Global, paths: &[Path]) -> Result<Names, NoMemory>
        ensures { IfOk result (λ names. names ≡ map name_of paths.now) }
    {
        let mut texts = Vec::new(alloc);
        for path in paths {
            texts.push(Text::read(alloc, path.name())?)?;
        }
        Ok(Names { texts })
    }

    pub fn into_vec(self) -> Vec<Text>
        ensures { result.items ≡ self }
    {
        let Names { texts } = self;
        texts
    }

    pub fn as_slice(&self) -> &[Text]
        ensures { result.now ≡ self.now }
    {
        self.texts.as_slice()
    }

    pub fn copy(&self) -> Result<Names, NoMemory>
        ensures { IfOk result (λ copy. copy ≡ self.now) }
    {
        let mut texts = Vec::new(*self.texts.allocator());
        for text in &self.texts {
            texts.push(text.copy()?)?;
        }
        Ok(Names { texts })
    }
}
