ghost use Rattle.std.specs.Prelude.{◌≡◌, IfOk};

use std::alloc::Global;
use std::fmt::{self, Debug, Formatter, Write};
use std::marker::Model;
use std::ops::Deref;
use std::sync::Arc;
use zk_path::NoMemory;

/// An immutable value with several owners; copies share it.
#[derive(Drop)]
pub struct Payload<T> {
    value: Arc<T>,
}

/// Contracts see the value.
impl<T> Model for Payload<T> {
    ghost use Rattle.std.specs.Arc.{arc_value};

    ghost Value = { T };

    ghost view = { λ shared. arc_value shared.value };
}

impl<T> Payload<T> {
    /// Wraps a value.
    pub fn new(alloc: Global, value: T) -> Result<Payload<T>, NoMemory>
    where
        T: Drop,
        ensures { IfOk result (λ shared. shared ≡ value) }
    {
        Ok(Payload {
            value: Arc::new(alloc, value)?,
        })
    }

    /// Shares the value; allocates nothing. Fails with [`NoMemory`] if the count of owners is full.
    pub fn copy(&self) -> Result<Payload<T>, NoMemory>
        ensures { IfOk result (λ copy. copy ≡ self.now) }
    {
        Ok(Payload {
            value: Arc::try_clone(&self.value)?,
        })
    }
}

impl<T> Deref for Payload<T> {
    type Target = T;

    ghost deref_gives = { λ shared value. value ≡ shared };

    fn deref(&self) -> &T
        ensures { result.now ≡ self.now }
    {
        &self.value
    }
}

/// Formats the value itself.
impl<T: Debug> Debug for Payload<T> {
    ghost debug_output = { λ shared. T.debug_output shared };

    fn fmt<W: Write>(&self, f: &mut Formatter<W>) -> fmt::Result {
        Debug::fmt(self.deref(), f)
    }
}
