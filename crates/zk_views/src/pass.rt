ghost use Rattle.std.specs.Prelude.{◌≡◌, pos};
ghost use Rattle.std.specs.Int.{int_max};

use std::marker::Model;

/// What a client has seen: the zxid of a transaction, 0 at first. It only rises.
#[derive(Debug)]
pub struct Pass {
    seen: i64,
}

impl Drop for Pass {
    fn drop(self) {
        let Pass { seen: _ } = self;
    }
}

impl Model for Pass {
    ghost use Rattle.std.specs.Prelude.{ℤ};

    ghost Value = { ℤ };

    ghost view = { λ pass. pass.seen };
}

impl Pass {
    /// The pass of a client that has seen nothing.
    pub fn new() -> Pass
        ensures { result ≡ pos 0 }
    {
        Pass { seen: 0 }
    }

    /// Returns the zxid of the last transaction that the client has seen.
    pub fn seen(&self) -> i64
        ensures { result ≡ self.now }
    {
        self.seen
    }

    /// Records that the client has seen a transaction. Never falls.
    pub fn take(&mut self, zxid: i64)
        ensures { self.new ≡ int_max self.old zxid }
    {
        if zxid > self.seen {
            self.seen = zxid;
        }
    }
}
