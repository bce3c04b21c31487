ghost use Rattle.std.specs.Prelude.{◌≡◌, Some, IfErr, IfOk, OnErr};
ghost use Rattle.left_right.specs.Sides as sides;
ghost use Rattle.zk_views.specs.Answers.{IsAnswered, IsRefused};
ghost use Rattle.zk_views.specs.Views.{IsPrefix};

use crate::fault::ViewFault;
use crate::pass::Pass;
use crate::rule::{Enter, ViewReader};
use crate::seen::Seen;
use std::marker::Model;
use zk_acl::Id;
use zk_table::ReadCall;

/// One thread's end of a view. It never waits.
pub struct Reader {
    // Present except during a read.
    end: Option<ViewReader>,
}

impl Drop for Reader {
    fn drop(self) {
        let Reader { end: _ } = self;
    }
}

/// Contracts see the list that it entered last, at first the empty list, and the table of its view.
impl Model for Reader {
    ghost use Rattle.std.specs.Prelude.{[], IsSome, option_map, unwrap_or};
    ghost use Rattle.left_right.specs.Sides as sides;
    ghost use Rattle.zk_views.specs.Views.{Entering};

    ghost Value = { Entering };

    ghost view = { λ reader. record { table = option_map (λ end. end.place.table_id) reader.end; txns = unwrap_or (option_map (λ end. sides.view end.place) reader.end) [] } };

    ghost invariant = { λ reader. IsSome reader.end };
}

impl Reader {
    /// A reader that has entered nothing.
    pub(crate) fn new(end: ViewReader) -> Reader
        ensures { result ≡ record { table = Some end.place.table_id; txns = sides.view end.place } }
    {
        Reader { end: Some(end) }
    }

    /// Replies to a client from a list that is published now, if the client has seen no later
    /// transaction. Its pass then has seen that list's last one. An error leaves the pass
    /// unchanged.
    ///
    /// The list begins with the one that this reader entered before, and replaces it, even if the
    /// client is ahead of it or an allocation fails. After the publisher has closed the view, the
    /// reader enters nothing more.
    pub fn read(
        &mut self,
        pass: &mut Pass,
        call: &ReadCall,
        auths: &[Id],
    ) -> Result<Seen, ViewFault>
        ensures later { IsPrefix self.old.txns self.new.txns }
        ensures answered { IfOk result (IsAnswered self.new.txns call.now auths.now pass.old pass.new) }
        ensures refused { IfErr result (IsRefused (self.new.txns ≡ self.old.txns) self.new.txns pass.old) }
        ensures kept { OnErr result (pass.new ≡ pass.old) }
    {
        let end = self.end.take().unwrap();
        let (end, answer) = read_by(end, pass, call, auths);
        self.end = Some(end);
        answer
    }
}

/// Enters the view, reads what it holds then, and leaves it.
fn read_by(
    reader: ViewReader,
    pass: &mut Pass,
    call: &ReadCall,
    auths: &[Id],
) -> (ViewReader, Result<Seen, ViewFault>)
    ensures later { IsPrefix (sides.view reader.place) (sides.view result.0.place) }
    ensures answered { IfOk result.1 (IsAnswered (sides.view result.0.place) call.now auths.now pass.old pass.new) }
    ensures refused { IfErr result.1 (IsRefused (sides.view result.0.place ≡ sides.view reader.place) (sides.view result.0.place) pass.old) }
    ensures kept { OnErr result.1 (pass.new ≡ pass.old) }
{
    match reader.enter_as::<Enter>() {
        Ok(reading) => {
            let answer = reading.get().tell(pass, call, auths);
            (reading.leave(), answer)
        }
        Err(reader) => (reader, Err(ViewFault::Gone)),
    }
}
