use zk_line_protocol::{Ask, ServiceFault, Told};

/// Executes asks, one at a time.
pub trait Service {
    ghost use Rattle.std.specs.Prelude.{Result};
    ghost use Rattle.zk_line_protocol.specs.declared.ask.Ask.{Ask};
    ghost use Rattle.zk_line_protocol.specs.declared.told.ServiceFault.{ServiceFault};
    ghost use Rattle.zk_line_protocol.specs.declared.told.Told.{Told};

    /// An ask may have this result in the first state, and the second is the state after it.
    ghost does: { Self → Ask → Result Told ServiceFault → Self → Type 0 };

    /// Executes an ask, and returns its reply and events.
    fn ask(&mut self, ask: Ask) -> Result<Told, ServiceFault>
        ensures { does self.old ask result self.new };
}
