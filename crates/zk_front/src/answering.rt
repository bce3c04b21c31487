ghost use Rattle.std.specs.Prelude.{◌≡◌, option_map, OnOk, OnErr};
ghost use Rattle.std.specs.String.{string_bytes};
ghost use Rattle.zk_line_protocol.specs.Lines.{Line, read_line};
ghost use Rattle.zk_front.specs.Reaching.{Answers, AnswersNot};

use crate::service::Service;
use std::alloc::Global;
use zk_line_protocol::{Action, ConnectionState, push_saying, text_of};
use zk_path::NoMemory;

/// Appends the reply to a line: an immediate one, or the service's.
pub(crate) fn answer<S: Service>(
    alloc: Global,
    standing: &mut ConnectionState,
    service: &mut S,
    line: Option<&[u8]>,
    page: &mut String,
) -> Result<(), NoMemory>
    ensures ok { OnOk result ((l : Line) → option_map (λ bytes. bytes.now) line.entry ≡ read_line l
        → Answers S.does service.old service.new standing.old standing.new l (string_bytes page.old) (string_bytes page.new)) }
    ensures err { OnErr result ((l : Line) → option_map (λ bytes. bytes.now) line.entry ≡ read_line l
        → AnswersNot S.does service.old service.new standing.old l) }
{
    match standing.take(alloc, text_of(line))? {
        Action::Says(saying) => push_saying(page, saying),
        Action::Asks { ask, wish } => {
            let told = service.ask(ask);
            standing.tell(alloc, page, &wish, &told)
        }
    }
}
