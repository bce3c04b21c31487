//! Copies of events and answers.

ghost use Rattle.std.specs.Prelude.{◌≡◌, IfOk};

use crate::answer::{Answer, Answered};
use crate::event::{Event, Question};
use zk_path::NoMemory;
use zk_requests::Call;

fn copy_of(event: &zab_model::Event<Call>) -> Result<zab_model::Event<Call>, NoMemory>
    ensures { IfOk result (λ copy. copy ≡ event.now) }
{
    match event {
        zab_model::Event::Lead { server } => Ok(zab_model::Event::Lead { server: *server }),
        zab_model::Event::Follow { server, leader } => Ok(zab_model::Event::Follow {
            server: *server,
            leader: *leader,
        }),
        zab_model::Event::Arrive { message } => Ok(zab_model::Event::Arrive { message: *message }),
        zab_model::Event::Submit { server, call } => Ok(zab_model::Event::Submit {
            server: *server,
            call: call.copy()?,
        }),
        zab_model::Event::Expire {
            server,
            tag,
            session,
            now,
        } => Ok(zab_model::Event::Expire {
            server: *server,
            tag: *tag,
            session: *session,
            now: *now,
        }),
        zab_model::Event::Sync { server, tag } => Ok(zab_model::Event::Sync {
            server: *server,
            tag: *tag,
        }),
        zab_model::Event::Crash { server } => Ok(zab_model::Event::Crash { server: *server }),
        zab_model::Event::Restart { server } => Ok(zab_model::Event::Restart { server: *server }),
    }
}

impl Question {
    pub fn copy(&self) -> Result<Question, NoMemory>
        ensures { IfOk result (λ copy. copy ≡ self.now) }
    {
        let auths = self.auths.copy()?;
        let call = self.call.copy()?;
        Ok(Question {
            auths,
            call,
            ..*self
        })
    }
}

impl Event {
    pub fn copy(&self) -> Result<Event, NoMemory>
        ensures { IfOk result (λ copy. copy ≡ self.now) }
    {
        match self {
            Event::World(event) => Ok(Event::World(copy_of(event)?)),
            Event::Read(question) => Ok(Event::Read(question.copy()?)),
        }
    }
}

impl Answer {
    pub fn copy(&self) -> Result<Answer, NoMemory>
        ensures { IfOk result (λ copy. copy ≡ self.now) }
    {
        match self {
            Answer::Moved(moved) => Ok(Answer::Moved(*moved)),
            Answer::Looked(reply) => Ok(Answer::Looked(reply.copy()?)),
        }
    }
}

impl Answered {
    pub fn copy(&self) -> Result<Answered, NoMemory>
        ensures { IfOk result (λ copy. copy ≡ self.now) }
    {
        Ok(Answered {
            tag: self.tag,
            session: self.session,
            result: self.result.copy()?,
        })
    }
}
