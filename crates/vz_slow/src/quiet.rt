//! Messages that change their client alone, so that nothing follows. They are taken without a copy
//! of the world.
ghost use Rattle.std.specs.Prelude.{◌≡◌, Some, IfOk, OnErr};
ghost use Rattle.vz_rules.specs.World.{Client as ClientState, client_at};
ghost use Rattle.vz_rules.specs.Messages.{message_answer, client_answer};
ghost use Rattle.vz_slow.specs.Quiet.{IsAlone, AreOwn};

use crate::messages::copy_of;
use crate::world::World;
use std::alloc::AllocError;
use vz_frame::Message;
use vz_rules::{Plan, Refusal, Reply};
use vz_state::{client_of, in_use, next_message};

impl<'a> World<'a> {
    /// Takes a message of a client that is not closed, if it changes the client alone. At an error
    /// nothing changes.
    fn quiet_message(&mut self, c: u32, message: &'a Message) -> Result<Option<Reply>, AllocError>
        requires { AreOwn self.old.clients }
        ensures ok { (x : ClientState) → client_at self.old c ≡ Some x
            → IfOk result (λ o. IsAlone self.old (message_answer self.old x message.now) o self.new) }
        ensures err { OnErr result (self.new ≡ self.old) }
    {
        match client_of(&self.clients, c) {
            None => Ok(None),
            Some(client) => match message {
                Message::Upload { id, block } => {
                    let used = in_use(client.resources(), *id);
                    Ok(Some(self.upload(c, used, *id, block)?))
                }
                Message::DidNotProduce(n) => Ok(Some(self.note(c, *n)?)),
                Message::Reclaim => {
                    let queue = copy_of(self.alloc, client.queue())?;
                    Ok(Some(self.hand_over(c, queue)?))
                }
                Message::Await => {
                    let delivered = client.delivered();
                    Ok(Some(self.wait(c, delivered)?))
                }
                _ => Ok(None),
            },
        }
    }

    /// Takes the next message of a client, if it changes the client alone; otherwise it answers
    /// None and changes nothing. At an error nothing changes.
    pub(crate) fn quiet(&mut self, plan: &'a Plan, c: u32) -> Result<Option<Reply>, AllocError>
        requires { AreOwn self.old.clients }
        ensures ok { IfOk result
            (λ o. IsAlone self.old (client_answer plan.now self.old c) o self.new) }
        ensures err { OnErr result (self.new ≡ self.old) }
    {
        match client_of(&self.clients, c) {
            None => Ok(None),
            Some(client) => match next_message(plan, client) {
                None => Ok(Some(Reply::Refused(Refusal::NoMessage))),
                Some(message) => {
                    if client.is_closed() {
                        return Ok(Some(self.refuse(c, Refusal::AlreadyClosed)?));
                    }
                    Ok(self.quiet_message(c, message)?)
                }
            },
        }
    }
}
