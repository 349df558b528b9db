//! A client's step: what its next message does to the machine.
ghost use Rattle.std.specs.Prelude.{◌≡◌, ◌≤◌, Some, length, IfOk, OnOk, OnErr};
ghost use Rattle.vz_rules.specs.declared.entry.Event.TheVariants as event;
ghost use Rattle.vz_rules.specs.Plan.{Plan};
ghost use Rattle.vz_rules.specs.World.{World, Client, client_at};
ghost use Rattle.vz_rules.specs.Step.{step_in};
ghost use Rattle.vz_manager.specs.Serving.{Serves, IsStepOf};

use crate::kind::{Kind, kind_of};
use crate::parts::Parts;
use crate::quiet::nothing_follows;
use vz_base::Memory;
use vz_machine::Step;
use vz_rules::{Refusal, Reply};

impl Parts {
    /// Takes the next message of a client. It returns `Memory` if an allocation fails; then the
    /// state does not change. Conditions: the client exists, and the parts are right for a state
    /// that has it.
    pub(crate) fn client(&mut self, c: u32) -> Result<Step, Memory>
        requires some { 1 ≤ c }
        requires known { c ≤ length self.old.support.clients }
        requires stands { (p : Plan) × (w : World) × (x : Client) × Serves p w self.old
            × (client_at w c ≡ Some x) }
        ensures step { (p : Plan) (w : World) (x : Client) → Serves p w self.old
            → client_at w c ≡ Some x → IfOk result (λ s. IsStepOf p w (event.Client c) s) }
        ensures serves { (p : Plan) (w : World) (x : Client) → Serves p w self.old
            → client_at w c ≡ Some x
            → OnOk result (Serves p (step_in p w (event.Client c)).world self.new) }
        ensures err { (p : Plan) (w : World) → Serves p w self.old
            → OnErr result (Serves p w self.new) }
    {
        match kind_of(&self.support, c) {
            Kind::Nothing => {
                let reply = Reply::Refused(Refusal::NoMessage);
                Ok(nothing_follows(reply))
            }
            Kind::Closed => Ok(self.refuse(c, Refusal::AlreadyClosed)),
            Kind::Upload => self.upload(c),
            Kind::Submit => self.submit(c),
            Kind::DidNotProduce => Ok(self.did_not_produce(c)),
            Kind::Reclaim => self.reclaim(c),
            Kind::SetRoot => self.set_root(c),
            Kind::Hierarchy => self.hierarchy(c),
            Kind::Await => Ok(self.await_begin(c)),
            Kind::Close => self.close(c),
        }
    }
}
