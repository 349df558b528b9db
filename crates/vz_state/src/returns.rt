//! Resources that are returned, and feedback.
ghost use Rattle.std.specs.Prelude.{◌≡◌, ◌&&◌, ◌==◌, ◌<◌, ◌≤◌, map, IfOk, true, false};
ghost use Rattle.std.specs.List.{list_any, flat_map, filter_map};
ghost use Rattle.vz_frame.specs.Frame.{lists};
ghost use Rattle.vz_state.specs.Outs.{outs, is_out, all_outs, unfed, IsPutInto};
ghost use Rattle.std.specs.Option.{option_to_list};
ghost use Rattle.vz_rules.specs.World.{has_sub, is_in_flight};
ghost use Rattle.vz_rules.specs.Returns.{holds, is_held, return_of, queue_resource, returns_of, queue_returns};
ghost use Rattle.vz_state.specs.Holding.{holding, feedback_by, fed_by};

use crate::client::Client;
use crate::resource::{Resource, is_listed};
use crate::submission::Submission;
use crate::surface::{Surface, exists};
use std::alloc::AllocError;
use std::marker::Model;
use vz_frame::{List, Room};
use vz_ids::Sub;
use vz_rules::{Fed, Returned};

/// Whether a submission is one of these.
fn has_sub(subs: &[Sub], sub: Sub) -> bool
    ensures { result ≡ has_sub subs.now sub }
{
    subs.contains(&sub)
}

/// Whether a submission is in the drawn frame that is not done yet.
fn is_in_flight(in_flight: &Option<List<Sub>>, sub: Sub) -> bool
    ensures { result ≡ is_in_flight in_flight.now sub }
{
    match in_flight {
        None => false,
        Some(subs) => has_sub(subs.as_slice(), sub),
    }
}

/// What holds resources: the submissions, the surfaces, and the drawn frame that is not done yet.
#[derive(Drop)]
pub struct Holders<'b, 'a> {
    submissions: &'b [Submission<'a>],
    surfaces: &'b [Surface],
    in_flight: &'b Option<List<Sub>>,
}

impl<'b, 'a> Model for Holders<'b, 'a> {
    ghost use Rattle.vz_rules.specs.World.{World as State};
    ghost use Rattle.vz_state.specs.Holding.{holding};

    ghost Value = { State };

    ghost view = { λ h. holding h.submissions.now h.surfaces.now h.in_flight.now };
}

impl<'b, 'a> Holders<'b, 'a> {
    /// Joins these parts of a state.
    pub fn new(
        submissions: &'b [Submission<'a>],
        surfaces: &'b [Surface],
        in_flight: &'b Option<List<Sub>>,
    ) -> Holders<'b, 'a>
        ensures { result ≡ holding submissions.now surfaces.now in_flight.now }
    {
        Holders {
            submissions,
            surfaces,
            in_flight,
        }
    }

    /// Whether a submission holds the resources that it lists.
    fn holds(&self, submission: &Submission<'_>) -> bool
        ensures { result ≡ holds self.now submission.now }
    {
        (submission.is_current() && exists(self.surfaces, &submission.id()))
            || is_in_flight(self.in_flight, submission.sub())
    }

    /// Whether a submission of a client holds a resource.
    fn holds_of(&self, submission: &Submission<'_>, c: u32, id: u32) -> bool
        ensures { result
            ≡ ((submission.now.submitted.sub.client == c) && holds self.now submission.now
            && list_any (lists id) submission.now.submitted.frame.resources) }
    {
        submission.sub().client == c
            && self.holds(submission)
            && is_listed(id, submission.frame().resources.as_slice())
    }

    /// Whether any submission holds a resource of a client.
    #[tactic(auto, unfolding(vz_rules::specs::Returns::is_held))]
    fn is_held(&self, c: u32, id: u32) -> bool
        ensures { result ≡ is_held self.now c id }
    {
        self.submissions
            .iter()
            .any(|submission| self.holds_of(submission, c, id))
    }

    /// The return of a resource now, if it is returned: references of it are outstanding, and
    /// nothing holds it.
    fn return_of(&self, c: u32, resource: &Resource<'_>) -> Option<Returned>
        ensures { result ≡ return_of self.now c resource.now }
    {
        if resource.is_out() && !self.is_held(c, resource.id) {
            Some(Returned {
                client: c,
                id: resource.id,
                count: resource.lent - resource.queued,
            })
        } else {
            None
        }
    }
}

impl<'a> Resource<'a> {
    /// If the resource is returned now, appends its return to the queue and to the report.
    /// Condition: if references of it are outstanding, both have a free place.
    fn give_back(
        &mut self,
        holders: &Holders<'_, '_>,
        c: u32,
        queue: &mut Room<Returned>,
        told: &mut Room<Returned>,
    )
        requires queue { is_out self.old ≡ true → 0 < queue.old.spare }
        requires told { is_out self.old ≡ true → 0 < told.old.spare }
        ensures resource { self.new ≡ queue_resource holders.now c self.old }
        ensures queued { IsPutInto queue.old queue.new (option_to_list (return_of holders.now c self.old)) }
        ensures told { IsPutInto told.old told.new (option_to_list (return_of holders.now c self.old)) }
    {
        match holders.return_of(c, self) {
            None => {}
            Some(returned) => {
                queue.put(returned);
                told.put(returned);
                self.queued = self.lent;
            }
        }
    }
}

/// Returns the resources that are not used any more, and reports them. Condition: both lists have
/// room for a return of each resource of which references are outstanding.
fn give_back_all(
    resources: &mut [Resource<'_>],
    holders: &Holders<'_, '_>,
    c: u32,
    queue: &mut Room<Returned>,
    told: &mut Room<Returned>,
)
    requires queue { outs resources.old ≤ queue.old.spare }
    requires told { outs resources.old ≤ told.old.spare }
    ensures resources { resources.new ≡ map (queue_resource holders.now c) resources.old }
    ensures queued { IsPutInto queue.old queue.new (filter_map (return_of holders.now c) resources.old) }
    ensures told { IsPutInto told.old told.new (filter_map (return_of holders.now c) resources.old) }
{
    for k in 0..resources.len() {
        resources[k].give_back(holders, c, queue, told);
    }
}

impl<'a> Client<'a> {
    /// Appends the client's returns to its queue, and reports them. Condition: the report has
    /// room for a return of each resource of which references are outstanding.
    fn give_back(&mut self, holders: &Holders<'_, '_>, told: &mut Room<Returned>)
        requires { outs self.old.resources ≤ told.old.spare }
        ensures client { self.new ≡ queue_returns holders.now self.old }
        ensures told { IsPutInto told.old told.new (returns_of holders.now self.old) }
    {
        let number = self.number;
        give_back_all(&mut self.resources, holders, number, &mut self.queue, told);
    }

    /// How many of its resources have outstanding references.
    #[tactic(auto, unfolding(crate::specs::Outs::outs))]
    fn outs(&self) -> usize
        ensures { result ≡ outs self.now.resources }
    {
        self.resources
            .iter()
            .filter(|resource| resource.is_out())
            .count()
    }
}

impl<'a> Resource<'a> {
    /// Whether references of it are outstanding: more were lent than returned.
    fn is_out(&self) -> bool
        ensures { result ≡ is_out self.now }
    {
        self.queued < self.lent
    }
}

/// Appends the returns of all clients to their queues, and reports them by client and rising id.
/// Condition: there is room for them.
pub fn give_back_clients(
    clients: &mut [Client<'_>],
    holders: &Holders<'_, '_>,
    told: &mut Room<Returned>,
)
    requires { all_outs clients.old ≤ told.old.spare }
    ensures clients { clients.new ≡ map (queue_returns holders.now) clients.old }
    ensures told { IsPutInto told.old told.new (flat_map (returns_of holders.now) clients.old) }
{
    for k in 0..clients.len() {
        clients[k].give_back(holders, told);
    }
}

/// How many resources of all clients have outstanding references. If the number does not fit a
/// `usize`, that counts as a failed allocation.
pub fn outs_of(clients: &[Client<'_>]) -> Result<usize, AllocError>
    ensures { IfOk result (λ n. n ≡ all_outs clients.now) }
{
    let mut total: usize = 0;
    for client in clients {
        match total.checked_add(client.outs()) {
            Some(sum) => total = sum,
            None => return Err(AllocError),
        }
    }
    Ok(total)
}

impl<'a> Submission<'a> {
    /// The feedback that the submission gets now, if it gets some.
    fn feedback(&self, in_flight: &Option<List<Sub>>, presented: &[Sub]) -> Option<Fed>
        ensures { result ≡ feedback_by in_flight.now presented.now self.now }
    {
        if self.fed {
            return None;
        }
        if has_sub(presented, self.sub()) {
            return Some(Fed {
                sub: self.sub(),
                presented: true,
            });
        }
        if !self.is_current() && !is_in_flight(in_flight, self.sub()) {
            return Some(Fed {
                sub: self.sub(),
                presented: false,
            });
        }
        None
    }

    /// If the submission gets feedback now, notes that and reports it. Condition: if it has none
    /// yet there is a free place.
    fn feed(&mut self, in_flight: &Option<List<Sub>>, presented: &[Sub], told: &mut Room<Fed>)
        requires { self.old.fed ≡ false → 0 < told.old.spare }
        ensures submission { self.new ≡ fed_by in_flight.now presented.now self.old }
        ensures told { IsPutInto told.old told.new (option_to_list (feedback_by in_flight.now presented.now self.old)) }
    {
        match self.feedback(in_flight, presented) {
            None => {}
            Some(fed) => {
                told.put(fed);
                self.fed = true;
            }
        }
    }
}

/// Gives feedback to each submission for which it is due, and reports it in the order of
/// acceptance. Condition: there is room for all that have none yet.
pub fn feed_all(
    submissions: &mut [Submission<'_>],
    in_flight: &Option<List<Sub>>,
    presented: &[Sub],
    told: &mut Room<Fed>,
)
    requires { unfed submissions.old ≤ told.old.spare }
    ensures submissions { submissions.new
        ≡ map (fed_by in_flight.now presented.now) submissions.old }
    ensures told { IsPutInto told.old told.new (filter_map (feedback_by in_flight.now presented.now) submissions.old) }
{
    for k in 0..submissions.len() {
        submissions[k].feed(in_flight, presented, told);
    }
}

/// How many submissions have no feedback yet.
#[tactic(auto, unfolding(crate::specs::Outs::unfed))]
pub fn unfed_of(submissions: &[Submission<'_>]) -> usize
    ensures { result ≡ unfed submissions.now }
{
    submissions
        .iter()
        .filter(|submission| !submission.fed)
        .count()
}
