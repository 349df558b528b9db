//! The parts of the machine before the first step.
ghost use Rattle.std.specs.Prelude.{◌≡◌, None, length, IfOk, IfErr};
ghost use Rattle.vz_rules.specs.Plan.{Plan as Planned, IsPlan};
ghost use Rattle.vz_rules.specs.World.{opening};
ghost use Rattle.vz_returns.specs.Lent.{NoneReleased};
ghost use Rattle.vz_surface_manager.specs.Settles.{AreSettling};
ghost use Rattle.vz_support.specs.Supporting.{IsSupport};
ghost use Rattle.vz_manager.specs.Serving.{Serves};
ghost use Rattle.vz_manager.specs.Unfilled.{IsUnfilled};

use crate::outcome::Following;
use crate::parts::Parts;
use std::alloc::Global;
use vz_base::Memory;
use vz_frame::{ClientFile, List, Room};
use vz_geom::Size;
use vz_ids::FrameSinkId;
use vz_rules::{EffectsRoom, Plan};
use vz_support::Support;
use vz_surface_manager::{LiveSurfaces, SurfaceManager, Waiting};

/// How many clients a plan has.
fn count(plan: &Plan) -> u32
    ensures value { result ≡ length plan.now.files }
    ensures kept { IsPlan plan.now }
{
    plan.files().len() as u32
}

/// The surfaces and waiting submissions of clients 1 to `clients`; there are none yet. The only
/// error is `Memory`, if an allocation fails.
fn no_surfaces(alloc: Global, clients: u32) -> Result<SurfaceManager, Memory>
    ensures stands { IfOk result (λ v. (p : Planned) → IsPlan p → length p.files ≡ clients
        → AreSettling (opening p) None v) }
    ensures released { IfOk result (λ v. NoneReleased v.live.lent) }
{
    let live = LiveSurfaces::open(alloc, clients)?;
    let waiting = Waiting::new(alloc);
    Ok(SurfaceManager { live, waiting })
}

/// What is kept for one client without messages. The only error is `Memory`, if an allocation
/// fails.
fn no_messages(alloc: Global) -> Result<Support, Memory> {
    let mut files = Vec::with_capacity(alloc, 1)?;
    files.push_reserved(ClientFile {
        format: 1,
        sink: FrameSinkId {
            client_id: 1,
            sink_id: 1,
        },
        messages: List::new(alloc),
    });
    match Support::open(alloc, files) {
        Ok(support) => Ok(support),
        Err(_) => Err(Memory),
    }
}

/// A plan again from its files and its size.
fn plan_of(files: Vec<ClientFile>, size: Size) -> Plan
    requires { IsPlan (record { files = files.items; size = size }) }
    ensures { result ≡ record { files = files.items; size = size } }
{
    match Plan::new(files, size) {
        Ok(plan) => plan,
        Err(_) => unreachable!(),
    }
}

/// What is kept for the clients of a plan before any message is taken. If an allocation fails,
/// the error gives the plan back.
fn all_messages(alloc: Global, plan: Plan) -> Result<Support, Plan>
    requires is { IsPlan plan }
    ensures ok { IfOk result (λ v. IsSupport plan (opening plan) v) }
    ensures back { IfErr result (λ p. p ≡ plan) }
{
    let size = plan.size();
    match Support::open(alloc, plan.into_files().into_vec()) {
        Ok(support) => Ok(support),
        Err(files) => Err(plan_of(files, size)),
    }
}

/// The parts of the machine of `clients` clients before its first step, but without these clients.
/// The only error is `Memory`, if an allocation fails.
fn no_clients(alloc: Global, size: Size, clients: u32) -> Result<Parts, Memory>
    ensures { IfOk result (λ v. IsUnfilled size clients v) }
{
    let support = no_messages(alloc)?;
    let settling = no_surfaces(alloc, clients)?;
    Ok(Parts {
        alloc,
        size,
        support,
        settling,
        following: Following::new(alloc),
        returned: Room::new(alloc),
        fed: Room::new(alloc),
        landed: EffectsRoom::new(alloc),
    })
}

/// The parts that `no_clients` makes, at their place in memory. The only error is `Memory`, if an
/// allocation fails.
fn no_clients_in_place(alloc: Global, size: Size, clients: u32) -> Result<Box<Parts>, Memory>
    ensures { IfOk result (λ b. IsUnfilled size clients b.value) }
{
    let parts = no_clients(alloc, size, clients)?;
    let place = Box::new(alloc, parts)?;
    Ok(place)
}

impl Parts {
    /// Replaces what is kept for the clients.
    fn keep_for(&mut self, support: Support)
        ensures { self.new ≡ record self.old { support = support } }
    {
        self.support = support;
    }

    /// The parts of a plan's machine before its first step. If an allocation fails, the error
    /// gives the plan back: the plan's files are taken only after the parts have their place.
    pub(crate) fn open(alloc: Global, plan: Plan) -> Result<Box<Parts>, Plan>
        ensures serves { IfOk result (λ b. Serves plan (opening plan) b.value) }
        ensures back { IfErr result (λ p. p ≡ plan) }
    {
        let size = plan.size();
        let clients = count(&plan);
        let Ok(mut parts) = no_clients_in_place(alloc, size, clients) else {
            return Err(plan);
        };
        match all_messages(alloc, plan) {
            Ok(support) => {
                parts.keep_for(support);
                Ok(parts)
            }
            Err(plan) => Err(plan),
        }
    }
}
