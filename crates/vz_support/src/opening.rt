//! What is kept for clients before the first step.
ghost use Rattle.std.specs.Prelude.{◌≡◌, ◌≤◌, length, map, IfOk, IfErr};
ghost use Rattle.vz_frame.specs.declared.message.ClientFile.{ClientFile as File};
ghost use Rattle.vz_rules.specs.Plan.{Plan};
ghost use Rattle.vz_rules.specs.World.{opening};
ghost use Rattle.vz_support.specs.Supporting.{IsSupport};

use crate::Clients;
use crate::support::Support;
use std::alloc::Global;
use vz_base::Memory;
use vz_base::limits::MOST_FILES;
use vz_frame::ClientFile;
use vz_ids::FrameSinkId;
use vz_sinks::Sinks;

/// The sink of each file, in the order of the files.
fn sinks_of(alloc: Global, files: &[ClientFile]) -> Result<Vec<FrameSinkId>, Memory>
    ensures { IfOk result (λ s. s.items ≡ map (λ (f : File). f.sink) files.now) }
{
    let mut sinks = Vec::with_capacity(alloc, files.len())?;
    for file in files {
        sinks.push_reserved(file.sink);
    }
    Ok(sinks)
}

impl Support {
    /// Creates what is kept for the clients of these files, none of whose messages was taken. If
    /// an allocation fails, the error gives the files back. Condition: there are 1 to
    /// `MOST_FILES` files.
    pub fn open(alloc: Global, files: Vec<ClientFile>) -> Result<Support, Vec<ClientFile>>
        requires some { 1 ≤ length files.items }
        requires few { length files.items ≤ MOST_FILES }
        ensures opens { (p : Plan) → p.files ≡ files.items
            → IfOk result (λ s. IsSupport p (opening p) s) }
        ensures back { IfErr result (λ f. f.items ≡ files.items) }
    {
        let Ok(list) = sinks_of(alloc, &files) else {
            return Err(files);
        };
        let Ok(sinks) = Sinks::new(&list, alloc) else {
            return Err(files);
        };
        let clients = Clients::open(alloc, files)?;
        Ok(Support {
            clients,
            sinks,
            tick: 0,
            root: None,
            over: false,
        })
    }
}
