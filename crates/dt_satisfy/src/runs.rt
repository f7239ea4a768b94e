ghost use Rattle.std.specs.Prelude.{◌≡◌, ◌<◌, ◌++◌, List, ℕ, length, map, IfOk, OnOk};
ghost use Rattle.dt_model.specs.Accepted.{accepted_data};
ghost use Rattle.dt_walk.specs.Walkers.{run_data};
ghost use Rattle.dt_image.specs.Images.{IsImage};
ghost use Rattle.dt_satisfy.specs.Claims.{runs_of, demand_claims};
ghost use Rattle.dt_satisfy.specs.Satisfies.{Matches};

use crate::demands::{MadeAccess, push_demands};
use dt_bits::NoMemory;
use dt_image::Image;
use dt_model::Accepted;
use dt_request::Requests;
use dt_walk::{Run, Walker};
use std::alloc::Global;

// A copy of a run.
fn copy(alloc: Global, run: &Run) -> Result<Run, NoMemory>
    ensures { IfOk result (λ r. run_data r ≡ run_data run.now) }
{
    Ok(Run {
        path: Vec::from_slice(alloc, run.path.as_slice())?,
        sides: Vec::from_slice(alloc, run.sides.as_slice())?,
        reads: Vec::from_slice(alloc, run.reads.as_slice())?,
        end: run.end,
    })
}

/// The runs of all accesses of the image.
pub fn all_runs(alloc: Global, model: &Accepted, image: &Image) -> Result<Vec<Run>, NoMemory>
    requires { IsImage (accepted_data model.now) image.now }
    ensures { IfOk result (λ runs. map run_data runs.items ≡ runs_of (accepted_data model.now) image.now) }
{
    let contexts = image.contexts.as_slice();
    let accesses = image.accesses.as_slice();
    let mut walker = Walker::new(alloc, model)?;
    let mut runs = Vec::new(alloc);
    for access in accesses {
        let regs = contexts[access.context as usize].as_slice();
        let run = walker.walk(regs, access.inputs.as_slice(), &image.memory);
        runs.push(copy(alloc, run)?)?;
    }
    Ok(runs)
}

/// Appends whether each access meets each of its demands. The runs are those of the image.
pub fn push_demand_claims(
    _model: &Accepted,
    requests: &Requests,
    image: &Image,
    runs: &[Run],
    claims: &mut Vec<bool>,
) -> Result<(), NoMemory>
    requires image { IsImage (accepted_data _model.now) image.now }
    requires matches { Matches requests.now image.now }
    requires runs { map run_data runs.now ≡ runs_of (accepted_data _model.now) image.now }
    ensures { OnOk result (claims.new.items ≡ claims.old.items
        ++ demand_claims (accepted_data _model.now) requests.now image.now) }
{
    let contexts = image.contexts.as_slice();
    let accesses = image.accesses.as_slice();
    let wishes = requests.accesses.as_slice();
    for (i, access) in accesses.iter().enumerate() {
        let made = MadeAccess {
            regs: contexts[access.context as usize].as_slice(),
            inputs: access.inputs.as_slice(),
            run: &runs[i],
        };
        push_demands(&made, wishes[i].demands.as_slice(), claims)?;
    }
    Ok(())
}
