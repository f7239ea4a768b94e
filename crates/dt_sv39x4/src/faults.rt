// The faults, by the kind of the access.
ghost use Rattle.std.specs.Prelude.{◌≡◌, map, IfOk};
ghost use Rattle.dt_model.specs.ModelData.{node_of};
ghost use Rattle.dt_sv39x4.specs.Shipped.{guest_faults as shipped_guest_faults, faults as shipped_faults};

use crate::positions::{ACCESS_FAULT, GUEST_FAULT, PAGE_FAULT};
use dt_bits::NoMemory;
use dt_model::Node;
use dt_stage::chained;
use dt_sv39::{KindCodes, KindNames, access_faults, by_kind, page_faults};
use std::alloc::Global;

fn guest_faults(alloc: Global) -> Result<Vec<Node>, NoMemory>
    ensures { IfOk result (λ v. map node_of v.items ≡ shipped_guest_faults) }
{
    let names = KindNames {
        first: b"guest_fault",
        fetch: b"gf20",
        second: b"guest_fault_data",
        load: b"gf21",
        store: b"gf23",
    };
    let codes = KindCodes {
        fetch: 20,
        load: 21,
        store: 23,
    };
    by_kind(alloc, names, GUEST_FAULT, codes)
}

/// Page faults, access faults and guest-page faults.
pub fn faults(alloc: Global) -> Result<Vec<Node>, NoMemory>
    ensures { IfOk result (λ v. map node_of v.items ≡ shipped_faults) }
{
    let others = chained(access_faults(alloc, ACCESS_FAULT)?, guest_faults(alloc)?)?;
    let all = chained(page_faults(alloc, PAGE_FAULT)?, others)?;
    Ok(all)
}
