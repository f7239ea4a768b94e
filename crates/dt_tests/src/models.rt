ghost use Rattle.std.specs.Prelude.{◌≡◌, [], ◌∷◌, IfOk};
ghost use Rattle.dt_lex.specs.Names.{padded_name};
ghost use Rattle.dt_model.specs.Accepted.{accepted_data};
ghost use Rattle.dt_model.specs.ModelData.{ModelData, fault};

use dt_bits::{NoMemory, Seq};
use dt_lex::Name;
use dt_model::{Accepted, Act, Model, Node};
use std::alloc::Global;
use std::test::Fail;

/// A model of one node, the fault 7.
fn one_fault(alloc: Global) -> Result<Accepted, NoMemory> {
    let node = Node {
        name: Name::spelled(b"f"),
        act: Act::Fault { code: 7 },
    };
    let nodes = vec![in alloc; node]?;
    Ok(Accepted::certified(Model {
        word: 8,
        address: 8,
        regs: Seq::new(alloc),
        inputs: Seq::new(alloc),
        vars: Seq::new(alloc),
        legal_context: Seq::new(alloc),
        legal_access: Seq::new(alloc),
        nodes: Seq::from_vec(nodes),
    }))
}

#[test]
fn a_fixed_model_needs_no_check(rt: HostRuntime) -> Result<(), Fail> {
    let accepted = one_fault(rt.alloc())?;
    assert_eq!(rt; accepted.model().nodes.len(), 1);
    Ok(())
}
