use crate::positions::{position, product, total};
use dt_bits::NoMemory;
use dt_model::{Accepted, Act, Node};
use dt_request::Requests;

/// Where the choices of a list stand: how many registers a context has, where the first access
/// begins, how many inputs and how many choices an access has, and where the constants 0 and 1 of
/// one bit stand.
#[derive(Clone, Copy)]
pub struct Layout {
    pub regs: u32,
    pub first: u32,
    pub inputs: u32,
    pub step: u32,
    pub zero: u32,
    pub one: u32,
}

impl Layout {
    ghost use Rattle.std.specs.Prelude.{◌≡◌, ◌≤◌, ◌+◌, ◌*◌, ◌^◌, IfOk, OnErr, count_by};
    ghost use Rattle.dt_model.specs.Accepted.{accepted_data};
    ghost use Rattle.dt_model.specs.ModelData.{act_of};
    ghost use Rattle.dt_model.specs.Faults.{is_read};
    ghost use Rattle.dt_unroll.specs.Building.{IsLayout};

    /// The layout of a list of the model.
    ///
    /// # Errors
    ///
    /// `NoMemory` where a position doesn't fit.
    pub fn new(model: &Accepted, requests: &Requests) -> Result<Layout, NoMemory>
        ensures { IfOk result (λ l. IsLayout (accepted_data model.now) requests.now l) }
    {
        let m = model.model();
        let regs = position(m.regs.len())?;
        let first = product(position(requests.contexts.len())?, regs)?;
        let inputs = position(m.inputs.len())?;
        let reads = position(Layout::reads_among(m.nodes.as_slice()))?;
        let step = total(inputs, reads)?;
        let own = product(position(requests.accesses.len())?, step)?;
        let zero = total(first, own)?;
        let one = total(zero, 1)?;
        Ok(Layout {
            regs,
            first,
            inputs,
            step,
            zero,
            one,
        })
    }

    /// Where the registers of a context stand.
    pub fn regs_at(&self, context: u32) -> Result<u32, NoMemory>
        ensures value { IfOk result (λ t. t ≡ context * self.now.regs) }
        ensures too_large { OnErr result (2 ^ 32 ≤ context * self.now.regs) }
    {
        product(context, self.regs)
    }

    /// Where the inputs of an access stand.
    pub fn inputs_at(&self, access: u32) -> Result<u32, NoMemory>
        ensures value { IfOk result (λ t. t ≡ self.now.first + access * self.now.step) }
        ensures too_large { OnErr result (2 ^ 32 ≤ self.now.first + access * self.now.step) }
    {
        total(self.first, product(access, self.step)?)
    }

    // How many of the nodes are reads.
    #[tactic(auto, using(std::proofs::lemmas::List::Sums::count_by_more_yes, std::proofs::lemmas::List::Sums::count_by_more_no))]
    fn reads_among(nodes: &[Node]) -> usize
        ensures { result ≡ count_by (λ n. is_read (act_of n.act)) nodes.now }
    {
        let mut count = 0;
        for node in nodes {
            if let Act::Read { .. } = node.act {
                count += 1;
            }
        }
        count
    }
}
