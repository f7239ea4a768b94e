ghost use Rattle.std.specs.Prelude.{◌≡◌, slice_index};

use dt_model::Place;

/// The numbers of the lines that declare each of a model's parts.
#[derive(Drop)]
pub struct Origins {
    pub regs: Vec<u32>,
    pub inputs: Vec<u32>,
    pub vars: Vec<u32>,
    pub legal_context: Vec<u32>,
    pub legal_access: Vec<u32>,
    pub nodes: Vec<u32>,
}

fn number_at(lines: &Vec<u32>, i: u32) -> u32
    ensures { result ≡ slice_index lines.now.items i }
{
    match lines.get(i as usize) {
        Some(line) => *line,
        None => 0,
    }
}

impl Origins {
    ghost use Rattle.std.specs.Prelude.{◌≡◌};
    ghost use Rattle.dt_modeltext.specs.Entry.{origin_of};
    ghost use Rattle.dt_modeltext.specs.Draft.{origins_of};

    /// The number of the line of a place; the header is line 1.
    pub fn line_of(&self, place: Place) -> u32
        ensures { result ≡ origin_of (origins_of self.now) place }
    {
        match place {
            Place::Header => 1,
            Place::Reg(i) => number_at(&self.regs, i),
            Place::Input(i) => number_at(&self.inputs, i),
            Place::Var(i) => number_at(&self.vars, i),
            Place::LegalContext(i) => number_at(&self.legal_context, i),
            Place::LegalAccess(i) => number_at(&self.legal_access, i),
            Place::Node(i) => number_at(&self.nodes, i),
        }
    }
}
