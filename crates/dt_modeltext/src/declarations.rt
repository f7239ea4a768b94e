use dt_model::{NameTable, Named};
use std::alloc::{AllocError, Global};

/// Registers, inputs or variables in their order, the lines that declare them, and where their
/// names stand.
#[derive(Drop)]
pub struct Declarations {
    pub items: Vec<Named>,
    pub lines: Vec<u32>,
    pub table: NameTable,
}

impl Declarations {
    ghost use Rattle.std.specs.Prelude.{◌≡◌, ◌++◌, ◌∷◌, [], ◌<◌, ◌^◌, OnOk, vec_len};
    ghost use Rattle.dt_modeltext.specs.Draft.{IsIndexed};

    pub fn new(alloc: Global) -> Declarations
        ensures items { result.items.items ≡ [] }
        ensures lines { result.lines.items ≡ [] }
        ensures indexed { IsIndexed result }
    {
        Declarations {
            items: Vec::new(alloc),
            lines: Vec::new(alloc),
            table: NameTable::new(alloc),
        }
    }

    /// Adds what a line declares.
    pub fn add(&mut self, named: Named, line: u32) -> Result<(), AllocError>
        requires { vec_len self.old.items < 2 ^ 32 }
        ensures items { OnOk result (self.new.items.items ≡ self.old.items.items ++ named ∷ []) }
        ensures lines { OnOk result (self.new.lines.items ≡ self.old.lines.items ++ line ∷ []) }
        ensures indexed { OnOk result (IsIndexed self.old → IsIndexed self.new) }
    {
        let at = self.items.len() as u32;
        self.items.push(named)?;
        self.lines.push(line)?;
        self.table.add(named.name, at)
    }

    /// The declarations, and their lines.
    pub fn into_lists(self) -> (Vec<Named>, Vec<u32>)
        ensures items { result.0.items ≡ self.items.items }
        ensures lines { result.1.items ≡ self.lines.items }
    {
        (self.items, self.lines)
    }
}
