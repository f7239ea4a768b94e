use dt_lex::Name;
use indexmap::IndexMap;
use std::alloc::{AllocError, Global};

/// Where names stand in a list: of names that are the same, the first counts.
#[derive(Drop)]
pub struct NameTable {
    places: IndexMap<Name, u32>,
}

impl NameTable {
    ghost use Rattle.std.specs.Prelude.{◌≡◌, ◌++◌, ◌∷◌, [], List, OnOk, length};
    ghost use Rattle.dt_lex.specs.declared.name.Name.{Name};
    ghost use Rattle.dt_model.specs.NameTable.{found_in, Finds};

    /// The table of no names.
    pub fn new(alloc: Global) -> NameTable
        ensures { Finds result [] }
    {
        NameTable {
            places: IndexMap::new(alloc),
        }
    }

    /// The position of the first name that is this one.
    pub fn position(&self, name: &Name) -> Option<u32>
        ensures { result ≡ found_in self.now name.now }
    {
        self.places.get(name).copied()
    }

    /// Adds the name that stands behind `at` others, all of which the table has. After an error
    /// nothing is said of the table.
    pub fn add(&mut self, name: Name, at: u32) -> Result<(), AllocError>
        ensures { OnOk result ((names : List Name) → Finds self.old names → length names ≡ at
            → Finds self.new (names ++ name ∷ [])) }
    {
        if self.position(&name).is_none() {
            self.places.insert(name, at)?;
        }
        Ok(())
    }
}
