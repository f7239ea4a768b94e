ghost use Rattle.std.specs.Prelude.{◌≡◌, ◌≤◌, ◌∷◌, ◌++◌, [], length, OnOk};
ghost use Rattle.dt_model.specs.NameTable.{Finds};
ghost use Rattle.dt_request.specs.Lists.{access_names};
ghost use Rattle.dt_request.specs.Draft.{with_demand};

use crate::entry::Entry;
use crate::list::{AccessWish, Demand, KeptRange, Link, Requests};
use dt_bits::{NoMemory, Seq};
use dt_lex::Name;
use dt_model::NameTable;
use std::alloc::Global;

/// What the lines so far have declared.
#[derive(Drop)]
pub struct Draft {
    /// How many sections of the text have come, up to that of the last line.
    pub place: usize,
    /// Whether kept ranges may stand in the text.
    pub keeps: bool,
    pub lo: u128,
    pub hi: u128,
    pub kept: Vec<KeptRange>,
    pub contexts: Vec<Name>,
    /// Where the contexts stand.
    pub context_table: NameTable,
    pub accesses: Vec<AccessWish>,
    /// Where the accesses stand.
    pub access_table: NameTable,
    pub links: Vec<Link>,
}

/// Adds a context, and where it stands.
fn add_context(contexts: &mut Vec<Name>, table: &mut NameTable, name: Name) -> Result<(), NoMemory>
    requires few { length contexts.old.items ≤ 16 }
    requires found { Finds table.old contexts.old.items }
    ensures names { OnOk result (contexts.new.items ≡ contexts.old.items ++ name ∷ []) }
    ensures found { OnOk result (Finds table.new contexts.new.items) }
{
    table.add(name, contexts.len() as u32)?;
    contexts.push(name)?;
    Ok(())
}

/// Adds an access without demands, and where it stands.
#[tactic(auto, using(std::proofs::lemmas::List::map_push))]
fn add_access(
    accesses: &mut Vec<AccessWish>,
    table: &mut NameTable,
    wish: AccessWish,
) -> Result<(), NoMemory>
    requires few { length accesses.old.items ≤ 64 }
    requires found { Finds table.old (access_names accesses.old.items) }
    ensures wishes { OnOk result (accesses.new.items ≡ accesses.old.items ++ wish ∷ []) }
    ensures found { OnOk result (Finds table.new (access_names accesses.new.items)) }
{
    table.add(wish.name, accesses.len() as u32)?;
    accesses.push(wish)?;
    Ok(())
}

/// Adds a demand to the last access, if there is one.
#[tactic(auto, using(crate::proofs::Demands::with_demand_set))]
fn add_demand(accesses: &mut Vec<AccessWish>, demand: Demand) -> Result<(), NoMemory>
    ensures { OnOk result (accesses.new.items ≡ with_demand accesses.old.items demand) }
{
    let count = accesses.len();
    if count > 0 {
        accesses[count - 1].demands.push(demand)?;
    }
    Ok(())
}

impl Draft {
    ghost use Rattle.std.specs.Prelude.{◌≡◌, ◌≤◌, length, OnOk};
    ghost use Rattle.dt_request.specs.Draft.{declared_by, nothing, added, IsIndexed};

    /// What no line declares. It takes no memory.
    pub fn new(alloc: Global) -> Draft
        ensures value { declared_by result ≡ nothing }
        ensures indexed { IsIndexed result }
    {
        Draft {
            place: 0,
            keeps: false,
            lo: 0,
            hi: 0,
            kept: Vec::new(alloc),
            contexts: Vec::new(alloc),
            context_table: NameTable::new(alloc),
            accesses: Vec::new(alloc),
            access_table: NameTable::new(alloc),
            links: Vec::new(alloc),
        }
    }

    /// The list that was drafted. It takes no memory.
    pub fn into_list(self) -> Requests
        ensures { result ≡ (declared_by self).list }
    {
        Requests {
            lo: self.lo,
            hi: self.hi,
            kept: Seq::from_vec(self.kept),
            contexts: Seq::from_vec(self.contexts),
            accesses: Seq::from_vec(self.accesses),
            links: Seq::from_vec(self.links),
        }
    }

    /// Adds what a line adds.
    #[tactic(auto, using(crate::proofs::Demands::names_with))]
    pub fn add(&mut self, alloc: Global, entry: Entry) -> Result<(), NoMemory>
        requires contexts { length self.old.contexts.items ≤ 16 }
        requires accesses { length self.old.accesses.items ≤ 64 }
        requires indexed { IsIndexed self.old }
        ensures value { OnOk result (declared_by self.new ≡ added (declared_by self.old) entry) }
        ensures indexed { OnOk result (IsIndexed self.new) }
    {
        match entry {
            Entry::Header(keeps) => {
                self.place = 1;
                self.keeps = keeps;
            }
            Entry::Tables(lo, hi) => {
                self.place = 2;
                self.lo = lo;
                self.hi = hi;
            }
            Entry::Keep(range) => {
                self.place = 3;
                self.kept.push(range)?;
            }
            Entry::Context(name) => {
                self.place = 4;
                add_context(&mut self.contexts, &mut self.context_table, name)?;
            }
            Entry::Access(name, context) => {
                self.place = 5;
                let demands = Seq::new(alloc);
                let wish = AccessWish {
                    name,
                    context,
                    demands,
                };
                add_access(&mut self.accesses, &mut self.access_table, wish)?;
            }
            Entry::Demand(demand) => {
                self.place = 5;
                add_demand(&mut self.accesses, demand)?;
            }
            Entry::Link(link) => {
                self.place = 6;
                self.links.push(link)?;
            }
            Entry::End => self.place = 7,
        }
        Ok(())
    }
}
