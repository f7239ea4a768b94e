use crate::declarations::Declarations;
use crate::line::{Line, SECTIONS};
use crate::origins::Origins;
use crate::symbols::Symbols;
use dt_bits::Seq;
use dt_lex::{Standing, may_follow};
use dt_model::{Expr, Model, NameTable, Node};
use std::alloc::{AllocError, Global};

/// What the lines so far declare and where, and the place of the text behind them: how many of its
/// sections there are up to that of the last line.
#[derive(Drop)]
pub struct Draft {
    pub place: usize,
    pub word: u32,
    pub address: u32,
    pub regs: Declarations,
    pub inputs: Declarations,
    pub vars: Declarations,
    pub legal_context: Vec<Expr>,
    pub context_lines: Vec<u32>,
    pub legal_access: Vec<Expr>,
    pub access_lines: Vec<u32>,
    pub nodes: Vec<Node>,
    pub node_lines: Vec<u32>,
}

impl Draft {
    ghost use Rattle.std.specs.Prelude.{◌≡◌, ◌==◌, ◌+◌, [], length, OnOk};
    ghost use Rattle.dt_model.specs.ModelData.{data_of};
    ghost use Rattle.dt_model.specs.NameTable.{found_in};
    ghost use Rattle.dt_lex.specs.Sections.{may_follow};
    ghost use Rattle.dt_modeltext.specs.Entry.{sections, standing, declared, declared_positions};
    ghost use Rattle.dt_modeltext.specs.Draft.{positions_of, line_data, origins_of, declared_by, with_line, IsIndexed, IsDraft};

    /// What no line declares.
    #[tactic(auto, unfolding(crate::specs::Entry::declared))]
    pub fn new(alloc: Global) -> Draft
        ensures value { declared_by result ≡ declared [] }
        ensures valid { IsDraft 1 result }
    {
        Draft {
            place: 0,
            word: 0,
            address: 0,
            regs: Declarations::new(alloc),
            inputs: Declarations::new(alloc),
            vars: Declarations::new(alloc),
            legal_context: Vec::new(alloc),
            context_lines: Vec::new(alloc),
            legal_access: Vec::new(alloc),
            access_lines: Vec::new(alloc),
            nodes: Vec::new(alloc),
            node_lines: Vec::new(alloc),
        }
    }

    /// What the next line may name, where `nodes` has the positions of all nodes.
    #[tactic(auto, using(crate::proofs::SymbolTables::tables_of_draft))]
    pub fn symbols<'a>(&'a self, nodes: &'a NameTable) -> Symbols<'a>
        requires regs { IsIndexed self.now.regs }
        requires inputs { IsIndexed self.now.inputs }
        requires vars { IsIndexed self.now.vars }
        ensures { positions_of result
            ≡ declared_positions (found_in nodes.now) (declared_by self.now).model }
    {
        Symbols {
            regs: &self.regs.table,
            inputs: &self.inputs.table,
            vars: &self.vars.table,
            nodes,
        }
    }

    /// Whether this line may stand behind those of the draft.
    pub fn allows(&self, line: &Line) -> bool
        ensures { result ≡ may_follow sections self.now.place (standing (line_data line.now)) }
    {
        may_follow(&SECTIONS, self.place, Standing::In(line.section()))
    }

    /// Whether the lines have come to an end.
    pub fn is_ended(&self) -> bool
        ensures { result ≡ (self.now.place == length sections) }
    {
        self.place == SECTIONS.len()
    }

    /// Adds the line of this number. After an error nothing is said of the draft.
    #[tactic(auto, using(std::proofs::lemmas::List::map_push))]
    pub fn add(&mut self, line: Line, number: u32) -> Result<(), AllocError>
        requires { IsDraft number self.old }
        ensures value { OnOk result (declared_by self.new
            ≡ with_line (declared_by self.old) number (line_data line)) }
        ensures valid { OnOk result (IsDraft (number + 1) self.new) }
    {
        self.place = line.section() + 1;
        match line {
            Line::Header | Line::End => {}
            Line::Word(bits) => {
                self.word = bits;
            }
            Line::Address(bits) => {
                self.address = bits;
            }
            Line::Reg(named) => self.regs.add(named, number)?,
            Line::Input(named) => self.inputs.add(named, number)?,
            Line::Var(named) => self.vars.add(named, number)?,
            Line::ContextRule(expr) => {
                self.legal_context.push(expr)?;
                self.context_lines.push(number)?;
            }
            Line::AccessRule(expr) => {
                self.legal_access.push(expr)?;
                self.access_lines.push(number)?;
            }
            Line::Node(node) => {
                self.nodes.push(node)?;
                self.node_lines.push(number)?;
            }
        }
        Ok(())
    }

    /// The model that the lines declare, and where.
    pub fn into_parts(self) -> (Model, Origins)
        ensures model { data_of result.0 ≡ (declared_by self).model }
        ensures origins { origins_of result.1 ≡ (declared_by self).origins }
    {
        let (regs, reg_lines) = self.regs.into_lists();
        let (inputs, input_lines) = self.inputs.into_lists();
        let (vars, var_lines) = self.vars.into_lists();
        let model = Model {
            word: self.word,
            address: self.address,
            regs: Seq::from_vec(regs),
            inputs: Seq::from_vec(inputs),
            vars: Seq::from_vec(vars),
            legal_context: Seq::from_vec(self.legal_context),
            legal_access: Seq::from_vec(self.legal_access),
            nodes: Seq::from_vec(self.nodes),
        };
        let origins = Origins {
            regs: reg_lines,
            inputs: input_lines,
            vars: var_lines,
            legal_context: self.context_lines,
            legal_access: self.access_lines,
            nodes: self.node_lines,
        };
        (model, origins)
    }
}
