use crate::Expr;
use dt_bits::Seq;
use dt_lex::Name;

/// What a node does. Variables and nodes are named by their positions, which count from 0.
#[derive(Debug, Drop)]
pub enum Act {
    /// Assigns a value to a variable and goes on at `next`.
    Let {
        var: u32,
        value: Expr,
        next: u32,
    },
    /// Reads the word at the address `cell`. Where the address is a multiple of the word's bytes
    /// and lies in table memory, the variable has the word, and the walk goes on at `then_to`;
    /// else at `other`. The table of the cell is a block of two to `granule` bytes.
    Read {
        var: u32,
        cell: Expr,
        granule: u32,
        then_to: u32,
        other: u32,
    },
    /// Goes on at `then_to` where the test is 1, else at `other`.
    If {
        test: Expr,
        then_to: u32,
        other: u32,
    },
    /// Ends in a fault with a code of 16 bits.
    Fault {
        code: u32,
    },
    /// Ends at a physical address, in a page of two to `page` bytes.
    Done {
        pa: Expr,
        page: u32,
    },
}

/// A node of the graph.
#[derive(Debug, Drop)]
pub struct Node {
    pub name: Name,
    pub act: Act,
}

/// A register, input or variable, with its width in bits.
#[derive(Clone, Copy, Debug, PartialEq, Eq)]
pub struct Named {
    pub name: Name,
    pub width: u32,
}

/// A model of a translation unit: how it goes from registers and inputs over reads of tables to a
/// physical address or a fault. The walk starts at node 0.
#[derive(Debug, Drop)]
pub struct Model {
    /// The bits of a word of table memory: 8, 16, 32 or 64.
    pub word: u32,
    /// The bits of a physical address: 8 to 64.
    pub address: u32,
    /// Set once for each context.
    pub regs: Seq<Named>,
    /// Set for each access.
    pub inputs: Seq<Named>,
    /// Assigned by nodes.
    pub vars: Seq<Named>,
    /// Tests of one bit over registers, which hold of each context.
    pub legal_context: Seq<Expr>,
    /// Tests of one bit over registers and inputs, which hold of each access.
    pub legal_access: Seq<Expr>,
    pub nodes: Seq<Node>,
}
