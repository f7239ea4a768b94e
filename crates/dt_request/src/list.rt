use dt_bits::Seq;
use dt_lex::Name;

/// A number of an access that a demand is on. Registers, inputs and nodes are named by their
/// positions in the model.
#[derive(Clone, Copy, Debug, PartialEq, Eq)]
pub enum Quantity {
    /// A register of the access's context.
    Reg(u32),
    /// An input of the access.
    Input(u32),
    /// The word that this read node reads.
    Word(u32),
    /// The address that this read node reads at.
    Cell(u32),
    /// The physical address that the walk ends with.
    Pa,
}

/// What an access must come to. Nodes are named by their positions in the model.
#[derive(Clone, Copy, Debug, PartialEq, Eq)]
pub enum Demand {
    /// The walk visits this node.
    Via(u32),
    /// The walk doesn't visit this node.
    Avoid(u32),
    /// The walk leaves this node, an if or a read, by `then`, or by its other side.
    Take {
        node: u32,
        by_then: bool,
    },
    /// The walk ends with a result.
    EndDone,
    /// The walk ends with a fault of this code.
    EndFault(u32),
    /// The walk ends with a result in a page of two to this many bytes.
    Page(u32),
    /// The quantity has this value in the bits of the mask.
    Bits {
        of: Quantity,
        mask: u128,
        value: u128,
    },
    /// The quantity is from `lo` to `hi`, both among them.
    Span {
        of: Quantity,
        lo: u128,
        hi: u128,
    },
}

/// One access that is wished for: its name, the position of its context, and its demands in order.
#[derive(Debug, Drop)]
pub struct AccessWish {
    pub name: Name,
    pub context: u32,
    pub demands: Seq<Demand>,
}

/// A read node in the walk of an access, both named by their positions.
#[derive(Clone, Copy, Debug, PartialEq, Eq)]
pub struct Side {
    pub access: u32,
    pub node: u32,
}

/// How the walks of two accesses relate. The reads of a link must be made, and its pages
/// must exist. Accesses are named by their positions, and the two may be the same.
#[derive(Clone, Copy, Debug, PartialEq, Eq)]
pub enum Link {
    /// The two reads are in the same table.
    ShareTable(Side, Side),
    /// The two reads are at the same address.
    ShareCell(Side, Side),
    /// The two accesses end in the same page.
    SharePage(u32, u32),
    /// The tables of the two reads don't overlap.
    ApartTable(Side, Side),
    /// The pages that the two accesses end in don't overlap.
    ApartPage(u32, u32),
}

/// Physical addresses from `lo` up to `hi`, which is not among them, that no table and no page may
/// touch. A range whose ends are equal has none.
#[derive(Clone, Copy, Debug, PartialEq, Eq)]
pub struct KeptRange {
    pub lo: u128,
    pub hi: u128,
}

/// A request list. Tables lie from the byte `lo` up to the byte `hi`, which is not theirs.
#[derive(Debug, Drop)]
pub struct Requests {
    pub lo: u128,
    pub hi: u128,
    pub kept: Seq<KeptRange>,
    pub contexts: Seq<Name>,
    pub accesses: Seq<AccessWish>,
    pub links: Seq<Link>,
}
