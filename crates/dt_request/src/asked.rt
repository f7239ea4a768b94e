use dt_lex::Name;

/// A number of an access.
#[derive(Clone, Copy)]
pub enum AskedQuantity {
    /// `reg NAME`
    Reg(Name),
    /// `in NAME`
    Input(Name),
    /// `word NODE`
    Word(Name),
    /// `cell NODE`
    Cell(Name),
    /// `pa`
    Pa,
}

/// What an access must come to.
#[derive(Clone, Copy)]
pub enum AskedDemand {
    /// `via NODE`
    Via(Name),
    /// `avoid NODE`
    Avoid(Name),
    /// `take NODE then` or `take NODE else`
    Take {
        node: Name,
        by_then: bool,
    },
    /// `ends done`
    EndDone,
    /// `ends fault CODE`
    EndFault(u128),
    /// `page K`
    Page(u128),
    /// `bits Q MASK VALUE`
    Bits {
        of: AskedQuantity,
        mask: u128,
        value: u128,
    },
    /// `range Q LO HI`
    Span {
        of: AskedQuantity,
        lo: u128,
        hi: u128,
    },
}

/// `A NODE`: a read node in the walk of an access.
#[derive(Clone, Copy)]
pub struct AskedSide {
    pub access: Name,
    pub node: Name,
}

/// How the walks of two accesses relate.
#[derive(Clone, Copy)]
pub enum AskedLink {
    /// `share table A NODE B NODE`
    ShareTable(AskedSide, AskedSide),
    /// `share cell A NODE B NODE`
    ShareCell(AskedSide, AskedSide),
    /// `share page A B`
    SharePage(Name, Name),
    /// `apart table A NODE B NODE`
    ApartTable(AskedSide, AskedSide),
    /// `apart page A B`
    ApartPage(Name, Name),
}

/// A line of a list.
#[derive(Clone, Copy)]
pub enum Line {
    /// `requests 1`, or `requests 2`, where kept ranges may stand
    Header { keeps: bool },
    /// `tables LO HI`
    Tables(u128, u128),
    /// `keep LO HI`
    Keep(u128, u128),
    /// `context NAME`
    Context(Name),
    /// `access NAME CONTEXT`
    Access(Name, Name),
    /// A demand on the access before.
    Demand(AskedDemand),
    /// A link.
    Link(AskedLink),
    /// `end`
    End,
}
