use std::alloc::AllocError;
use std::fmt;

/// Why a model is refused. At one place the refusal that stands first here is given.
#[derive(Clone, Copy, Debug, PartialEq, Eq)]
pub enum ModelRefusal {
    /// An earlier register, input or variable has this name; for a node, an earlier node.
    NameTwice,
    /// An expression names a position outside its list, or one that a rule may not use; or a
    /// `Let` or `Read` assigns a variable that isn't declared.
    UnknownName,
    /// Operands, a test, a target variable, a cell, a physical address or a rule have another
    /// width than is asked.
    WidthMismatch,
    /// A number of bits is out of its range, or a constant, a code, a granule or a page exponent.
    WidthRange,
    /// A target is this node or an earlier one.
    BackEdge,
    /// Some path leaves a variable unassigned that the node's expression uses.
    Unassigned,
    /// The node assigns a variable that some path has assigned.
    AssignedTwice,
    /// A target is no node; at the header: there are no nodes.
    NoNode,
    /// A limit is exceeded.
    TooMany,
    /// An expression has more than 32 operators on one way from its root.
    TooDeep,
}

impl ModelRefusal {
    ghost use Rattle.std.specs.Prelude.{◌≡◌};
    ghost use Rattle.dt_model.specs.Refusal.{refusal_word};

    /// The word of the refusal in a printed line.
    pub fn word(self) -> &'static str
        ensures { result.now ≡ refusal_word self }
    {
        match self {
            ModelRefusal::NameTwice => "name-twice",
            ModelRefusal::UnknownName => "unknown-name",
            ModelRefusal::WidthMismatch => "width-mismatch",
            ModelRefusal::WidthRange => "width-range",
            ModelRefusal::BackEdge => "back-edge",
            ModelRefusal::Unassigned => "unassigned",
            ModelRefusal::AssignedTwice => "assigned-twice",
            ModelRefusal::NoNode => "no-node",
            ModelRefusal::TooMany => "too-many",
            ModelRefusal::TooDeep => "too-deep",
        }
    }
}

impl fmt::Display for ModelRefusal {
    fn fmt<W: fmt::Write>(&self, f: &mut fmt::Formatter<W>) -> fmt::Result {
        f.write_str(self.word())
    }
}

/// Where a model is refused, in this order; positions count from 0.
#[derive(Clone, Copy, Debug, PartialEq, Eq)]
pub enum Place {
    Header,
    Reg(u32),
    Input(u32),
    Var(u32),
    LegalContext(u32),
    LegalAccess(u32),
    Node(u32),
}

/// Why a check gave no accepted model.
#[derive(Clone, Copy, Debug, PartialEq, Eq)]
pub enum ModelError {
    /// Memory ran out.
    Memory,
    /// The model is refused: the first place that is at fault, and the first refusal there.
    Refused { refusal: ModelRefusal, place: Place },
}

impl From<AllocError> for ModelError {
    ghost use Rattle.std.specs.Prelude.{◌≡◌};
    ghost use Rattle.dt_model.specs.declared.refusal.ModelError.TheVariants.{Memory};

    ghost from_gives = { λ _ r. r ≡ Memory };

    fn from(_: AllocError) -> ModelError {
        ModelError::Memory
    }
}

impl fmt::Display for ModelError {
    fn fmt<W: fmt::Write>(&self, f: &mut fmt::Formatter<W>) -> fmt::Result {
        match self {
            ModelError::Memory => f.write_str("memory ran out"),
            ModelError::Refused { refusal, .. } => write!(f, "refused: {refusal}"),
        }
    }
}
