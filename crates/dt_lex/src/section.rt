ghost use Rattle.std.specs.Prelude.{◌≡◌};
ghost use Rattle.dt_lex.specs.Sections.{may_repeat, all_optional, may_follow, place_of, one, any};

/// A section of a text: which lines stand in it.
#[derive(Clone, Copy, Debug, PartialEq, Eq)]
pub struct Section {
    /// It may have no line.
    pub optional: bool,
    /// It may have several lines.
    pub several: bool,
}

/// A section of exactly one line.
pub const ONE: Section = Section {
    optional: false,
    several: false,
};

/// A section of any number of lines.
pub const ANY: Section = Section {
    optional: true,
    several: true,
};

/// Where a line stands. Sections are named by their positions in the text's order, from 0.
#[derive(Clone, Copy, Debug, PartialEq, Eq)]
pub enum Standing {
    /// In this section.
    In(usize),
    /// In this section, and only behind another line of it.
    Behind(usize),
}

fn may_repeat(sections: &[Section], at: usize) -> bool
    ensures { result ≡ may_repeat sections.now at }
{
    match sections.get(at) {
        None => false,
        Some(section) => section.several,
    }
}

fn all_optional(sections: &[Section]) -> bool
    ensures { result ≡ all_optional sections.now }
{
    sections.iter().all(|section| section.optional)
}

/// Whether a line may stand at this place of a text, which counts the sections up to that of the
/// line before; it is 0 where no line stands before.
pub fn may_follow(sections: &[Section], place: usize, standing: Standing) -> bool
    ensures { result ≡ may_follow sections.now place standing }
{
    match standing {
        Standing::In(at) => {
            if at < place {
                at + 1 == place && may_repeat(sections, at)
            } else {
                at < sections.len() && all_optional(&sections[place..at])
            }
        }
        Standing::Behind(at) => at < place && at + 1 == place,
    }
}
