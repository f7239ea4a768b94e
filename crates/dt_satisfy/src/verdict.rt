/// What the judge finds.
#[derive(Clone, Copy, Debug, PartialEq, Eq)]
pub enum Judged {
    /// All claims hold.
    Satisfies,
    /// The claim of this number, counted from 1, is the first that doesn't hold.
    Breaks(u32),
}
