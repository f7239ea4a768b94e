/// A right tree that is still to come: how many pairs the trail had at its split, and the bit that
/// was split.
#[derive(Clone, Copy, Debug, PartialEq, Eq)]
pub struct Pending {
    pub length: u64,
    pub term: u32,
    pub bit: u32,
}
