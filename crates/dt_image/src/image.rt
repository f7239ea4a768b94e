use dt_bits::{Seq, TableMemory};

/// One access of an image: the position of its context, from 0, and a value for each input of the
/// model, in the model's order.
#[derive(Debug, Drop)]
pub struct ImageAccess {
    pub context: u32,
    pub inputs: Seq<u128>,
}

/// What a processor is given: table memory, for each context a value for each register of the
/// model, in the model's order, and the accesses.
#[derive(Debug, Drop)]
pub struct Image {
    pub memory: TableMemory,
    pub contexts: Seq<Seq<u128>>,
    pub accesses: Seq<ImageAccess>,
}
