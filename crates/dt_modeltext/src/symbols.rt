use dt_model::NameTable;

/// What a line may name: what the lines before it declare, and the nodes of the whole text.
#[derive(Clone, Copy)]
pub struct Symbols<'a> {
    pub regs: &'a NameTable,
    pub inputs: &'a NameTable,
    pub vars: &'a NameTable,
    pub nodes: &'a NameTable,
}
