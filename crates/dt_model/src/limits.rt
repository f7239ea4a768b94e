// How much a model holds at most.

/// The most registers.
pub const MOST_REGS: u32 = 32;

/// The most inputs.
pub const MOST_INPUTS: u32 = 16;

/// The most variables.
pub const MOST_VARS: u32 = 512;

/// The most context rules, and the most access rules.
pub const MOST_RULES: usize = 32;

/// The most nodes.
pub const MOST_NODES: usize = 1024;

/// The most nodes that are reads.
pub const MOST_READS: u32 = 64;

/// The most nodes that are results.
pub const MOST_DONES: u32 = 16;

/// The most operators of one expression; names and constants are none.
pub const MOST_OPERATORS: u32 = 64;

/// The most operators of all rules and nodes.
pub const MOST_MODEL_OPERATORS: u32 = 8192;

/// The most operators on one way from an expression's root.
pub const MOST_DEPTH: u32 = 32;

/// The greatest code of a fault.
pub const GREATEST_CODE: u32 = 65535;
