//! The walks of page tables that the RISC-V Privileged Architecture 20211203 describes, as
//! definitions by level over numbers and memory, with no graph in them: fields and rules of an entry
//! with Svnapot and Svpbmt in `specs/Entry`, a stage's walk by level in `specs/Levels`, Sv39 in
//! `specs/Sv39`, and two stages, Sv39 under Sv39x4, in `specs/TwoStages`. Each rule names the manual's
//! section or step. A walk gives the entries that it reads (walk, level, address, word), and its end.
//!
//! Proved: `sv39` and `sv39x4` end exactly as the definitions, for every table memory of 8-byte words,
//! every setting, and every access. Where a register is neither 0 nor of MODE 8, which is no legal
//! setting, both walk as for MODE 8. No call takes memory.
#![tactic(auto)]

mod access;
mod bits;
mod pte;
mod two_stages;
mod walking;

pub use access::{Access, Kind, ManualEnd, Sv39Setting, Sv39x4Setting};
pub use two_stages::sv39x4;
pub use walking::sv39;
