// Where the nodes stand to which others lead.

/// The result where `satp` is Bare.
pub const DBARE: u32 = 2;

/// The read of level 2.
pub const STAGE: u32 = 4;

/// The results of leaves at levels 2 and 1.
pub const D30: u32 = 18;

pub const D21: u32 = 19;

/// The test of N at level 0, and the results where N is set and where it isn't.
pub const NAPOT: u32 = 20;

pub const D16: u32 = 21;

pub const D12: u32 = 22;

/// The first of the five nodes of page faults.
pub const PAGE_FAULT: u32 = 23;

/// The first of the five nodes of access faults.
pub const ACCESS_FAULT: u32 = 28;
