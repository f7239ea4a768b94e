// Where the nodes stand to which others lead.

/// The first node of the VS-stage.
pub const STAGE: u32 = 3;

/// The reads of the VS-stage's entries.
pub const V2: u32 = 27;

pub const V1: u32 = 56;

pub const V0: u32 = 85;

/// The results of the VS-stage.
pub const LED: u32 = 89;

/// The pages of the VS-stage: none, and those of 2^30, 2^21, 2^16 and 2^12 bytes.
pub const V_PAGE: u32 = 94;

/// The first node of the final address's G-stage.
pub const FINAL: u32 = 99;

/// The pages of that G-stage, as those of the VS-stage.
pub const G_PAGE: u32 = 122;

/// The choice of the smaller page.
pub const CHOICE: u32 = 127;

/// The results: `dbare`, `d30`, `d21`, `d16`, `d12`.
pub const DONE: u32 = 131;

/// The first of the five nodes of page faults, access faults and guest-page faults.
pub const PAGE_FAULT: u32 = 136;

pub const ACCESS_FAULT: u32 = 141;

pub const GUEST_FAULT: u32 = 146;
