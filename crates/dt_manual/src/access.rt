/// What an access does. An implicit access of the walk itself is none of these.
#[derive(Clone, Copy, Debug, PartialEq, Eq)]
pub enum Kind {
    Fetch,
    Load,
    Store,
}

/// An access: its virtual address, what it does, and whether it is made in U-mode (else in S-mode).
#[derive(Clone, Copy, Debug, PartialEq, Eq)]
pub struct Access {
    pub va: u64,
    pub kind: Kind,
    pub user: bool,
}

/// The registers that a walk of Sv39 depends on: `satp` (4.1.11), and SUM and MXR of `sstatus`
/// (4.1.1.2). A setting is legal where the MODE of `satp` is 8, or `satp` is 0, which is Bare.
#[derive(Clone, Copy, Debug, PartialEq, Eq)]
pub struct Sv39Setting {
    pub satp: u64,
    pub sum: bool,
    pub mxr: bool,
}

/// The registers that a walk of two stages depends on: `vsatp` and `hgatp` (8.2.18, 8.2.10), SUM and
/// MXR of `vsstatus` (8.2.12), and MXR of HS-level, that of `sstatus`. A setting is legal where the
/// MODE of `vsatp` is 8, or `vsatp` is 0, and where the MODE of `hgatp` is 8 with bits 59, 58, 1 and 0
/// clear, or `hgatp` is 0; a register of 0 is Bare.
#[derive(Clone, Copy, Debug, PartialEq, Eq)]
pub struct Sv39x4Setting {
    pub vsatp: u64,
    pub hgatp: u64,
    pub sum: bool,
    pub vmxr: bool,
    pub hmxr: bool,
}

/// How a walk ends: at a physical address of 56 bits in a page of two to `page` bytes, or in an
/// exception with its code.
#[derive(Clone, Copy, Debug, PartialEq, Eq)]
pub enum ManualEnd {
    Page { pa: u64, page: u32 },
    Fault { code: u32 },
}
