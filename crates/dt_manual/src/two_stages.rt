// Two stages: each address that the guest uses, its entries' too, goes through the G-stage.
ghost use Rattle.std.specs.Prelude.{◌≡◌, ◌+◌, ◌*◌, ◌<◌, ◌≤◌, ◌^◌, []};
ghost use Rattle.dt_bits.specs.Memory.{word_of};
ghost use Rattle.dt_manual.specs.Entry.{field, judged};
ghost use Rattle.dt_manual.specs.Verdicts.{verdict_of};
ghost use Rattle.dt_manual.specs.Levels.{vs, of_final, direct, word_got, at_result, levels_by};
ghost use Rattle.dt_manual.specs.StageEnds.{cause_of, stage_end, outcome, outcome_of};
ghost use Rattle.dt_manual.specs.declared.two_stages.Use.TheVariants.{Implicit};
ghost use Rattle.dt_manual.specs.Sv39.{is_store as stores, code_of, end_of, index};
ghost use Rattle.dt_manual.specs.TwoStages.{g_allows, g_stores, g_stage, g_index, g_walk, vs_stage, vs_fetch, vs_walk, smaller as smaller_page, sv39x4_walk};

use crate::bits::field;
use crate::pte::{Pte, Verdict};
use crate::walking::{allows, is_store, serves};
use crate::{Access, Kind, ManualEnd, Sv39x4Setting};
use dt_bits::TableMemory;

/// What uses a guest physical address: an access of the guest, or the read of an entry of the
/// VS-stage.
#[derive(Clone, Copy, Debug, PartialEq, Eq)]
pub enum Use {
    Explicit(Kind),
    Implicit,
}

/// Why a stage stops: a page fault, a guest-page fault, or an access fault.
#[derive(Clone, Copy, Debug, PartialEq, Eq)]
pub enum Cause {
    Page,
    Guest,
    Access,
}

/// How a stage ends: at an address, in a page of two to `page` bytes, where a `page` of 0 stands for
/// none; or in a fault.
#[derive(Clone, Copy, Debug, PartialEq, Eq)]
pub enum StageEnd {
    Reached { address: u64, page: u32 },
    Stopped(Cause),
}

/// The word of an entry, or why it can't be read.
#[derive(Clone, Copy, Debug, PartialEq, Eq)]
pub enum Fetch {
    Got(u64),
    Lost(Cause),
}

fn code(cause: Cause, kind: Kind) -> u32
    ensures { result ≡ code_of (cause_of cause) kind }
{
    match (cause, kind) {
        (Cause::Access, Kind::Fetch) => 1,
        (Cause::Access, Kind::Load) => 5,
        (Cause::Access, Kind::Store) => 7,
        (Cause::Page, Kind::Fetch) => 12,
        (Cause::Page, Kind::Load) => 13,
        (Cause::Page, Kind::Store) => 15,
        (Cause::Guest, Kind::Fetch) => 20,
        (Cause::Guest, Kind::Load) => 21,
        (Cause::Guest, Kind::Store) => 23,
    }
}

fn table_word(memory: &TableMemory, address: u64) -> Fetch
    requires memory { memory.now.bytes ≡ 8 }
    ensures { outcome_of result ≡ outcome (word_got [] address (word_of memory.now address)) }
{
    match memory.word_at(u128::from(address)) {
        None => Fetch::Lost(Cause::Access),
        Some(word) => Fetch::Got(word as u64),
    }
}

// ---- the G-stage

fn guest_allows(purpose: Use, mxr: bool, e: Pte) -> bool
    ensures { result ≡ g_allows purpose mxr e.bits }
{
    match purpose {
        Use::Implicit => e.is_readable(),
        Use::Explicit(kind) => allows(kind, mxr, e),
    }
}

fn guest_stores(purpose: Use) -> bool
    ensures { result ≡ g_stores purpose }
{
    match purpose {
        Use::Implicit => false,
        Use::Explicit(kind) => is_store(kind),
    }
}

fn guest_permits(setting: Sv39x4Setting, purpose: Use, e: Pte) -> bool
    ensures { result ≡ (g_stage setting purpose).permits e.bits }
{
    e.is_for_user() && guest_allows(purpose, setting.hmxr, e)
}

fn guest_verdict(setting: Sv39x4Setting, purpose: Use, e: Pte, level: u32) -> Verdict
    requires { level ≤ 4 }
    ensures { verdict_of result ≡ judged (g_stage setting purpose).permits (g_stores purpose) 9 level e.bits }
{
    let permitted = guest_permits(setting, purpose, e);
    e.judge(level, permitted, guest_stores(purpose))
}

fn guest_index(x: u64, level: u32) -> u64
    requires { level ≤ 2 }
    ensures same { result ≡ g_index x level }
    ensures small { result < 2 ^ 11 }
{
    if level == 2 {
        field(x, 40, 30)
    } else {
        field(x, 20 + 9 * level, 12 + 9 * level)
    }
}

// The walk of the G-stage from the level below `left` on.
fn guest_from_level(
    setting: Sv39x4Setting,
    memory: &TableMemory,
    purpose: Use,
    x: u64,
    left: u32,
    table: u64,
) -> StageEnd
    requires left { left ≤ 3 }
    requires table { table < 2 ^ 56 }
    requires memory { memory.now.bytes ≡ 8 }
    ensures { stage_end result ≡ (levels_by of_final (g_stage setting purpose) (direct memory.now) x (g_index x) left table).end }
{
    if left == 0 {
        return StageEnd::Stopped(Cause::Guest);
    }
    let level = left - 1;
    match table_word(memory, table + guest_index(x, level) * 8) {
        Fetch::Lost(cause) => StageEnd::Stopped(cause),
        Fetch::Got(bits) => {
            let e = Pte { bits };
            match guest_verdict(setting, purpose, e, level) {
                Verdict::Fails => StageEnd::Stopped(Cause::Guest),
                Verdict::Pointer => {
                    guest_from_level(setting, memory, purpose, x, level, e.table())
                }
                Verdict::Leaf => StageEnd::Reached {
                    address: e.led(level, x),
                    page: e.page(level),
                },
            }
        }
    }
}

// Where the G-stage leads a guest physical address.
fn guest_stage(setting: Sv39x4Setting, memory: &TableMemory, purpose: Use, x: u64) -> StageEnd
    requires memory { memory.now.bytes ≡ 8 }
    ensures { stage_end result ≡ (g_walk setting memory.now of_final purpose x).end }
{
    if setting.hgatp == 0 {
        return if field(x, 63, 56) != 0 {
            StageEnd::Stopped(Cause::Access)
        } else {
            StageEnd::Reached {
                address: x,
                page: 0,
            }
        };
    }
    if field(x, 63, 41) != 0 {
        return StageEnd::Stopped(Cause::Guest);
    }
    let root = field(setting.hgatp, 43, 0) * 4096;
    guest_from_level(setting, memory, purpose, x, 3, root)
}

// ---- the VS-stage

// The word of an entry at a guest physical address.
fn guest_word(setting: Sv39x4Setting, memory: &TableMemory, address: u64) -> Fetch
    requires memory { memory.now.bytes ≡ 8 }
    ensures { outcome_of result ≡ outcome (at_result memory.now [] (g_walk setting memory.now of_final Implicit address).end) }
{
    match guest_stage(setting, memory, Use::Implicit, address) {
        StageEnd::Stopped(cause) => Fetch::Lost(cause),
        StageEnd::Reached { address, page: _ } => table_word(memory, address),
    }
}

fn virtual_verdict(setting: Sv39x4Setting, access: Access, e: Pte, level: u32) -> Verdict
    requires { level ≤ 4 }
    ensures { verdict_of result ≡ judged (vs_stage setting access).permits (stores access.kind) 9 level e.bits }
{
    let mxr = setting.vmxr || setting.hmxr;
    let permitted = serves(access, setting.sum, e) && allows(access.kind, mxr, e);
    e.judge(level, permitted, is_store(access.kind))
}

// The walk of the VS-stage from the level below `left` on.
fn virtual_from_level(
    setting: Sv39x4Setting,
    memory: &TableMemory,
    access: Access,
    left: u32,
    table: u64,
) -> StageEnd
    requires left { left ≤ 3 }
    requires table { table < 2 ^ 56 }
    requires memory { memory.now.bytes ≡ 8 }
    ensures { stage_end result ≡ (levels_by vs (vs_stage setting access) (vs_fetch setting memory.now) access.va (index access.va) left table).end }
{
    if left == 0 {
        return StageEnd::Stopped(Cause::Page);
    }
    let level = left - 1;
    let address = table + field(access.va, 20 + 9 * level, 12 + 9 * level) * 8;
    match guest_word(setting, memory, address) {
        Fetch::Lost(cause) => StageEnd::Stopped(cause),
        Fetch::Got(bits) => {
            let e = Pte { bits };
            match virtual_verdict(setting, access, e, level) {
                Verdict::Fails => StageEnd::Stopped(Cause::Page),
                Verdict::Pointer => {
                    virtual_from_level(setting, memory, access, level, e.table())
                }
                Verdict::Leaf => StageEnd::Reached {
                    address: e.led(level, access.va),
                    page: e.page(level),
                },
            }
        }
    }
}

// Where the VS-stage leads the virtual address.
fn virtual_stage(setting: Sv39x4Setting, memory: &TableMemory, access: Access) -> StageEnd
    requires memory { memory.now.bytes ≡ 8 }
    ensures { stage_end result ≡ (vs_walk setting memory.now access).end }
{
    if setting.vsatp == 0 {
        return StageEnd::Reached {
            address: access.va,
            page: 0,
        };
    }
    let top = field(access.va, 63, 38);
    if top != 0 && top != 67108863 {
        return StageEnd::Stopped(Cause::Page);
    }
    let root = field(setting.vsatp, 43, 0) * 4096;
    virtual_from_level(setting, memory, access, 3, root)
}

// ---- both

// The exponent of the smaller page of both stages; 0 stands for none.
fn smaller(virtual_page: u32, guest_page: u32) -> u32
    ensures { result ≡ smaller_page virtual_page guest_page }
{
    match (virtual_page, guest_page) {
        (0, 0) => 12,
        (0, page) | (page, 0) => page,
        _ => virtual_page.min(guest_page),
    }
}

/// The manual's walk of two stages, Sv39 under Sv39x4.
pub fn sv39x4(setting: Sv39x4Setting, memory: &TableMemory, access: Access) -> ManualEnd
    requires memory { memory.now.bytes ≡ 8 }
    ensures { result ≡ end_of access.kind (sv39x4_walk setting memory.now access).end }
{
    let (address, virtual_page) = match virtual_stage(setting, memory, access) {
        StageEnd::Reached { address, page } => (address, page),
        StageEnd::Stopped(cause) => {
            return ManualEnd::Fault {
                code: code(cause, access.kind),
            };
        }
    };
    match guest_stage(setting, memory, Use::Explicit(access.kind), address) {
        StageEnd::Reached { address: pa, page } => ManualEnd::Page {
            pa,
            page: smaller(virtual_page, page),
        },
        StageEnd::Stopped(cause) => ManualEnd::Fault {
            code: code(cause, access.kind),
        },
    }
}
