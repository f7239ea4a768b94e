ghost use Rattle.std.specs.Prelude.{◌≡◌, ◌+◌, ◌*◌, ◌<◌, ◌≤◌, ◌^◌};
ghost use Rattle.dt_manual.specs.Entry.{field, judged};
ghost use Rattle.dt_manual.specs.Verdicts.{verdict_of};
ghost use Rattle.dt_manual.specs.Levels.{page_fault, access_fault, single, direct, levels_by};
ghost use Rattle.dt_manual.specs.Sv39.{is_fetch as fetches, is_store as stores, serves, allows, code_of, end_of, canonical, index, sv39_stage, sv39_walk};

use crate::bits::field;
use crate::pte::{Pte, Verdict};
use crate::{Access, Kind, ManualEnd, Sv39Setting};
use dt_bits::TableMemory;

fn page_code(kind: Kind) -> u32
    ensures { result ≡ code_of page_fault kind }
{
    match kind {
        Kind::Fetch => 12,
        Kind::Load => 13,
        Kind::Store => 15,
    }
}

fn access_code(kind: Kind) -> u32
    ensures { result ≡ code_of access_fault kind }
{
    match kind {
        Kind::Fetch => 1,
        Kind::Load => 5,
        Kind::Store => 7,
    }
}

fn is_fetch(kind: Kind) -> bool
    ensures { result ≡ fetches kind }
{
    matches!(kind, Kind::Fetch)
}

pub fn is_store(kind: Kind) -> bool
    ensures { result ≡ stores kind }
{
    matches!(kind, Kind::Store)
}

pub fn serves(access: Access, sum: bool, e: Pte) -> bool
    ensures { result ≡ serves access.kind access.user sum e.bits }
{
    if access.user {
        e.is_for_user()
    } else {
        !e.is_for_user() || (sum && !is_fetch(access.kind))
    }
}

pub fn allows(kind: Kind, mxr: bool, e: Pte) -> bool
    ensures { result ≡ allows kind mxr e.bits }
{
    match kind {
        Kind::Fetch => e.is_executable(),
        Kind::Load => e.is_readable() || (mxr && e.is_executable()),
        Kind::Store => e.is_writable(),
    }
}

fn permits(setting: Sv39Setting, access: Access, e: Pte) -> bool
    ensures { result ≡ (sv39_stage setting.sum setting.mxr access).permits e.bits }
{
    serves(access, setting.sum, e) && allows(access.kind, setting.mxr, e)
}

fn verdict(setting: Sv39Setting, access: Access, e: Pte, level: u32) -> Verdict
    requires { level ≤ 4 }
    ensures { verdict_of result ≡ judged (sv39_stage setting.sum setting.mxr access).permits (stores access.kind) 9 level e.bits }
{
    e.judge(level, permits(setting, access, e), is_store(access.kind))
}

// The walk from the level below `left` on.
#[tactic(auto, using(crate::proofs::Steps::levels_none))]
fn from_level(
    setting: Sv39Setting,
    memory: &TableMemory,
    access: Access,
    left: u32,
    table: u64,
) -> ManualEnd
    requires left { left ≤ 3 }
    requires table { table < 2 ^ 56 }
    requires memory { memory.now.bytes ≡ 8 }
    ensures { result ≡ end_of access.kind (levels_by single (sv39_stage setting.sum setting.mxr access) (direct memory.now) access.va (index access.va) left table).end }
{
    if left == 0 {
        return ManualEnd::Fault {
            code: page_code(access.kind),
        };
    }
    let level = left - 1;
    let address = table + field(access.va, 20 + 9 * level, 12 + 9 * level) * 8;
    match memory.word_at(u128::from(address)) {
        None => ManualEnd::Fault {
            code: access_code(access.kind),
        },
        Some(word) => {
            let e = Pte { bits: word as u64 };
            match verdict(setting, access, e, level) {
                Verdict::Fails => ManualEnd::Fault {
                    code: page_code(access.kind),
                },
                Verdict::Pointer => { from_level(setting, memory, access, level, e.table()) }
                Verdict::Leaf => ManualEnd::Page {
                    pa: e.led(level, access.va),
                    page: e.page(level),
                },
            }
        }
    }
}

/// The manual's walk of Sv39.
pub fn sv39(setting: Sv39Setting, memory: &TableMemory, access: Access) -> ManualEnd
    requires memory { memory.now.bytes ≡ 8 }
    ensures { result ≡ end_of access.kind (sv39_walk setting memory.now access).end }
{
    if setting.satp == 0 {
        return if field(access.va, 63, 56) != 0 {
            ManualEnd::Fault {
                code: access_code(access.kind),
            }
        } else {
            ManualEnd::Page {
                pa: access.va,
                page: 12,
            }
        };
    }
    let top = field(access.va, 63, 38);
    if top != 0 && top != 67108863 {
        return ManualEnd::Fault {
            code: page_code(access.kind),
        };
    }
    from_level(
        setting,
        memory,
        access,
        3,
        field(setting.satp, 43, 0) * 4096,
    )
}
