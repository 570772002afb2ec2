// Document 01, Commands and their scopes, with document 02, T-05, T-07 and T-11: which rows a legal command removes.
#![tactic(auto)]

mod invalidating;

ghost use Rattle.std.specs.Prelude.{◌≡◌, ◌/◌, ◌^◌, ◌≤◌, ◌<◌, eqb};
ghost use Rattle.rows.specs.Rows.{kind_number, mark_number, is_global};
ghost use Rattle.commands.specs.declared.Command.TheVariants.{CfgiSte, CfgiSteRange, CfgiCd, CfgiCdAll, TlbiNhAll, TlbiNhAsid, TlbiNhVa, TlbiNhVaa, TlbiEl2All, TlbiEl2Asid, TlbiEl2Va, TlbiEl2Vaa, TlbiS12Vmall, TlbiS2Ipa, TlbiNsnhAll};
ghost use Rattle.scopes.specs.Scopes.{spared, meets, ste_block, open_bits, ste_of, cd_of, cd_at, stage_of, own_of, is_e2h, stage_at, own_at, has_asid, narrow, removes, idle, regime, by_regime, in_regime, in_scope};
ghost use Rattle.scopes.specs.Ranges.{address_of, tg_of, num_of, scale_of, granules, granule_of, first_of, length_of, reaches};
ghost use Rattle.scopes.specs.Kinds.{is_about};

use commands::{Command, Features, Target};
pub use invalidating::invalidates;
use rows::{Kind, Mark, Row};

// The 2^span streams that are equal to one of them above their lowest span bits.
#[derive(Clone, Copy)]
pub struct Block {
    pub stream: u64,
    pub span: u64,
}

#[tactic(auto, unfolding(rows::specs::Rows::parts_of))]
fn spared(row: Row, leaf: bool) -> bool
    ensures { result ≡ spared row leaf }
{
    leaf & !rows::parts_of(row).last
}

fn same_above(k: u64, a: u64, b: u64) -> bool
    requires { k < 64 }
    ensures { result ≡ eqb (a / 2 ^ k) (b / 2 ^ k) }
{
    a / words::power(k) == b / words::power(k)
}

fn meets(a: Block, b: Block) -> bool
    requires { (a.span < 64) × (b.span < 64) }
    ensures { result ≡ meets a b }
{
    if a.span < b.span {
        return same_above(b.span, a.stream, b.stream);
    }
    same_above(a.span, a.stream, b.stream)
}

fn ste_block(row: Row) -> Block
    ensures { (result ≡ ste_block row) × (result.span < 64) }
{
    let p = rows::parts_of(row);
    if p.last {
        return Block {
            stream: p.stream,
            span: 0,
        };
    }
    Block {
        stream: p.stream,
        span: p.span,
    }
}

#[tactic(auto, using(rows::proofs::Numbers::same_kind, rows::proofs::Numbers::kind_read), unfolding(rows::specs::Rows::parts_of, crate::specs::Scopes::ste_of))]
fn ste_of(row: Row, block: Block) -> bool
    requires { block.span < 64 }
    ensures { result ≡ ste_of row block }
{
    (rows::parts_of(row).kind == Kind::Ste) & meets(ste_block(row), block)
}

#[tactic(auto, using(rows::proofs::Numbers::same_kind, rows::proofs::Numbers::kind_read), unfolding(rows::specs::Rows::parts_of, crate::specs::Scopes::cd_of))]
fn cd_of(row: Row, block: Block) -> bool
    requires { block.span < 64 }
    ensures { result ≡ cd_of row block }
{
    let p = rows::parts_of(row);
    let own = Block {
        stream: p.stream,
        span: 0,
    };
    (p.kind == Kind::Cd) & meets(own, block)
}

#[tactic(auto, using(rows::proofs::Numbers::same_kind, rows::proofs::Numbers::kind_read), unfolding(rows::specs::Rows::parts_of, crate::specs::Scopes::cd_at))]
fn cd_at(row: Row, stream: u64, substream: u64) -> bool
    ensures { result ≡ cd_at row stream substream }
{
    let p = rows::parts_of(row);
    (p.kind == Kind::Cd) & (p.stream == stream) & (!p.last | (p.substream == substream))
}

#[tactic(auto, using(rows::proofs::Numbers::same_kind, rows::proofs::Numbers::kind_read, rows::proofs::Numbers::same_mark, rows::proofs::Numbers::mark_read), unfolding(rows::specs::Rows::parts_of, crate::specs::Scopes::stage_of))]
fn stage_of(row: Row, kind: Kind, vmid: u64) -> bool
    ensures { result ≡ stage_of row (kind_number kind) vmid }
{
    let p = rows::parts_of(row);
    (p.kind == kind) & (p.mark == Mark::Unmarked) & (p.vmid == vmid)
}

// Document 02, T-05: the hypervisor's own rows.
#[tactic(auto, using(rows::proofs::Numbers::same_kind, rows::proofs::Numbers::kind_read, rows::proofs::Numbers::same_mark, rows::proofs::Numbers::mark_read), unfolding(rows::specs::Rows::parts_of, crate::specs::Scopes::own_of))]
fn own_of(row: Row) -> bool
    ensures { result ≡ own_of row }
{
    let p = rows::parts_of(row);
    (p.kind == Kind::Stage1) & !(p.mark == Mark::Unmarked)
}

#[tactic(auto, unfolding(crate::specs::Scopes::own_at))]
fn own_at(row: Row, target: Target) -> bool
    ensures { result ≡ own_at row target }
{
    own_of(row) & reaches(target, row)
}

#[tactic(auto, using(rows::proofs::Numbers::same_mark, rows::proofs::Numbers::mark_read), unfolding(rows::specs::Rows::parts_of))]
fn is_e2h(row: Row) -> bool
    ensures { result ≡ is_e2h row }
{
    rows::parts_of(row).mark == Mark::El2E2h
}

fn address_of(page: u64) -> u64
    ensures { result ≡ address_of page }
{
    words::part(page, 51, 0) * 4096
}

// Document 02, T-07: the granule of TG. A single address is a granule of one byte.
fn granule_of(target: Target) -> u64
    ensures { (result ≡ granule_of target) × (result ≤ 16) }
{
    match words::part(target.tg, 1, 0) {
        0 => 0,
        1 => 12,
        2 => 14,
        _ => 16,
    }
}

pub fn first_of(target: Target) -> u64
    ensures { result ≡ first_of target }
{
    let granule = words::power(granule_of(target));
    address_of(target.page) / granule * granule
}

// At most 2^5 * 2^31 * 2^16 bytes. Where they end need not fit a word, so it is not formed.
pub fn length_of(target: Target) -> u64
    ensures { (result ≡ length_of target) × (0 < result) }
{
    if words::part(target.tg, 1, 0) == 0 {
        return 1;
    }
    let n = words::part(target.num, 4, 0) + 1;
    n * words::power(words::part(target.scale, 4, 0)) * words::power(granule_of(target))
}

// Whether some byte of the row's span is one that the command aims at.
fn reaches(target: Target, row: Row) -> bool
    ensures { result ≡ reaches target row }
{
    let size = words::power(rows::span_of(row));
    words::overlap(first_of(target), length_of(target), row.w2, size)
}

#[tactic(auto, unfolding(crate::specs::Scopes::stage_at))]
fn stage_at(row: Row, kind: Kind, vmid: u64, target: Target) -> bool
    ensures { result ≡ stage_at row (kind_number kind) vmid target }
{
    stage_of(row, kind, vmid) & reaches(target, row)
}

#[tactic(auto, unfolding(rows::specs::Rows::parts_of))]
fn has_asid(row: Row, asid: u64) -> bool
    ensures { result ≡ has_asid row asid }
{
    rows::parts_of(row).asid == asid
}

#[tactic(auto, unfolding(rows::specs::Rows::parts_of))]
fn is_global(row: Row) -> bool
    ensures { result ≡ is_global row }
{
    rows::parts_of(row).global
}

// How many bits of a stream a Range leaves open: one more than its number, which has five bits.
pub fn open_bits(range: u64) -> u64
    ensures { (result ≡ open_bits range) × (result < 64) }
{
    words::part(range, 4, 0) + 1
}

// The table's last column, a function for each code, also where two are alike but for a kind: the table has a line for each.
#[tactic(auto, unfolding(crate::specs::Scopes::removes))]
fn removes_03(row: Row, stream: u64, leaf: bool) -> bool
    ensures { result ≡ removes (CfgiSte stream leaf) row }
{
    let block = Block { stream, span: 0 };
    (ste_of(row, block) & !spared(row, leaf)) | cd_of(row, block)
}

#[tactic(auto, unfolding(crate::specs::Scopes::removes))]
fn removes_04(row: Row, stream: u64, range: u64) -> bool
    ensures { result ≡ removes (CfgiSteRange stream range) row }
{
    let block = Block {
        stream,
        span: open_bits(range),
    };
    ste_of(row, block) | cd_of(row, block)
}

#[tactic(auto, unfolding(crate::specs::Scopes::removes))]
fn removes_05(row: Row, substream: u64, stream: u64, leaf: bool) -> bool
    ensures { result ≡ removes (CfgiCd substream stream leaf) row }
{
    cd_at(row, stream, substream) & !spared(row, leaf)
}

#[tactic(auto, unfolding(crate::specs::Scopes::removes))]
fn removes_06(row: Row, stream: u64) -> bool
    ensures { result ≡ removes (CfgiCdAll stream) row }
{
    cd_of(row, Block { stream, span: 0 })
}

#[tactic(auto, unfolding(crate::specs::Scopes::removes))]
fn removes_10(row: Row, vmid: u64) -> bool
    ensures { result ≡ removes (TlbiNhAll vmid) row }
{
    stage_of(row, Kind::Stage1, vmid)
}

#[tactic(auto, unfolding(crate::specs::Scopes::removes))]
fn removes_11(row: Row, vmid: u64, asid: u64) -> bool
    ensures { result ≡ removes (TlbiNhAsid vmid asid) row }
{
    stage_of(row, Kind::Stage1, vmid) & has_asid(row, asid) & !is_global(row)
}

#[tactic(auto, unfolding(crate::specs::Scopes::removes))]
fn removes_12(row: Row, vmid: u64, asid: u64, target: Target) -> bool
    ensures { result ≡ removes (TlbiNhVa vmid asid target) row }
{
    stage_at(row, Kind::Stage1, vmid, target)
        & (has_asid(row, asid) | is_global(row))
        & !spared(row, target.leaf)
}

#[tactic(auto, unfolding(crate::specs::Scopes::removes))]
fn removes_13(row: Row, vmid: u64, target: Target) -> bool
    ensures { result ≡ removes (TlbiNhVaa vmid target) row }
{
    stage_at(row, Kind::Stage1, vmid, target) & !spared(row, target.leaf)
}

#[tactic(auto, unfolding(crate::specs::Scopes::removes))]
fn removes_20(row: Row) -> bool
    ensures { result ≡ removes TlbiEl2All row }
{
    own_of(row)
}

#[tactic(auto, unfolding(crate::specs::Scopes::removes))]
fn removes_21(row: Row, asid: u64) -> bool
    ensures { result ≡ removes (TlbiEl2Asid asid) row }
{
    own_of(row) & is_e2h(row) & has_asid(row, asid) & !is_global(row)
}

// An EL2 row has no ASID to compare.
#[tactic(auto, unfolding(crate::specs::Scopes::removes))]
fn removes_22(row: Row, asid: u64, target: Target) -> bool
    ensures { result ≡ removes (TlbiEl2Va asid target) row }
{
    own_at(row, target)
        & (!is_e2h(row) | has_asid(row, asid) | is_global(row))
        & !spared(row, target.leaf)
}

#[tactic(auto, unfolding(crate::specs::Scopes::removes))]
fn removes_23(row: Row, target: Target) -> bool
    ensures { result ≡ removes (TlbiEl2Vaa target) row }
{
    own_at(row, target) & !spared(row, target.leaf)
}

#[tactic(auto, unfolding(crate::specs::Scopes::removes))]
fn removes_28(row: Row, vmid: u64) -> bool
    ensures { result ≡ removes (TlbiS12Vmall vmid) row }
{
    stage_of(row, Kind::Stage1, vmid) | stage_of(row, Kind::Stage2, vmid)
}

#[tactic(auto, unfolding(crate::specs::Scopes::removes))]
fn removes_2a(row: Row, vmid: u64, target: Target) -> bool
    ensures { result ≡ removes (TlbiS2Ipa vmid target) row }
{
    stage_at(row, Kind::Stage2, vmid, target) & !spared(row, target.leaf)
}

#[tactic(auto, using(rows::proofs::Numbers::same_kind, rows::proofs::Numbers::kind_read, rows::proofs::Numbers::same_mark, rows::proofs::Numbers::mark_read), unfolding(rows::specs::Rows::parts_of, crate::specs::Scopes::removes))]
fn removes_30(row: Row) -> bool
    ensures { result ≡ removes TlbiNsnhAll row }
{
    let p = rows::parts_of(row);
    let unmarked = p.mark == Mark::Unmarked;
    ((p.kind == Kind::Stage1) & unmarked) | ((p.kind == Kind::Stage2) & unmarked)
}

// Whether a row is one of those that the table names for a command.
#[tactic(auto, unfolding(crate::specs::Scopes::removes))]
fn removes(c: Command, row: Row) -> bool
    ensures { result ≡ removes c row }
{
    match c {
        Command::PrefetchConfig => false,
        Command::PrefetchAddr => false,
        Command::CfgiSte(stream, leaf) => removes_03(row, stream, leaf),
        Command::CfgiSteRange(stream, range) => removes_04(row, stream, range),
        Command::CfgiCd(substream, stream, leaf) => removes_05(row, substream, stream, leaf),
        Command::CfgiCdAll(stream) => removes_06(row, stream),
        Command::TlbiNhAll(vmid) => removes_10(row, vmid),
        Command::TlbiNhAsid(vmid, asid) => removes_11(row, vmid, asid),
        Command::TlbiNhVa(vmid, asid, target) => removes_12(row, vmid, asid, target),
        Command::TlbiNhVaa(vmid, target) => removes_13(row, vmid, target),
        Command::TlbiEl2All => removes_20(row),
        Command::TlbiEl2Asid(asid) => removes_21(row, asid),
        Command::TlbiEl2Va(asid, target) => removes_22(row, asid, target),
        Command::TlbiEl2Vaa(target) => removes_23(row, target),
        Command::TlbiS12Vmall(vmid) => removes_28(row, vmid),
        Command::TlbiS2Ipa(vmid, target) => removes_2a(row, vmid, target),
        Command::TlbiNsnhAll => removes_30(row),
        Command::Sync(_) => false,
        Command::DptiAll => false,
        Command::DptiPa(_, _, _) => false,
    }
}

fn narrow(wide: bool, id: u64) -> bool
    ensures { result ≡ narrow wide id }
{
    wide | (words::part(id, 15, 8) == 0)
}

// Whether no row need be looked at, by the code or since an identifier is too wide.
#[tactic(auto, unfolding(crate::specs::Scopes::too_wide, crate::specs::Scopes::idle))]
pub fn idle(f: Features, c: Command) -> bool
    ensures { result ≡ idle f c }
{
    match c {
        Command::PrefetchConfig => true,
        Command::PrefetchAddr => true,
        Command::CfgiSte(_, _) => false,
        Command::CfgiSteRange(_, _) => false,
        Command::CfgiCd(_, _, _) => false,
        Command::CfgiCdAll(_) => false,
        Command::TlbiNhAll(vmid) => !narrow(f.vmid16, vmid),
        Command::TlbiNhAsid(vmid, asid) => !(narrow(f.vmid16, vmid) & narrow(f.asid16, asid)),
        Command::TlbiNhVa(vmid, asid, _) => !(narrow(f.vmid16, vmid) & narrow(f.asid16, asid)),
        Command::TlbiNhVaa(vmid, _) => !narrow(f.vmid16, vmid),
        Command::TlbiEl2All => false,
        Command::TlbiEl2Asid(asid) => !narrow(f.asid16, asid),
        Command::TlbiEl2Va(asid, _) => !narrow(f.asid16, asid),
        Command::TlbiEl2Vaa(_) => false,
        Command::TlbiS12Vmall(vmid) => !narrow(f.vmid16, vmid),
        Command::TlbiS2Ipa(vmid, _) => !narrow(f.vmid16, vmid),
        Command::TlbiNsnhAll => false,
        Command::Sync(_) => true,
        Command::DptiAll => false,
        Command::DptiPa(_, _, _) => false,
    }
}

// Document 02, T-03: whether a command is about rows of a kind at all.
#[tactic(auto, using(rows::proofs::Numbers::same_kind), unfolding(crate::specs::Kinds::is_about))]
fn is_about(c: Command, kind: Kind) -> bool
    ensures { result ≡ is_about c (kind_number kind) }
{
    match c {
        Command::PrefetchConfig => false,
        Command::PrefetchAddr => false,
        Command::CfgiSte(_, _) => (kind == Kind::Ste) | (kind == Kind::Cd),
        Command::CfgiSteRange(_, _) => (kind == Kind::Ste) | (kind == Kind::Cd),
        Command::CfgiCd(_, _, _) => kind == Kind::Cd,
        Command::CfgiCdAll(_) => kind == Kind::Cd,
        Command::TlbiNhAll(_) => kind == Kind::Stage1,
        Command::TlbiNhAsid(_, _) => kind == Kind::Stage1,
        Command::TlbiNhVa(_, _, _) => kind == Kind::Stage1,
        Command::TlbiNhVaa(_, _) => kind == Kind::Stage1,
        Command::TlbiEl2All => kind == Kind::Stage1,
        Command::TlbiEl2Asid(_) => kind == Kind::Stage1,
        Command::TlbiEl2Va(_, _) => kind == Kind::Stage1,
        Command::TlbiEl2Vaa(_) => kind == Kind::Stage1,
        Command::TlbiS12Vmall(_) => (kind == Kind::Stage1) | (kind == Kind::Stage2),
        Command::TlbiS2Ipa(_, _) => kind == Kind::Stage2,
        Command::TlbiNsnhAll => (kind == Kind::Stage1) | (kind == Kind::Stage2),
        Command::Sync(_) => false,
        Command::DptiAll => false,
        Command::DptiPa(_, _, _) => false,
    }
}

// The sort of the hypervisor's own rows that E2H names.
fn regime(f: Features) -> Mark
    ensures { mark_number result ≡ regime f }
{
    if f.e2h {
        return Mark::El2E2h;
    }
    Mark::El2
}

// Whether a command is about rows of that sort alone: 22 and 23.
fn by_regime(c: Command) -> bool
    ensures { result ≡ by_regime c }
{
    match c {
        Command::PrefetchConfig => false,
        Command::PrefetchAddr => false,
        Command::CfgiSte(_, _) => false,
        Command::CfgiSteRange(_, _) => false,
        Command::CfgiCd(_, _, _) => false,
        Command::CfgiCdAll(_) => false,
        Command::TlbiNhAll(_) => false,
        Command::TlbiNhAsid(_, _) => false,
        Command::TlbiNhVa(_, _, _) => false,
        Command::TlbiNhVaa(_, _) => false,
        Command::TlbiEl2All => false,
        Command::TlbiEl2Asid(_) => false,
        Command::TlbiEl2Va(_, _) => true,
        Command::TlbiEl2Vaa(_) => true,
        Command::TlbiS12Vmall(_) => false,
        Command::TlbiS2Ipa(_, _) => false,
        Command::TlbiNsnhAll => false,
        Command::Sync(_) => false,
        Command::DptiAll => false,
        Command::DptiPa(_, _, _) => false,
    }
}

#[tactic(auto, using(rows::proofs::Numbers::same_mark, rows::proofs::Numbers::mark_read), unfolding(crate::specs::Scopes::in_regime))]
fn in_regime(f: Features, c: Command, row: Row) -> bool
    ensures { result ≡ in_regime f c row }
{
    !by_regime(c) | (rows::mark_of(row) == regime(f))
}

// Whether a row is in a command's scope. Word 0 alone tells it of most rows, and what goes by the features is asked of few.
pub fn in_scope(f: Features, c: Command, row: Row) -> bool
    ensures { result ≡ in_scope f c row }
{
    if row.w0 == 0 {
        return false;
    }
    if !is_about(c, rows::kind_of(row)) {
        return false;
    }
    if !removes(c, row) {
        return false;
    }
    !idle(f, c) & in_regime(f, c, row)
}
