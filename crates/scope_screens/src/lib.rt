// Document 02, T-13: what a row must be like to be in the scope of a command, by few tests of few words. What a command is about is
// worked out once; whether a row that is let through is in scope the scope itself says.
#![tactic(auto)]

ghost use Rattle.std.specs.Prelude.{◌≡◌, ◌+◌, ◌*◌, ◌^◌, ◌<◌, ◌≤◌};
ghost use Rattle.screens.specs.Places.{of_vmid};
ghost use Rattle.screens.specs.Screens.{under};
ghost use Rattle.scope_screens.specs.ScopeScreens.{stage_mask, regime_at, aimed, of_block, of_context, screen_of};

use commands::{Command, Features, Target};
use screens::places::{EL2_E2H, STAGE1, STAGE2};
use screens::{Pattern, Screen, places, under};

// Word 0 by its parts.
const OWN: u64 = places::KIND + places::MARK;

const OWN_ASID: u64 = OWN + places::GLOBAL + places::ASID;

const STAGE: u64 = OWN + places::VMID;

const STAGE_ASID: u64 = STAGE + places::GLOBAL + places::ASID;

// Of both stages.
const ANY_STAGE: u64 = places::STAGES + places::MARK;

const EITHER_STAGE: u64 = ANY_STAGE + places::VMID;

// Unmarked rows of a stage, which is its kind in its place, and of a VMID.
fn stage(kind: u64, vmid: u64) -> Pattern
    requires { kind < 2 ^ 16 }
    ensures { result ≡ under stage_mask (kind + of_vmid vmid) }
{
    under(STAGE, kind + places::of_vmid(vmid))
}

// A single address has the quicker test.
fn aimed(word0: Pattern, target: Target) -> Screen
    ensures { result ≡ aimed word0 target }
{
    let first = scopes::first_of(target);
    if words::part(target.tg, 1, 0) == 0 {
        return Screen::Covering {
            word0,
            address: first,
        };
    }
    let more = scopes::length_of(target) - 1;
    Screen::Reaching {
        word0,
        last: std::num::wrapping_add_u64(first, more),
        more,
    }
}

// The 2^span streams that a stream is equal to above its lowest span bits.
fn of_block(stream: u64, span: u64) -> Screen
    requires { span ≤ 32 }
    ensures { result ≡ of_block stream span }
{
    let size = words::power(span);
    Screen::Streaming(under(0x1_0000_0000 - size, stream / size * size))
}

// CD rows of a stream.
fn of_context(stream: u64) -> Screen
    ensures { result ≡ of_context stream }
{
    Screen::Named(
        under(places::KIND, places::CD),
        under(places::STREAM, stream),
    )
}

// The mark that 22 and 23 are about, in its place.
fn regime_at(f: Features) -> u64
    ensures { (result ≡ regime_at f) × (result ≤ 2 ^ 12) }
{
    if f.e2h {
        return EL2_E2H;
    }
    places::EL2
}

// Every command has a case here, and none stands for others: a new one is not forgotten.
#[tactic(auto, unfolding(crate::specs::ScopeScreens::screen_of))]
pub fn screen_of(f: Features, c: Command) -> Screen
    ensures { result ≡ screen_of f c }
{
    match c {
        Command::PrefetchConfig => Screen::Nobody,
        Command::PrefetchAddr => Screen::Nobody,
        Command::CfgiSte(stream, _) => of_block(stream, 0),
        Command::CfgiSteRange(stream, range) => of_block(stream, scopes::open_bits(range)),
        Command::CfgiCd(_, stream, _) => of_context(stream),
        Command::CfgiCdAll(stream) => of_context(stream),
        Command::TlbiNhAll(vmid) => Screen::Marked(stage(STAGE1, vmid)),
        Command::TlbiNhAsid(vmid, asid) => Screen::Marked(under(
            STAGE_ASID,
            STAGE1 + places::of_vmid(vmid) + places::of_asid(asid),
        )),
        Command::TlbiNhVa(vmid, _, target) => aimed(stage(STAGE1, vmid), target),
        Command::TlbiNhVaa(vmid, target) => aimed(stage(STAGE1, vmid), target),
        Command::TlbiEl2All => Screen::Marked(under(places::KIND, STAGE1)),
        Command::TlbiEl2Asid(asid) => Screen::Marked(under(
            OWN_ASID,
            STAGE1 + EL2_E2H + places::of_asid(asid),
        )),
        Command::TlbiEl2Va(_, target) => aimed(under(OWN, STAGE1 + regime_at(f)), target),
        Command::TlbiEl2Vaa(target) => aimed(under(OWN, STAGE1 + regime_at(f)), target),
        Command::TlbiS12Vmall(vmid) => Screen::Marked(under(
            EITHER_STAGE,
            STAGE1 + places::of_vmid(vmid),
        )),
        Command::TlbiS2Ipa(vmid, target) => aimed(stage(STAGE2, vmid), target),
        Command::TlbiNsnhAll => Screen::Marked(under(ANY_STAGE, STAGE1)),
        Command::Sync(_) => Screen::Nobody,
        Command::DptiAll => Screen::Nobody,
        Command::DptiPa(_, _, _) => Screen::Nobody,
    }
}
