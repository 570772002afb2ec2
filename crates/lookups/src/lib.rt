// Which row answers a step of a transaction: the lowest last-level, unmarked row that fits what the step wants.
#![tactic(auto)]

ghost use Rattle.std.specs.Prelude.{◌≡◌, ◌+◌, ◌*◌, ◌≤◌, length};
ghost use Rattle.image.specs.Image.{rows_in};
ghost use Rattle.lookups.specs.Lookups.{fits, answers, answers_at, screen_of, find, look};

use rows::{Kind, Row};
use screens::{Screen, answering, places, under};

// What a step looks for: the STE row of a stream, the CD row of a stream and a substream, the stage 1 row of a VMID,
// an ASID and an address, the stage 2 row of a VMID and an address.
#[derive(Clone, Copy)]
pub enum Wanted {
    Ste { stream: u64 },
    Cd { stream: u64, substream: u64 },
    Stage1 { vmid: u64, asid: u64, address: u64 },
    Stage2 { vmid: u64, address: u64 },
}

#[tactic(auto, using(rows::proofs::Numbers::same_kind, rows::proofs::Numbers::kind_read), unfolding(crate::specs::Lookups::fits, rows::specs::Rows::parts_of))]
fn fits(w: Wanted, row: Row) -> bool
    ensures { result ≡ fits w row }
{
    let p = rows::parts_of(row);
    match w {
        Wanted::Ste { stream } => (p.kind == Kind::Ste) & (p.stream == stream),
        Wanted::Cd { stream, substream } => {
            (p.kind == Kind::Cd) & (p.stream == stream) & (p.substream == substream)
        }
        Wanted::Stage1 {
            vmid,
            asid,
            address,
        } => {
            (p.kind == Kind::Stage1)
                & (p.vmid == vmid)
                & (p.global | (p.asid == asid))
                & rows::covers(row, address)
        }
        Wanted::Stage2 { vmid, address } => {
            (p.kind == Kind::Stage2) & (p.vmid == vmid) & rows::covers(row, address)
        }
    }
}

// A row that is not last-level never answers, nor does a marked one, nor an empty one, whose word 0 is 0.
fn answers(w: Wanted, row: Row) -> bool
    ensures { result ≡ answers w row }
{
    rows::may_answer(row) & fits(w, row)
}

fn answers_at(kept: &[u64], w: Wanted, i: usize) -> bool
    requires { 4 * i + 5 ≤ length kept.now }
    ensures { result ≡ answers_at kept.now w i }
{
    answers(w, image::row_at(kept, i))
}

// What a row must be like to answer.
fn screen_of(w: Wanted) -> Screen
    ensures { result ≡ screen_of w }
{
    match w {
        Wanted::Ste { stream } => answering::of_stream(answering::STE, stream),
        Wanted::Cd { stream, .. } => answering::of_stream(answering::CD, stream),
        Wanted::Stage1 { vmid, address, .. } => Screen::Covering {
            word0: under(
                answering::KIND_VMID,
                answering::STAGE1 + places::of_vmid(vmid),
            ),
            address,
        },
        Wanted::Stage2 { vmid, address } => Screen::Covering {
            word0: under(
                answering::KIND_VMID,
                answering::STAGE2 + places::of_vmid(vmid),
            ),
            address,
        },
    }
}

// The place of the lowest row that answers.
fn find(kept: &[u64], w: Wanted) -> Option<usize>
    requires { 4 * rows_in kept.now + 1 ≤ length kept.now }
    ensures { result ≡ find kept.now w }
{
    let s = screen_of(w);
    screens::find(kept, s, 0, kept.len() / 4, |i| answers_at(kept, w, i))
}

// The lowest row that answers.
pub fn look(kept: &[u64], w: Wanted) -> Option<Row>
    requires { 4 * rows_in kept.now + 1 ≤ length kept.now }
    ensures { result ≡ look kept.now w }
{
    let i = find(kept, w)?;
    Some(image::row_at(kept, i))
}
