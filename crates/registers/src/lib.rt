// The control fields unpacked, lent by reference: acknowledging changes them in place.
#![tactic(auto)]

ghost use Rattle.std.specs.Prelude.{◌≡◌};
ghost use Rattle.registers.specs.Registers.{packed, fits, decided, Acknowledges};

use control::{Fields, places};

// Why an acknowledge is refused: the fields make no well-formed word, or no error is active.
#[derive(Clone, Copy)]
pub enum RegistersRefusal {
    IllFormed,
    NoError,
}

// What is answered, and GERRORN then: a value also where an acknowledge is refused, so no Result alone (definition `decided`).
#[derive(Clone, Copy)]
pub struct Decision {
    pub answer: Result<(), RegistersRefusal>,
    pub gerrorn: u64,
}

// The word that the fields make. What a field has above its part's width is left out.
#[tactic(auto, unfolding(crate::specs::Registers::packed))]
pub fn pack(f: Fields) -> u64
    ensures { result ≡ packed f }
{
    let rd = places::RD.put(0, f.rd);
    let wr = places::WR.put(rd, f.wr);
    let err = places::ERR.put(wr, f.err);
    let gerror = places::GERROR.put(err, f.gerror);
    let gerrorn = places::GERRORN.put(gerror, f.gerrorn);
    let cmdqen = places::CMDQEN.put(gerrorn, f.cmdqen);
    let log2size = places::LOG2SIZE.put(cmdqen, f.log2size);
    places::PENDING.put(log2size, f.pending)
}

// Each field within its part's width.
#[tactic(auto, unfolding(crate::specs::Registers::fits))]
fn fits(f: Fields) -> bool
    ensures { result ≡ fits f }
{
    places::RD.fits(f.rd)
        & places::WR.fits(f.wr)
        & places::ERR.fits(f.err)
        & places::GERROR.fits(f.gerror)
        & places::GERRORN.fits(f.gerrorn)
        & places::CMDQEN.fits(f.cmdqen)
        & places::LOG2SIZE.fits(f.log2size)
        & places::PENDING.fits(f.pending)
}

// The rule, on the fields by value.
#[tactic(auto, unfolding(crate::specs::Registers::decided, crate::specs::Registers::formed))]
pub fn decide(f: Fields) -> Decision
    ensures { result ≡ decided f }
{
    let w = pack(f);
    if !(fits(f) & control::well_formed(w)) {
        return Decision {
            answer: Err(RegistersRefusal::IllFormed),
            gerrorn: f.gerrorn,
        };
    }
    if !control::active(w) {
        return Decision {
            answer: Err(RegistersRefusal::NoError),
            gerrorn: f.gerrorn,
        };
    }
    Decision {
        answer: Ok(()),
        gerrorn: f.gerror,
    }
}

// Only GERRORN is stored, also on a refusal, which stores what was there.
pub fn acknowledge(r: &mut Fields) -> Result<(), RegistersRefusal>
    ensures { Acknowledges r.old r.new result }
{
    let d = decide(*r);
    r.gerrorn = d.gerrorn;
    d.answer
}
