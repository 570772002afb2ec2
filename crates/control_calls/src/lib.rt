// The calls that store only the control word: doorbell, acknowledge, clear pending, enable or disable. Each makes one store, or none.
#![tactic(auto)]

ghost use Rattle.std.specs.Prelude.{◌≡◌};
ghost use Rattle.words.specs.Outcomes.{Gives};
ghost use Rattle.control_calls.specs.Calls.{doorbell, acknowledge, clear_pending, enable};

// Why a doorbell is refused: the image, or an index that WR may not become.
#[derive(Clone, Copy)]
pub enum DoorbellRefusal {
    Image(image::Refusal),
    BadIndex,
}

impl From<image::Refusal> for DoorbellRefusal {
    ghost use Rattle.control_calls.specs.declared.DoorbellRefusal.{DoorbellRefusal};

    ghost from_gives = { λ why e. e ≡ DoorbellRefusal.Image why };

    fn from(why: image::Refusal) -> DoorbellRefusal {
        DoorbellRefusal::Image(why)
    }
}

// Why an acknowledge is refused: the image, or no error to acknowledge.
#[derive(Clone, Copy)]
pub enum AcknowledgeRefusal {
    Image(image::Refusal),
    NoError,
}

impl From<image::Refusal> for AcknowledgeRefusal {
    ghost use Rattle.control_calls.specs.declared.AcknowledgeRefusal.{AcknowledgeRefusal};

    ghost from_gives = { λ why e. e ≡ AcknowledgeRefusal.Image why };

    fn from(why: image::Refusal) -> AcknowledgeRefusal {
        AcknowledgeRefusal::Image(why)
    }
}

// Why clearing is refused: the image, or no interrupt that is pending.
#[derive(Clone, Copy)]
pub enum ClearRefusal {
    Image(image::Refusal),
    NotPending,
}

impl From<image::Refusal> for ClearRefusal {
    ghost use Rattle.control_calls.specs.declared.ClearRefusal.{ClearRefusal};

    ghost from_gives = { λ why e. e ≡ ClearRefusal.Image why };

    fn from(why: image::Refusal) -> ClearRefusal {
        ClearRefusal::Image(why)
    }
}

// WR becomes wr.
pub fn doorbell(kept: &mut [u64], wr: u64) -> Result<(), DoorbellRefusal>
    ensures { Gives (doorbell kept.old wr) kept.new result }
{
    image::check(&*kept)?;
    let w = kept[0];
    if !control_stores::may_ring(w, wr) {
        return Err(DoorbellRefusal::BadIndex);
    }
    kept[0] = control_stores::rung(w, wr);
    Ok(())
}

// GERRORN becomes equal to GERROR; the error code stays to be read.
pub fn acknowledge(kept: &mut [u64]) -> Result<(), AcknowledgeRefusal>
    ensures { Gives (acknowledge kept.old) kept.new result }
{
    image::check(&*kept)?;
    let w = kept[0];
    if !control::active(w) {
        return Err(AcknowledgeRefusal::NoError);
    }
    kept[0] = control_stores::acknowledged(w);
    Ok(())
}

// Document 02, T-08: the completion interrupt is no longer pending.
pub fn clear_pending(kept: &mut [u64]) -> Result<(), ClearRefusal>
    ensures { Gives (clear_pending kept.old) kept.new result }
{
    image::check(&*kept)?;
    let w = kept[0];
    if !(control::pending_of(w) == 1) {
        return Err(ClearRefusal::NotPending);
    }
    kept[0] = control_stores::pended(w, false);
    Ok(())
}

// CMDQEN becomes on; refused for the image only.
pub fn enable(kept: &mut [u64], on: bool) -> Result<(), image::Refusal>
    ensures { Gives (enable kept.old on) kept.new result }
{
    image::check(&*kept)?;
    let w = kept[0];
    kept[0] = control_stores::switched(w, on);
    Ok(())
}
