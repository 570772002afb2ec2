// One transaction: the STE row, its overrides, stage 1, stage 2, and the attributes as they leave.
#![tactic(auto)]

mod steps;

ghost use Rattle.std.specs.Prelude.{◌≡◌};
ghost use Rattle.transactions.specs.Call.{translate};

use attributes::Attributes;

// What comes in.
#[derive(Clone, Copy)]
pub struct Transaction {
    pub stream: u64,
    pub substream: u64,
    pub address: u64,
    pub write: bool,
    pub attributes: Attributes,
    pub instruction: bool,
    pub privileged: bool,
}

// What a stage hands to the next.
#[derive(Clone, Copy)]
pub struct Access {
    pub address: u64,
    pub attributes: Attributes,
}

// What goes out.
#[derive(Clone, Copy)]
pub struct Output {
    pub address: u64,
    pub attributes: Attributes,
    pub instruction: bool,
    pub privileged: bool,
}

// The row that was looked for and is not there.
#[derive(Clone, Copy)]
pub enum Miss {
    Ste,
    Cd,
    Stage1,
    Stage2,
}

#[derive(Clone, Copy)]
pub enum Outcome {
    Translated(Output),
    Abort,
    Missed(Miss),
}

// Why a transaction is refused: the image, or its own attributes.
#[derive(Clone, Copy)]
pub enum TransactionRefusal {
    Image(image::Refusal),
    IllFormed,
}

impl From<image::Refusal> for TransactionRefusal {
    ghost use Rattle.transactions.specs.declared.TransactionRefusal.{TransactionRefusal};

    ghost from_gives = { λ why e. e ≡ TransactionRefusal.Image why };

    fn from(why: image::Refusal) -> TransactionRefusal {
        TransactionRefusal::Image(why)
    }
}

// Translates on an accepted image. Nothing is looked up before the attributes are known to be well formed.
pub fn translate(kept: &[u64], t: Transaction) -> Result<Outcome, TransactionRefusal>
    ensures { result ≡ translate kept.now t }
{
    image::check(kept)?;
    if !attributes::well_formed(t.attributes) {
        return Err(TransactionRefusal::IllFormed);
    }
    Ok(steps::translated(kept, t))
}
