// One run over the command queue.
#![tactic(auto)]

mod running;

ghost use Rattle.std.specs.Prelude.{◌≡◌};
ghost use Rattle.words.specs.Outcomes.{Gives};
ghost use Rattle.memory.specs.Memory.{both};
ghost use Rattle.runs.specs.Call.{call};

use commands::Features;
use due::Raising;
use image::Refusal;
pub use running::queue_good;

// Why a run ended; the error that it raised tells its reason and its slot.
#[derive(Clone, Copy)]
pub enum End {
    Off,
    Held,
    Empty,
    Raised(Raising),
    Cut,
}

// What a run did, counted: commands, stores, rows that went, and among the commands the CMD_SYNCs with CS 1.
#[derive(Clone, Copy)]
pub struct Ran {
    pub end: End,
    pub consumed: u64,
    pub stores: u64,
    pub removed: u64,
    pub syncs: u64,
}

// Why a run is refused: the image, the second table, or the queue's length.
#[derive(Clone, Copy)]
pub enum RunRefusal {
    Image(Refusal),
    Table(regions::Refusal),
    BadQueue,
}

impl From<Refusal> for RunRefusal {
    ghost use Rattle.runs.specs.declared.RunRefusal.{RunRefusal};

    ghost from_gives = { λ why e. e ≡ RunRefusal.Image why };

    fn from(why: Refusal) -> RunRefusal {
        RunRefusal::Image(why)
    }
}

impl From<regions::Refusal> for RunRefusal {
    ghost use Rattle.runs.specs.declared.RunRefusal.{RunRefusal};

    ghost from_gives = { λ why e. e ≡ RunRefusal.Table why };

    fn from(why: regions::Refusal) -> RunRefusal {
        RunRefusal::Table(why)
    }
}

// Carries out the commands that wait, with at most allowance stores.
pub fn run(
    kept: &mut [u64],
    table: &mut [u64],
    queue: &[u8],
    f: Features,
    allowance: u64,
) -> Result<Ran, RunRefusal>
    ensures { Gives (call f queue.now allowance (both kept.old table.old)) (both kept.new table.new) result }
{
    image::check(&*kept)?;
    regions::check(&*table)?;
    if !running::queue_good(queue, kept[0]) {
        return Err(RunRefusal::BadQueue);
    }
    let ran = running::go(&mut *kept, &mut *table, queue, f, allowance);
    Ok(ran)
}
