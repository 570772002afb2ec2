// Document 02, T-10: several commands written into the free slots of the queue. The doorbell is rung after the last byte.
#![tactic(auto)]

mod placing;

ghost use Rattle.std.specs.Prelude.{◌≡◌, ◌*◌, ◌^◌, ◌≤◌, ◌<◌, length, set};
ghost use Rattle.words.specs.Outcomes.{Gives};
ghost use Rattle.writer.specs.Layouts.{wide};
ghost use Rattle.batch_writes.specs.Batch.{lent, commands_in, judged_at, judged_from, free_in, moved_on, write_batch};

use commands::{Coded, Features};
use image::Refusal;
use writer::Fault;

// Why a batch is refused: the image, the queue's length, a command, or too few free slots.
#[derive(Clone, Copy)]
pub enum BatchRefusal {
    Image(Refusal),
    BadQueue,
    BadCommand(usize, Fault),
    NoRoom,
}

impl From<Refusal> for BatchRefusal {
    ghost use Rattle.batch_writes.specs.declared.BatchRefusal.{BatchRefusal};

    ghost from_gives = { λ why e. e ≡ BatchRefusal.Image why };

    fn from(why: Refusal) -> BatchRefusal {
        BatchRefusal::Image(why)
    }
}

// How many commands there are, a last one that is not whole among them.
fn commands_in(commands: &[u64]) -> usize
    ensures { result ≡ commands_in commands.now }
{
    let n = commands.len() / writer::WIDE;
    if commands.len() % writer::WIDE == 0 {
        return n;
    }
    n + 1
}

fn judge_at(f: Features, commands: &[u64], i: usize) -> Result<Coded, Fault>
    requires { wide * i ≤ length commands.now }
    ensures { result ≡ judged_at f commands.now i }
{
    let at = writer::WIDE * i;
    if commands.len() - at < writer::WIDE {
        return Err(Fault::Unfit);
    }
    let end = at + writer::WIDE;
    writer::judge(f, &commands[at..end])
}

// Refuses the first bad command.
fn first_bad(f: Features, commands: &[u64], n: usize) -> Result<(), BatchRefusal>
    requires { n ≡ commands_in commands.now }
    ensures { result ≡ judged_from f commands.now n 0 }
{
    for i in 0..n {
        if let Err(why) = judge_at(f, commands, i) {
            return Err(BatchRefusal::BadCommand(i, why));
        }
    }
    Ok(())
}

fn free_in(w: u64) -> u64
    ensures { result ≡ free_in w }
{
    let n = control::log2size_of(w);
    let waiting = indexes::distance(n, control::rd_of(w), control::wr_of(w));
    let slots = words::power(n);
    if slots < waiting {
        return 0;
    }
    slots - waiting
}

// The doorbell: the one store to the control word.
fn ring(kept: &mut [u64], w: u64, n: u64)
    requires { (0 < length kept.old) × (n < 2 ^ 32) }
    ensures { kept.new ≡ set kept.old 0 (moved_on w n) }
{
    let next = (control::wr_of(w) + n) % words::power(control::log2size_of(w) + 1);
    kept[0] = control_stores::rung(w, next);
}

// Writes the commands into the slots from WR on, and moves WR on.
pub fn write_batch(
    kept: &mut [u64],
    queue: &mut [u8],
    commands: &[u64],
    f: Features,
) -> Result<(), BatchRefusal>
    ensures { Gives (write_batch f commands.now (lent kept.old queue.old)) (lent kept.new queue.new) result }
{
    image::check(&*kept)?;
    let w = kept[0];
    if !runs::queue_good(&*queue, w) {
        return Err(BatchRefusal::BadQueue);
    }
    let n = commands_in(commands);
    first_bad(f, commands, n)?;
    if free_in(w) < n as u64 {
        return Err(BatchRefusal::NoRoom);
    }
    placing::place(&mut *queue, commands, w, n);
    ring(&mut *kept, w, n as u64);
    Ok(())
}
