// Document 02, T-10: commands that fit, each in its slot.
ghost use Rattle.std.specs.Prelude.{◌≡◌, ◌+◌, ◌*◌, ◌^◌, ◌≤◌, ◌<◌, length};
ghost use Rattle.control.specs.Control.{log2size};
ghost use Rattle.writer.specs.Layouts.{wide};
ghost use Rattle.writer.specs.Writing.{slot_size, encoded, split, with_command};
ghost use Rattle.batch_writes.specs.Batch.{words_of, slot_at, placed};

fn slot_at(w: u64, i: u64) -> u64
    requires { i < 2 ^ 32 }
    ensures { result ≡ slot_at w i }
{
    indexes::slot(control::log2size_of(w), control::wr_of(w) + i)
}

// Command i into its slot.
fn place_one(queue: &mut [u8], commands: &[u64], w: u64, i: usize)
    requires { (length queue.old ≡ slot_size * 2 ^ log2size w) × (wide * i + wide ≤ length commands.now) × (i < 2 ^ 32) }
    ensures { queue.new ≡ with_command queue.old (slot_size * slot_at w i) (split (encoded (words_of commands.now i))) }
{
    let at = writer::WIDE * i;
    let end = at + writer::WIDE;
    let c = writer::encode(&commands[at..end]);
    let slot = slot_at(w, i as u64) as usize;
    writer::store_at(&mut *queue, writer::SLOT * slot, c);
}

// The first n commands.
pub fn place(queue: &mut [u8], commands: &[u64], w: u64, n: usize)
    requires { (length queue.old ≡ slot_size * 2 ^ log2size w) × (wide * n ≤ length commands.now) × (n < 2 ^ 32) }
    ensures { queue.new ≡ placed commands.now w queue.old n }
{
    for i in 0..n {
        place_one(&mut *queue, commands, w, i);
    }
}
