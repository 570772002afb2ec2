// The calls that a line asks for, and what they tell. A call that may store also tells every word afterwards of what it stores to.
use script::{Call, Listed, Refusal, World, accepted};
use std::io::Write;
use std::{fmt, io};

// c asks for the state. b checks, under features, the batch that ends at one byte of the queue beside that which begins at
// another. u runs and tells the second table too. The other letters are those of every script.
#[derive(Clone, Copy)]
pub enum Step {
    State,
    Check(Batches),
    RunOnBoth(Call),
    Call(Call),
}

impl Step {
    pub fn of(letter: u8, w: [u64; 8]) -> Self {
        match letter {
            b'c' => Step::State,
            b'b' => Step::Check(Batches {
                features: w[0],
                end: w[1] as usize,
                start: w[2] as usize,
            }),
            b'u' => Step::RunOnBoth(Call::Run {
                features: w[0],
                allowance: w[1],
            }),
            _ => Step::Call(Call::from_words(letter, w)),
        }
    }

    pub fn make(self, out: &mut impl Write, world: World<'_>) -> io::Result<()> {
        let World { kept, table, queue } = world;
        let world = World {
            kept: &mut *kept,
            table: &mut *table,
            queue,
        };
        match self {
            Step::State => {
                tell(&mut *out, state_of(kept))?;
                writeln!(out)
            }
            Step::Check(batches) => {
                tell(&mut *out, batches.checked(kept, table, queue))?;
                writeln!(out)
            }
            Step::RunOnBoth(call) => {
                tell(&mut *out, call.make(world))?;
                writeln!(out, "; kept{}", Listed(kept))?;
                writeln!(out, "  table{}", Listed(table))
            }
            Step::Call(call) => {
                tell(&mut *out, call.make(world))?;
                match call {
                    Call::Translate(_) => writeln!(out),
                    Call::TableFill { .. } => writeln!(out, "; table{}", Listed(table)),
                    _ => writeln!(out, "; kept{}", Listed(kept)),
                }
            }
        }
    }
}

fn tell<T: fmt::Display + Drop>(out: &mut impl Write, reply: Result<T, Refusal>) -> io::Result<()> {
    match reply {
        Ok(told) => write!(out, "{told}"),
        Err(why) => write!(out, "{why}"),
    }
}

// The state of a kept memory.
#[derive(Clone, Copy)]
struct State {
    rd: u64,
    wr: u64,
    err: u64,
    active: u64,
    enabled: u64,
    used: u64,
}

fn state_of(kept: &[u64]) -> Result<State, Refusal> {
    let mut words = [0; 8];
    let number = host::tahvenno_state(kept, &mut words);
    let w = accepted(number, words)?;
    Ok(State {
        rd: w[0],
        wr: w[1],
        err: w[2],
        active: w[3],
        enabled: w[4],
        used: w[5],
    })
}

// The batch that ends at one byte of the queue, and that which begins at another.
#[derive(Clone, Copy)]
pub struct Batches {
    features: u64,
    end: usize,
    start: usize,
}

impl Batches {
    // Where the queue has no such bytes, nothing is asked.
    fn checked(self, kept: &[u64], table: &[u64], queue: &[u8]) -> Result<Checked, Refusal> {
        let Some(original) = queue.get(..self.end) else {
            return Ok(Checked::Same);
        };
        let Some(proposed) = queue.get(self.start..) else {
            return Ok(Checked::Same);
        };
        let mut words = [0; 8];
        let number = host::tahvenno_check_batch(
            kept,
            table,
            original,
            proposed,
            self.features,
            &mut words,
        );
        Ok(Checked::of(accepted(number, words)?))
    }
}

// What the check of a batch found, both counted from 0.
#[derive(Clone, Copy)]
enum Checked {
    Same,
    Unfit { batch: Batch, command: u64 },
    Differ { row: u64 },
}

#[derive(Clone, Copy)]
enum Batch {
    Original,
    Proposed,
}

impl Checked {
    fn of(w: [u64; 8]) -> Self {
        match w[0] {
            0 => Checked::Same,
            1 => Checked::Unfit {
                batch: if w[1] == 0 {
                    Batch::Original
                } else {
                    Batch::Proposed
                },
                command: w[2],
            },
            _ => Checked::Differ { row: w[1] },
        }
    }
}

impl fmt::Display for State {
    fn fmt<W: fmt::Write>(&self, f: &mut fmt::Formatter<W>) -> fmt::Result {
        let State {
            rd,
            wr,
            err,
            active,
            enabled,
            used,
        } = *self;
        write!(f, "accepted, RD 0x{rd:x}, WR 0x{wr:x}, ERR {err}, ")?;
        write!(f, "active {active}, enabled {enabled}, used {used}")
    }
}

impl fmt::Display for Checked {
    fn fmt<W: fmt::Write>(&self, f: &mut fmt::Formatter<W>) -> fmt::Result {
        match *self {
            Checked::Same => f.write_str("yes"),
            Checked::Unfit { batch, command } => {
                write!(f, "command {command} of the {batch} batch")
            }
            Checked::Differ { row } => write!(f, "row {row} differs"),
        }
    }
}

impl fmt::Display for Batch {
    fn fmt<W: fmt::Write>(&self, f: &mut fmt::Formatter<W>) -> fmt::Result {
        f.write_str(match *self {
            Batch::Original => "original",
            Batch::Proposed => "proposed",
        })
    }
}
