// The calls that a line asks for by its letter. They are made through the C interface, but for a transaction's.
ghost use Rattle.std.specs.Prelude.{◌≡◌, ℕ, IfOk, List};
ghost use Rattle.script.specs.Calls.{access, allowing, asked, is_of_recorder};

use crate::answers::{Answer, Outcome, Refusal, accepted};
use crate::lines::{Line, store};
use attributes::Attributes;
use interface::Tells;
use std::alloc::AllocError;

/// r runs; f fills a row of the kept memory, g one of the second table; d rings with a WR; a acknowledges; p clears the pending
/// bit; e enables or disables; t translates. Of a recorder w writes a record, o reads the oldest, x acknowledges.
#[derive(Clone, Copy)]
pub enum Call {
    Run {
        features: u64,
        allowance: u64,
    },
    Fill {
        row: u64,
        words: [u64; 4],
        allowance: u64,
    },
    TableFill {
        row: u64,
        words: [u64; 2],
        allowance: u64,
    },
    Doorbell {
        wr: u64,
    },
    Acknowledge,
    ClearPending,
    Enable {
        on: u64,
    },
    EventWrite {
        words: [u64; 4],
        allowance: u64,
    },
    EventRead,
    EventAcknowledge,
    Translate(Access),

    /// Any other letter is a transaction's too, whose outcome isn't told.
    Other(Access),
}

/// A transaction as C asks for it. How: 1 write, 2 instruction, 4 privileged.
#[derive(Clone, Copy)]
pub struct Access {
    pub stream: u64,
    pub substream: u64,
    pub address: u64,
    pub how: u64,
    pub attributes: Attributes,
}

/// What a call is made on. A recorder is lent in the kept memory's place.
#[derive(Drop)]
pub struct World<'a> {
    pub kept: &'a mut [u64],
    pub table: &'a mut [u64],
    pub queue: &'a [u8],
}

impl Call {
    /// The call that a line asks for. Fails where there is no memory for the line's words.
    pub fn of(line: &Line) -> Result<Self, AllocError>
        ensures { IfOk result (λ call. (w : List ℕ) × (call ≡ asked line.now.letter w)) }
    {
        Ok(Call::from_words(line.letter, line.words()?))
    }

    /// The call that a line asks for by its letter and its words.
    pub fn from_words(letter: u8, w: [u64; 8]) -> Self
        ensures { result ≡ asked letter w }
    {
        match letter {
            b'r' => Call::Run {
                features: w[0],
                allowance: w[1],
            },
            b'f' => Call::Fill {
                row: w[0],
                words: [w[1], w[2], w[3], w[4]],
                allowance: w[5],
            },
            b'g' => Call::TableFill {
                row: w[0],
                words: [w[1], w[2]],
                allowance: w[3],
            },
            b'd' => Call::Doorbell { wr: w[0] },
            b'a' => Call::Acknowledge,
            b'p' => Call::ClearPending,
            b'e' => Call::Enable { on: w[0] },
            b'w' => Call::EventWrite {
                words: [w[0], w[1], w[2], w[3]],
                allowance: w[4],
            },
            b'o' => Call::EventRead,
            b'x' => Call::EventAcknowledge,
            b't' => Call::Translate(Access::of(w)),
            _ => Call::Other(Access::of(w)),
        }
    }

    /// The same call with another allowance, if it has one, and so can end Cut.
    pub fn allowing(self, allowance: u64) -> Option<Self>
        ensures { result ≡ allowing allowance self }
    {
        match self {
            Call::Run { features, .. } => Some(Call::Run {
                features,
                allowance,
            }),
            Call::Fill { row, words, .. } => Some(Call::Fill {
                row,
                words,
                allowance,
            }),
            Call::TableFill { row, words, .. } => Some(Call::TableFill {
                row,
                words,
                allowance,
            }),
            Call::EventWrite { words, .. } => Some(Call::EventWrite { words, allowance }),
            _ => None,
        }
    }

    pub fn is_of_recorder(self) -> bool
        ensures { result ≡ is_of_recorder self }
    {
        matches!(
            self,
            Call::EventWrite { .. } | Call::EventRead | Call::EventAcknowledge
        )
    }

    pub fn make(self, world: World<'_>) -> Result<Answer, Refusal> {
        let mut words = [0; 8];
        let number = self.told(world, &mut words);
        accepted(number, words)?;
        Ok(match self {
            Call::Run { .. } => Answer::ran(words),
            Call::Fill { .. } | Call::TableFill { .. } => Answer::filled(words),
            Call::EventWrite { .. } => Answer::recorded(words),
            Call::EventRead => Answer::Oldest([words[0], words[1], words[2], words[3]]),
            Call::Translate(_) => Answer::Translated(Outcome::of(words)),
            Call::Other(_) => Answer::Untold(Outcome::of(words)),
            _ => Answer::Accepted,
        })
    }

    // What the C interface tells: the number that it returns, and its answer's words.
    fn told(self, world: World<'_>, answer: &mut [u64; 8]) -> u64 {
        let World { kept, table, queue } = world;
        match self {
            Call::Run {
                features,
                allowance,
            } => host::tahvenno_run(kept, table, queue, features, allowance, answer),
            Call::Fill {
                row,
                words: w,
                allowance,
            } => host::tahvenno_fill(kept, row, w[0], w[1], w[2], w[3], allowance, answer),
            Call::TableFill {
                row,
                words: w,
                allowance,
            } => host::tahvenno_table_fill(kept, table, row, w[0], w[1], allowance, answer),
            Call::Doorbell { wr } => host::tahvenno_doorbell(kept, wr, answer),
            Call::Acknowledge => host::tahvenno_acknowledge(kept, answer),
            Call::ClearPending => host::tahvenno_clear_pending(kept, answer),
            Call::Enable { on } => host::tahvenno_enable(kept, on, answer),
            Call::EventWrite { words, allowance } => {
                let mut bytes = [0; 32];
                store(&words, &mut bytes);
                host::tahvenno_event_write(kept, &bytes, allowance, answer)
            }
            Call::EventRead => host::tahvenno_event_read(kept, answer),
            Call::EventAcknowledge => host::tahvenno_event_acknowledge(kept, answer),
            Call::Translate(access) => access.told(kept, answer),
            Call::Other(access) => access.told(kept, answer),
        }
    }
}

impl Access {
    fn of(w: [u64; 8]) -> Self
        ensures { result ≡ access w }
    {
        Access {
            stream: w[0],
            substream: w[1],
            address: w[2],
            how: w[3],
            attributes: Attributes {
                memattr: w[4],
                sh: w[5],
                hints: w[6],
            },
        }
    }

    // C's StreamID and SubstreamID have 32 bits, and the unit takes wider ones too, so they are put in behind.
    fn told(self, kept: &[u64], answer: &mut [u64; 8]) -> u64 {
        let mut t = interface::transaction_of(0, 0, self.address, self.how, self.attributes);
        t.stream = self.stream;
        t.substream = self.substream;
        let reply = transactions::translate(kept, t).reply();
        let words = reply.words;
        *answer = words;
        reply.code
    }
}

#[cfg(test)]
mod tests {
    use super::*;
    use crate::lines::Lines;
    use std::io;
    use std::test::Fail;

    fn next(lines: &mut Lines<&[u8]>) -> io::Result<Option<Call>> {
        let Some(line) = lines.read()? else {
            return Ok(None);
        };
        Ok(Some(Call::of(&line)?))
    }

    #[test]
    fn asks_for_calls(rt: HostRuntime) -> Result<(), Fail> {
        let script = b"r run: 73 8\nt asks: 1 2 3 4 5 6 7";
        let mut lines = Lines::new(rt.alloc(), script.as_slice())?;
        let ran = matches!(
            next(&mut lines)?,
            Some(Call::Run {
                features: 0x73,
                allowance: 8
            })
        );
        assert_eq!(rt; ran, true);
        let Some(Call::Translate(access)) = next(&mut lines)? else {
            return Err(Fail::new("no transaction"));
        };
        let Attributes { memattr, sh, hints } = access.attributes;
        assert_eq!(rt;
            [
                access.stream,
                access.substream,
                access.address,
                access.how,
                memattr,
                sh,
                hints
            ],
            [1, 2, 3, 4, 5, 6, 7]
        );
        assert_eq!(rt; next(&mut lines)?.is_none(), true);
        Ok(())
    }
}
