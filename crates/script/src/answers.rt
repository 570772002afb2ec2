// What a call tells, read from the C interface's numbers, which the header gives.
ghost use Rattle.std.specs.Prelude.{◌≡◌, ◌≢◌};
ghost use Rattle.script.specs.Answers.{refusal, stores, is_cut, unsplit};

use std::fmt;

/// Why a call was refused: its number, and the row or command that some name, counted from 0.
#[derive(Clone, Copy, PartialEq, Eq)]
pub struct Refusal {
    pub number: u64,
    pub place: u64,
}

/// What a call tells that returned 0: its answer's words.
pub fn accepted(number: u64, words: [u64; 8]) -> Result<[u64; 8], Refusal>
    ensures taken { number ≡ 0 → result ≡ Ok words }
    ensures refused { number ≢ 0 → result ≡ Err (refusal number words) }
{
    match number {
        0 => Ok(words),
        _ => Err(Refusal {
            number,
            place: words[0],
        }),
    }
}

#[derive(Clone, Copy, PartialEq, Eq)]
pub enum Answer {
    Ran(Run),
    Filled { end: FillEnd, stores: u64 },
    Recorded { end: RecordEnd, stores: u64 },
    Oldest([u64; 4]),
    Translated(Outcome),

    /// What a transaction met that was asked for by a letter of no call, and isn't told.
    Untold(Outcome),
    Accepted,
}

#[derive(Clone, Copy, PartialEq, Eq)]
pub struct Run {
    pub end: End,
    pub consumed: u64,
    pub stores: u64,
    pub removed: u64,
    pub syncs: u64,
}

#[derive(Clone, Copy, PartialEq, Eq)]
pub enum End {
    Off,
    Held,
    Empty,
    Raised { why: Reason, slot: u64 },
    Cut,
}

#[derive(Clone, Copy, PartialEq, Eq)]
pub enum Reason {
    UnknownCode,
    FeatureAbsent,
    ReservedBit,
    BadParameter,
}

#[derive(Clone, Copy, PartialEq, Eq)]
pub enum FillEnd {
    Filled,
    Cut,
}

#[derive(Clone, Copy, PartialEq, Eq)]
pub enum RecordEnd {
    Stored,
    Dropped,
    Cut,
}

#[derive(Clone, Copy, PartialEq, Eq)]
pub enum Outcome {
    Address(Output),
    Abort,
    Miss(Miss),
}

#[derive(Clone, Copy, PartialEq, Eq)]
pub struct Output {
    pub address: u64,
    pub memattr: u64,
    pub sh: u64,
    pub hints: u64,
    pub instruction: bool,
    pub privileged: bool,
}

#[derive(Clone, Copy, PartialEq, Eq)]
pub enum Miss {
    Ste,
    Cd,
    Stage1,
    Stage2,
}

impl Answer {
    /// How many stores the call made: what tells none makes one, but for a transaction.
    pub fn stores(&self) -> u64
        ensures { result ≡ stores self.now }
    {
        match *self {
            Answer::Ran(run) => run.stores,
            Answer::Filled { stores, .. } => stores,
            Answer::Recorded { stores, .. } => stores,
            Answer::Translated(_) => 0,
            _ => 1,
        }
    }

    pub fn is_cut(&self) -> bool
        ensures { result ≡ is_cut self.now }
    {
        match *self {
            Answer::Ran(run) => run.end == End::Cut,
            Answer::Filled { end, .. } => end == FillEnd::Cut,
            Answer::Recorded { end, .. } => end == RecordEnd::Cut,
            _ => false,
        }
    }

    /// The answer but for a run's four counts, which a cut splits.
    pub fn unsplit(self) -> Self
        ensures { result ≡ unsplit self }
    {
        match self {
            Answer::Ran(run) => Answer::Ran(Run {
                end: run.end,
                consumed: 0,
                stores: 0,
                removed: 0,
                syncs: 0,
            }),
            _ => self,
        }
    }

    pub(crate) fn ran(w: [u64; 8]) -> Self {
        Answer::Ran(Run {
            end: End::of(w[0], w[5], w[6]),
            consumed: w[1],
            stores: w[2],
            removed: w[3],
            syncs: w[4],
        })
    }

    pub(crate) fn filled(w: [u64; 8]) -> Self {
        Answer::Filled {
            end: FillEnd::from(w[0]),
            stores: w[1],
        }
    }

    pub(crate) fn recorded(w: [u64; 8]) -> Self {
        Answer::Recorded {
            end: RecordEnd::from(w[0]),
            stores: w[1],
        }
    }
}

impl End {
    fn of(number: u64, why: u64, slot: u64) -> Self {
        match number {
            0 => End::Off,
            1 => End::Held,
            2 => End::Empty,
            3 => End::Raised {
                why: Reason::from(why),
                slot,
            },
            _ => End::Cut,
        }
    }
}

impl Outcome {
    pub(crate) fn of(w: [u64; 8]) -> Self {
        match w[0] {
            0 => Outcome::Address(Output {
                address: w[1],
                memattr: w[2],
                sh: w[3],
                hints: w[4],
                instruction: w[5] == 1,
                privileged: w[6] == 1,
            }),
            1 => Outcome::Abort,
            miss => Outcome::Miss(Miss::from(miss)),
        }
    }
}

impl From<u64> for Reason {
    fn from(number: u64) -> Self {
        match number {
            1 => Reason::UnknownCode,
            2 => Reason::FeatureAbsent,
            3 => Reason::ReservedBit,
            _ => Reason::BadParameter,
        }
    }
}

impl From<u64> for FillEnd {
    fn from(number: u64) -> Self {
        match number {
            0 => FillEnd::Filled,
            _ => FillEnd::Cut,
        }
    }
}

impl From<u64> for RecordEnd {
    fn from(number: u64) -> Self {
        match number {
            0 => RecordEnd::Stored,
            1 => RecordEnd::Dropped,
            _ => RecordEnd::Cut,
        }
    }
}

impl From<u64> for Miss {
    fn from(number: u64) -> Self {
        match number {
            2 => Miss::Ste,
            3 => Miss::Cd,
            4 => Miss::Stage1,
            _ => Miss::Stage2,
        }
    }
}

impl fmt::Display for Refusal {
    fn fmt<W: fmt::Write>(&self, f: &mut fmt::Formatter<W>) -> fmt::Result {
        let Refusal { number, place } = *self;
        write!(f, "refused {number}")?;
        match number {
            3 | 14 => write!(f, ", row {place}"),
            20 | 21 => write!(f, ", command {place}"),
            _ => Ok(()),
        }
    }
}

impl fmt::Display for Answer {
    fn fmt<W: fmt::Write>(&self, f: &mut fmt::Formatter<W>) -> fmt::Result {
        match *self {
            Answer::Ran(run) => write!(f, "{run}"),
            Answer::Filled { end, stores } => write!(f, "{end}, stores {stores}"),
            Answer::Recorded { end, stores } => write!(f, "{end}, stores {stores}"),
            Answer::Oldest(w) => write!(f, "record {:x} {:x} {:x} {:x}", w[0], w[1], w[2], w[3]),
            Answer::Translated(outcome) => write!(f, "{outcome}"),
            Answer::Untold(_) | Answer::Accepted => f.write_str("accepted"),
        }
    }
}

impl fmt::Display for Run {
    fn fmt<W: fmt::Write>(&self, f: &mut fmt::Formatter<W>) -> fmt::Result {
        let Run {
            end,
            consumed,
            stores,
            removed,
            syncs,
        } = *self;
        write!(
            f,
            "{end}, consumed {consumed}, stores {stores}, removed {removed}, syncs {syncs}"
        )?;
        if let End::Raised { why, slot } = end {
            write!(f, ", {why} in slot {slot}")?;
        }
        Ok(())
    }
}

impl fmt::Display for End {
    fn fmt<W: fmt::Write>(&self, f: &mut fmt::Formatter<W>) -> fmt::Result {
        f.write_str(match *self {
            End::Off => "Off",
            End::Held => "Held",
            End::Empty => "Empty",
            End::Raised { .. } => "Raised",
            End::Cut => "Cut",
        })
    }
}

impl fmt::Display for Reason {
    fn fmt<W: fmt::Write>(&self, f: &mut fmt::Formatter<W>) -> fmt::Result {
        f.write_str(match *self {
            Reason::UnknownCode => "unknown code",
            Reason::FeatureAbsent => "feature absent",
            Reason::ReservedBit => "Reserved bit",
            Reason::BadParameter => "bad parameter",
        })
    }
}

impl fmt::Display for FillEnd {
    fn fmt<W: fmt::Write>(&self, f: &mut fmt::Formatter<W>) -> fmt::Result {
        f.write_str(match *self {
            FillEnd::Filled => "Filled",
            FillEnd::Cut => "Cut",
        })
    }
}

impl fmt::Display for RecordEnd {
    fn fmt<W: fmt::Write>(&self, f: &mut fmt::Formatter<W>) -> fmt::Result {
        f.write_str(match *self {
            RecordEnd::Stored => "Stored",
            RecordEnd::Dropped => "Dropped",
            RecordEnd::Cut => "Cut",
        })
    }
}

impl fmt::Display for Outcome {
    fn fmt<W: fmt::Write>(&self, f: &mut fmt::Formatter<W>) -> fmt::Result {
        match *self {
            Outcome::Address(output) => write!(f, "{output}"),
            Outcome::Abort => f.write_str("abort"),
            Outcome::Miss(miss) => write!(f, "{miss}"),
        }
    }
}

impl fmt::Display for Output {
    fn fmt<W: fmt::Write>(&self, f: &mut fmt::Formatter<W>) -> fmt::Result {
        let Output {
            address,
            memattr,
            sh,
            hints,
            instruction,
            privileged,
        } = *self;
        let what = if instruction { "instruction" } else { "data" };
        let who = if privileged {
            "privileged"
        } else {
            "unprivileged"
        };
        write!(
            f,
            "address {address:x}, MemAttr {memattr:x}, SH {sh:x}, hints {hints:x}, {what}, {who}"
        )
    }
}

impl fmt::Display for Miss {
    fn fmt<W: fmt::Write>(&self, f: &mut fmt::Formatter<W>) -> fmt::Result {
        f.write_str(match *self {
            Miss::Ste => "miss STE",
            Miss::Cd => "miss CD",
            Miss::Stage1 => "miss stage 1",
            Miss::Stage2 => "miss stage 2",
        })
    }
}
