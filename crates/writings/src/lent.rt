// What the calls are made on, as the lines before them left it.
use script::Digits;
use std::alloc::Global;
use std::io;
use std::io::Read;

// One row more than the most, and one byte more than the longest queue.
const WORDS: usize = 5 + 4 * image::MAX_ROWS;

const BYTES: usize = 1 + (16 << control::MAX_LOG2);

// The words of a command, and of a batch that a case may have.
const COMMAND: usize = 16;

const BATCH: usize = COMMAND * 32;

// A queue for which a line asks more bytes than there may be is None, and no call is made on it.
#[derive(Drop)]
pub struct Lent {
    alloc: Global,
    pub kept: Vec<u64>,
    pub queue: Option<Vec<u8>>,
    pub batch: Vec<u64>,
}

impl Lent {
    pub fn new(alloc: Global) -> Self {
        Lent {
            alloc,
            kept: Vec::new(alloc),
            queue: Some(Vec::new(alloc)),
            batch: Vec::new(alloc),
        }
    }

    pub fn start_kept(&mut self, digits: Digits<'_, impl Read + Drop>) -> io::Result<()> {
        self.kept.clear();
        self.add_row(digits)
    }

    pub fn add_row(&mut self, digits: Digits<'_, impl Read + Drop>) -> io::Result<()> {
        digits.add_to(&mut self.kept, WORDS)
    }

    pub fn start_queue(&mut self, digits: Digits<'_, impl Read + Drop>) -> io::Result<()> {
        // the one before goes first, so that there are never two
        self.queue = None;
        self.queue = digits.queue(BYTES)?;
        Ok(())
    }

    pub fn start_batch(&mut self, digits: Digits<'_, impl Read + Drop>) -> io::Result<()> {
        self.batch.clear();
        self.add_command(digits)
    }

    // The words, filled up with zeros to whole commands.
    pub fn add_command(&mut self, digits: Digits<'_, impl Read + Drop>) -> io::Result<()> {
        self.add_words(digits)?;
        let words = self.batch.len().next_multiple_of(COMMAND);
        self.batch.resize(words, 0)?;
        Ok(())
    }

    pub fn add_words(&mut self, digits: Digits<'_, impl Read + Drop>) -> io::Result<()> {
        digits.add_to(&mut self.batch, BATCH)
    }
}
