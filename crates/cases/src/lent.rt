// What the calls are made on, as the lines before them left it.
use script::{Digits, World};
use std::alloc::{AllocError, Global};
use std::io;
use std::io::Read;

// One row more than the most in either table, and one byte more than the longest queue.
const WORDS: usize = 5 + 4 * image::MAX_ROWS;

const TABLE: usize = 2 + 2 * regions::MAX_ROWS;

const BYTES: usize = 1 + (16 << control::MAX_LOG2);

// A kept memory or a queue for which a line asks more than there may be is None, and no call is made on it.
#[derive(Drop)]
pub struct Lent {
    alloc: Global,
    kept: Option<Vec<u64>>,
    table: Vec<u64>,
    queue: Option<Vec<u8>>,
}

impl Lent {
    pub fn new(alloc: Global) -> Result<Self, AllocError> {
        Ok(Lent {
            alloc,
            kept: Some(Vec::with_capacity(alloc, WORDS)?),
            table: vec![in alloc; 0; 2]?,
            queue: Some(Vec::new(alloc)),
        })
    }

    pub fn start_kept(&mut self, digits: Digits<'_, impl Read + Drop>) -> io::Result<()> {
        let mut kept = self.emptied();
        digits.add_to(&mut kept, WORDS)?;
        self.kept = Some(kept);
        Ok(())
    }

    // The kept memory's own Vec, if it is there: it has had room for all that there may be from the beginning.
    fn emptied(&mut self) -> Vec<u64> {
        match self.kept.take() {
            Some(mut kept) => {
                kept.clear();
                kept
            }
            None => Vec::new(self.alloc),
        }
    }

    pub fn add_row(&mut self, digits: Digits<'_, impl Read + Drop>) -> io::Result<()> {
        match &mut self.kept {
            Some(kept) => digits.add_to(kept, WORDS),
            None => digits.pass(),
        }
    }

    pub fn zero_kept(&mut self, digits: Digits<'_, impl Read + Drop>) -> io::Result<()> {
        let w = digits.words::<8>()?;
        let n = w[0] as usize;
        let mut kept = self.emptied();
        if n <= WORDS {
            kept.resize(n, 0)?;
            self.kept = Some(kept);
        }
        Ok(())
    }

    pub fn start_table(&mut self, digits: Digits<'_, impl Read + Drop>) -> io::Result<()> {
        self.table.clear();
        digits.add_to(&mut self.table, TABLE)
    }

    pub fn start_queue(&mut self, digits: Digits<'_, impl Read + Drop>) -> io::Result<()> {
        // the one before goes first, so that there are never two
        self.queue = None;
        self.queue = digits.queue(BYTES)?;
        Ok(())
    }

    pub fn world(&mut self) -> Option<World<'_>> {
        let Some(kept) = &mut self.kept else {
            return None;
        };
        let Some(queue) = &self.queue else {
            return None;
        };
        Some(World {
            kept,
            table: &mut self.table,
            queue,
        })
    }
}
