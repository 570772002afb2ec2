// The files of a dump, as bytes and as words.
ghost use Rattle.std.specs.Prelude.{◌-◌, ◌*◌, ◌≤◌, IfOk, length, vec_len};

use rows::Row;
use std::alloc::Global;
use std::io::{Read, Write};
use std::rt::Files;
use std::{fs, io};
use text::Hex;

// The words of the largest kept memory, second table and recorder, and the bytes of the longest queue.
pub const KEPT: usize = 1 + 4 * image::MAX_ROWS;

pub const TABLE: usize = 2 * regions::MAX_ROWS;

pub const EVENTS: usize = 1 + (4 << events::MAX_LOG2);

pub const QUEUE: usize = 16 << control::MAX_LOG2;

// The most bytes that are read of a queue, which shows that one is too long, and of a file of words, which are more than any has.
pub const QUEUE_READ: u64 = 1 + QUEUE as u64;

const WORDS_READ: u64 = 65536;

// The bytes of a word.
pub const WORD: usize = 8;

// A file of words: those that have a place, and how many bytes were read.
#[derive(Drop)]
pub struct Words {
    pub words: Vec<u64>,
    pub bytes: usize,
}

// What was read of each file that was given.
#[derive(Drop)]
pub struct Dump {
    pub kept: Words,
    pub queue: Option<Vec<u8>>,
    pub table: Option<Words>,
    pub events: Option<Words>,
}

impl Words {
    // Whether the file is these words and no byte more.
    pub fn is_whole(&self) -> bool {
        (self.bytes / WORD == self.words.len()) & (self.bytes % WORD == 0)
    }

    // What a call is lent of the file: no word of one that is not whole, so that the unit refuses its length.
    pub fn lent(&self) -> &[u64] {
        if self.is_whole() { &self.words } else { &[] }
    }
}

// Reads a file, up to so many bytes.
pub fn read_bytes(rt: &impl Files, alloc: Global, name: &str, most: u64) -> io::Result<Vec<u8>> {
    let mut bytes = Vec::new(alloc);
    fs::open(rt, name)?.take(most).read_to_end(&mut bytes)?;
    Ok(bytes)
}

// Reads a file's whole words, up to so many.
pub fn read_words(rt: &impl Files, alloc: Global, name: &str, most: usize) -> io::Result<Words>
    ensures { IfOk result (λ file. vec_len file.words ≤ most) }
{
    let bytes = read_bytes(rt, alloc, name, WORDS_READ)?;
    let (words, _) = bytes.as_chunks::<WORD>();
    Ok(Words {
        words: words
            .iter()
            .take(most)
            .map(|word| u64::from_le_bytes(*word))
            .collect(alloc)?,
        bytes: bytes.len(),
    })
}

// What a part of the dump begins with: its name, and how many bytes its file has, if it is given.
pub fn heading_told(
    out: &mut impl Write,
    name: &str,
    bytes: Option<usize>,
    most: usize,
) -> io::Result<()> {
    match bytes {
        None => writeln!(out, "\n{name}: not given"),
        Some(n) if most < n => writeln!(
            out,
            "\n{name}: more than {most} bytes, which are the most; those are shown"
        ),
        Some(n) => writeln!(out, "\n{name}: {n} bytes"),
    }
}

// Tells the words behind the last whole row, or slot, and the bytes behind the last whole word.
pub fn rest_told(out: &mut impl Write, rest: &[u64], bytes: usize) -> io::Result<()> {
    if !rest.is_empty() {
        writeln!(
            out,
            "  words behind the last whole one, in hex:{}",
            Hex(rest)
        )?;
    }
    match bytes % WORD {
        0 => Ok(()),
        n => writeln!(out, "  bytes behind the last whole word: {n}"),
    }
}

// The whole rows, or slots, of four words that stand behind the first word, and the words behind them.
pub fn fours(words: &[u64]) -> (&[[u64; 4]], &[u64])
    ensures { 4 * length result.0.now ≤ length words.now - 1 }
{
    words.get(1..).unwrap_or(&[]).as_chunks()
}

pub fn row_of(four: &[u64; 4]) -> Row {
    let [w0, w1, w2, w3] = *four;
    Row { w0, w1, w2, w3 }
}
