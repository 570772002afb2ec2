// Lines of a script: a letter, a space, what the line is about, a colon, and words in hex, each behind a space. A line is read whole
// and kept, as a Line, or a byte at a time with none kept, as a Begun, so that it may be as long as one likes. What a Begun is about
// gives its words, Digits, which have to be used, so that what is left of the one or the other isn't taken for what follows. `leave`
// lets a line go unread, where nothing more of the input is wanted.
ghost use Rattle.std.specs.Prelude.{◌<◌, ◌≤◌, IfOk, IfSome, max, vec_len};

use std::alloc::{AllocError, Global};
use std::io::{BufRead, BufReader, Read, Write};
use std::{fmt, io};

/// The lines of an input, which ends at a byte 0 too.
#[derive(Drop)]
pub struct Lines<R> {
    input: BufReader<R>,
    alloc: Global,
}

impl<R: Read + Drop> Lines<R> {
    pub fn new(alloc: Global, input: R) -> io::Result<Self> {
        let input = BufReader::new(alloc, input)?;
        Ok(Lines { input, alloc })
    }

    /// The next line, whole. None at the end of the input. Fails where the input does, and where there is no memory for the line.
    pub fn read(&mut self) -> io::Result<Option<Line>>
        ensures letter { IfOk result (λ r. IfSome r (λ line. 0 < line.letter)) }
    {
        let Some(letter) = self.byte()? else {
            return Ok(None);
        };
        self.byte()?;
        let about = self.until(b':')?;
        let digits = self.until(b'\n')?;
        Ok(Some(Line {
            letter,
            about,
            digits,
        }))
    }

    /// The next line, whose letter alone is read. None at the end of the input.
    pub fn begin(&mut self) -> io::Result<Option<Begun<'_, R>>>
        ensures letter { IfOk result (λ r. IfSome r (λ line. 0 < line.letter)) }
    {
        let Some(letter) = self.byte()? else {
            return Ok(None);
        };
        Ok(Some(Begun {
            letter,
            lines: self,
        }))
    }

    fn byte(&mut self) -> io::Result<Option<u8>>
        ensures above_0 { IfOk result (λ r. IfSome r (λ b. 0 < b)) }
    {
        let Some(byte) = self.input.fill_buf()?.first().copied() else {
            return Ok(None);
        };
        self.input.consume(1);
        Ok(Some(byte).filter(|b| *b != 0))
    }

    // The next byte of a part, or None where the part ends: at the byte that ends it, or with the input.
    fn byte_before(&mut self, end: u8) -> io::Result<Option<u8>> {
        Ok(self.byte()?.filter(|b| *b != end))
    }

    // The bytes before one that ends them, or before the input's end.
    fn until(&mut self, end: u8) -> io::Result<Vec<u8>> {
        let mut text = Vec::new(self.alloc);
        for _ in 0..u64::MAX {
            let Some(b) = self.byte_before(end)? else {
                break;
            };
            text.push(b)?;
        }
        Ok(text)
    }
}

/// A line that is read whole and kept. Its words are read as often as one likes, once it is known how many there is room for.
#[derive(Drop)]
pub struct Line {
    pub letter: u8,
    about: Vec<u8>,
    digits: Vec<u8>,
}

impl Line {
    /// Says what the line is about.
    pub fn tell(&self, out: &mut impl Write) -> io::Result<()> {
        out.write_all(&self.about)?;
        out.write_all(b": ")
    }

    /// Puts the words behind those that are there, up to a limit: a space begins a word, and a digit goes to the end of the last.
    pub fn add_to(&self, words: &mut Vec<u64>, limit: usize) -> Result<(), AllocError>
        ensures none_goes { vec_len words.old ≤ vec_len words.new }
        ensures limit { vec_len words.new ≤ max limit (vec_len words.old) }
    {
        for &b in self.digits.iter() {
            if b != b' ' {
                if let Some(last) = words.last_mut() {
                    *last = *last << 4 | text::digit(b);
                }
            } else if words.len() < limit {
                words.push(0)?;
            }
        }
        Ok(())
    }

    /// The words, which are N at most, and 0 for those that are not given.
    pub fn words<const N: usize>(&self) -> Result<[u64; N], AllocError> {
        let mut given = Vec::new(*self.digits.allocator());
        self.add_to(&mut given, N)?;
        let mut words = [0; N];
        for (to, w) in words.iter_mut().zip(given.iter()) {
            *to = *w;
        }
        Ok(words)
    }

    /// A queue of so many bytes as the first word says, zero but for the words behind the second, which begin at the place that it
    /// says. None where that is more than a limit.
    pub fn queue(&self, limit: usize) -> Result<Option<Vec<u8>>, AllocError>
        ensures limit { IfOk result (λ r. IfSome r (λ bytes. vec_len bytes ≤ limit)) }
    {
        let w = self.words::<8>()?;
        queue_of(*self.digits.allocator(), &w, limit)
    }
}

/// A line that is read up to its letter.
pub struct Begun<'a, R> {
    pub letter: u8,
    lines: &'a mut Lines<R>,
}

impl<'a, R: Read + Drop> Begun<'a, R> {
    /// Says what the line is about, behind an indent, each byte as it is read.
    pub fn tell(self, out: &mut impl Write, indent: &str) -> io::Result<Digits<'a, R>> {
        let Begun { letter: _, lines } = self;
        out.write_all(indent.as_bytes())?;
        lines.byte()?;
        for _ in 0..u64::MAX {
            let Some(b) = lines.byte_before(b':')? else {
                break;
            };
            out.write_all(&[b])?;
        }
        out.write_all(b": ")?;
        Ok(Digits { lines })
    }

    /// Reads no more of the line, nor of the input: what follows is wanted by nobody.
    pub fn leave(self) {
        let Begun {
            letter: _,
            lines: _lines,
        } = self;
    }

    /// Passes over what the line is about.
    pub fn pass(self) -> io::Result<Digits<'a, R>> {
        let Begun { letter: _, lines } = self;
        lines.byte()?;
        for _ in 0..u64::MAX {
            if lines.byte_before(b':')?.is_none() {
                break;
            }
        }
        Ok(Digits { lines })
    }
}

/// A line that is read up to its words, which are read once it is known how many there is room for.
pub struct Digits<'a, R> {
    lines: &'a mut Lines<R>,
}

impl<R: Read + Drop> Digits<'_, R> {
    /// Puts the words behind those that are there, up to a limit: a space begins a word, and a digit goes to the end of the last.
    pub fn add_to(self, words: &mut Vec<u64>, limit: usize) -> io::Result<()> {
        let Digits { lines } = self;
        for _ in 0..u64::MAX {
            let Some(b) = lines.byte_before(b'\n')? else {
                break;
            };
            if b != b' ' {
                if let Some(last) = words.last_mut() {
                    *last = *last << 4 | text::digit(b);
                }
            } else if words.len() < limit {
                words.push(0)?;
            }
        }
        Ok(())
    }

    /// Passes over the words.
    pub fn pass(self) -> io::Result<()> {
        let Digits { lines } = self;
        for _ in 0..u64::MAX {
            if lines.byte_before(b'\n')?.is_none() {
                break;
            }
        }
        Ok(())
    }

    /// The words, which are N at most, and 0 for those that are not given. They need no memory but their own.
    pub fn words<const N: usize>(self) -> io::Result<[u64; N]> {
        let Digits { lines } = self;
        let mut words = [0; N];
        let mut given: usize = 0;
        for _ in 0..u64::MAX {
            let Some(b) = lines.byte_before(b'\n')? else {
                break;
            };
            if b != b' ' {
                if let Some(last) = words.get_mut(given.wrapping_sub(1)) {
                    *last = *last << 4 | text::digit(b);
                }
            } else if given < N {
                given += 1;
            }
        }
        Ok(words)
    }

    /// A queue of so many bytes as the first word says, zero but for the words behind the second, which begin at the place that it
    /// says. None where that is more than a limit.
    pub fn queue(self, limit: usize) -> io::Result<Option<Vec<u8>>> {
        let alloc = self.lines.alloc;
        let w = self.words::<8>()?;
        Ok(queue_of(alloc, &w, limit)?)
    }
}

// A queue of so many bytes as the first word says, if that is no more than a limit.
fn queue_of(alloc: Global, w: &[u64; 8], limit: usize) -> Result<Option<Vec<u8>>, AllocError>
    ensures limit { IfOk result (λ r. IfSome r (λ bytes. vec_len bytes ≤ limit)) }
{
    let bytes = w[0] as usize;
    if limit < bytes {
        return Ok(None);
    }
    let mut queue = vec![in alloc; 0; bytes]?;
    spread(w, &mut queue);
    Ok(Some(queue))
}

/// Zero bytes, but for the words behind the first two, which begin at the place that the second says.
pub fn spread(w: &[u64; 8], bytes: &mut [u8]) {
    bytes.fill(0);
    let place = w[1] as usize;
    if place < bytes.len() {
        store(&w[2..], &mut bytes[place..]);
    }
}

// Puts words into bytes, little-endian, as far as there is room.
pub(crate) fn store(words: &[u64], bytes: &mut [u8]) {
    for (to, w) in bytes.chunks_mut(8).zip(words.iter()) {
        for (byte, from) in to.iter_mut().zip(w.to_le_bytes().iter()) {
            *byte = *from;
        }
    }
}

/// Words in hex, each behind a space.
#[derive(Clone, Copy)]
pub struct Listed<'a>(pub &'a [u64]);

impl fmt::Display for Listed<'_> {
    fn fmt<W: fmt::Write>(&self, f: &mut fmt::Formatter<W>) -> fmt::Result {
        for w in self.0.iter() {
            write!(f, " {w:x}")?;
        }
        Ok(())
    }
}

#[cfg(test)]
mod tests {
    use super::*;
    use std::test::Fail;

    #[test]
    fn reads_lines(rt: HostRuntime) -> Result<(), Fail> {
        let alloc = rt.alloc();
        let mut lines = Lines::new(alloc, b"k two: 1f A\nq one: 10 8 102".as_slice())?;
        let mut kept = Vec::new(alloc);
        if let Some(line) = lines.read()? {
            line.add_to(&mut kept, 5)?;
        }
        assert_eq!(rt; kept.as_slice(), [0x1f, 0xa].as_slice());
        let mut queue = None;
        if let Some(line) = lines.read()? {
            queue = line.queue(16)?;
        }
        let mut want = [0; 16];
        want[8] = 2;
        want[9] = 1;
        assert_eq!(rt;
            queue.is_some_and(|q| q.as_slice() == want.as_slice()),
            true
        );
        Ok(())
    }

    #[test]
    fn begins_lines(rt: HostRuntime) -> Result<(), Fail> {
        let alloc = rt.alloc();
        let mut lines = Lines::new(alloc, b"k two: 1f A\nq one: 10 8 102".as_slice())?;
        let mut kept = Vec::new(alloc);
        if let Some(line) = lines.begin()? {
            line.pass()?.add_to(&mut kept, 5)?;
        }
        assert_eq!(rt; kept.as_slice(), [0x1f, 0xa].as_slice());
        let mut queue = None;
        if let Some(line) = lines.begin()? {
            queue = line.pass()?.queue(16)?;
        }
        let mut want = [0; 16];
        want[8] = 2;
        want[9] = 1;
        assert_eq!(rt;
            queue.is_some_and(|q| q.as_slice() == want.as_slice()),
            true
        );
        Ok(())
    }

    // Both lines are kept before the first is asked, and are asked more than once.
    #[test]
    fn keeps_lines(rt: HostRuntime) -> Result<(), Fail> {
        let alloc = rt.alloc();
        let mut lines = Lines::new(alloc, b"k two: 1f A\nr run: 73 8".as_slice())?;
        let two = lines.read()?;
        let run = lines.read()?;
        assert_eq!(rt; lines.read()?.is_none(), true);
        let mut told = Vec::new(alloc);
        if let Some(line) = &run {
            assert_eq!(rt; line.letter, b'r');
            line.tell(&mut told)?;
            assert_eq!(rt; line.words()?, [0x73, 8, 0]);
            assert_eq!(rt; line.words()?, [0x738]);
        }
        if let Some(line) = &two {
            assert_eq!(rt; line.letter, b'k');
            line.tell(&mut told)?;
            line.tell(&mut told)?;
        }
        assert_eq!(rt; told.as_slice(), b"run: two: two: ".as_slice());
        Ok(())
    }
}
