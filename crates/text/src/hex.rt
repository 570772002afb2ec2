// Words and digits in hex.
ghost use Rattle.std.specs.Prelude.{◌<◌};

use std::fmt;

// Words in hex, each behind a space.
#[derive(Clone, Copy)]
pub struct Hex<'a>(pub &'a [u64]);

impl fmt::Display for Hex<'_> {
    fn fmt<W: fmt::Write>(&self, f: &mut fmt::Formatter<W>) -> fmt::Result {
        for w in self.0 {
            write!(f, " {w:x}")?;
        }
        Ok(())
    }
}

// What a hexadecimal digit stands for: a letter is nine more than its low four bits. Every byte stands for something, which
// `char::to_digit` would refuse: what a program reads is never refused for a digit.
pub fn digit(b: u8) -> u64
    ensures { result < 16 }
{
    let d = b as u64;
    (d % 16 + d / 64 * 9) % 16
}
