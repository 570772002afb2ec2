// The command line: KEPT, then options, each with what it says. `clap` would tell a wrong one in words of its own, and end with
// another status: here usage is told and the status is 0.
use commands::Features;
use std::alloc::Global;
use std::env::FillError;
use std::io;
use std::io::Write;
use std::rt::Env;

// S1P and ASID16.
const ASSUMED: u64 = 0x05;

// The most bytes of an argument that are read, which hold any path.
const ROOM: usize = 4096;

// The features, each with its bit.
const FEATURES: [(u64, &str); 8] = [
    (0x01, "S1P"),
    (0x02, "S2P"),
    (0x04, "ASID16"),
    (0x08, "VMID16"),
    (0x10, "Hyp"),
    (0x20, "RIL"),
    (0x40, "DPT"),
    (0x80, "E2H"),
];

// The names of the files, and the features as bits.
#[derive(Clone, Copy)]
pub struct Args<'a> {
    pub kept: &'a str,
    pub queue: Option<&'a str>,
    pub table: Option<&'a str>,
    pub events: Option<&'a str>,
    pub features: Option<u64>,
}

// The words of the command line. One that is no UTF-8 is read all the same, which `env::args` refuses; one that has no room is
// read as empty, which is no option and no file's name.
pub fn words(rt: &impl Env, alloc: Global) -> io::Result<Vec<String>> {
    let mut words = Vec::new(alloc);
    let mut text = [0u8; ROOM];
    for i in 0..usize::MAX {
        let length = match rt.arg(i, &mut text) {
            Ok(length) => length,
            Err(FillError::TooLong) => 0,
            Err(FillError::NotPresent) => break,
        };
        words.push(String::from_utf8_lossy(alloc, &text[..length])?)?;
    }
    Ok(words)
}

impl<'a> Args<'a> {
    // None of words that are not as the usage says.
    pub fn of(words: &'a [String]) -> Option<Args<'a>> {
        let [_, kept, options @ ..] = words else {
            return None;
        };
        if kept.is_empty() | kept.starts_with('-') {
            return None;
        }
        let mut args = Args {
            kept: kept.as_str(),
            queue: None,
            table: None,
            events: None,
            features: None,
        };
        let (options, rest) = options.as_chunks::<2>();
        for [option, value] in options {
            match option.as_str() {
                "--queue" => args.queue = Some(value.as_str()),
                "--table" => args.table = Some(value.as_str()),
                "--events" => args.events = Some(value.as_str()),
                "--features" => args.features = Some(features_in(value.as_str())?),
                _ => return None,
            }
        }
        if !rest.is_empty() {
            return None;
        }
        Some(args)
    }
}

// Two hexadecimal digits. A sign is none, though `from_str_radix` takes one.
fn features_in(text: &str) -> Option<u64> {
    if (text.len() != 2) | !text.bytes().all(|b| b.is_ascii_hexdigit()) {
        return None;
    }
    u64::from_str_radix(text, 16).ok()
}

// Tells the features as they are given, and by name, and answers what they are.
pub fn features_told(out: &mut impl Write, given: Option<u64>) -> io::Result<Features> {
    let bits = given.unwrap_or(ASSUMED);
    write!(out, "Features {bits:02x}:")?;
    for (bit, name) in FEATURES {
        if bits & bit != 0 {
            write!(out, " {name}")?;
        }
    }
    if given.is_none() {
        write!(out, " (assumed, since none are given)")?;
    }
    writeln!(out)?;
    Ok(commands::features_of(bits))
}
