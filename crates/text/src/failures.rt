// What the system refuses.
use std::io;

// Tells on standard error why the system refused what has this name. The text of an error ends in its number, which is left out.
pub fn fail(rt: &(impl Eprint + Alloc), name: &str, why: &io::Error) -> io::Result<()> {
    let told = format!(in rt.alloc(); "{why}")?;
    if let Some((words, _)) = told.split_once(" (os error ") {
        return eprintln!(rt; "{name}: {words}");
    }
    eprintln!(rt; "{name}: {told}")
}
