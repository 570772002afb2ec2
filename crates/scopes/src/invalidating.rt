// Document 02, T-12: which commands are invalidations.
ghost use Rattle.std.specs.Prelude.{◌≡◌};
ghost use Rattle.scopes.specs.Scopes.{invalidates};

use commands::Command;

// 01, 02 and 46 are no invalidations.
pub fn invalidates(c: Command) -> bool
    ensures { result ≡ invalidates c }
{
    match c {
        Command::PrefetchConfig => false,
        Command::PrefetchAddr => false,
        Command::Sync(_) => false,
        _ => true,
    }
}
