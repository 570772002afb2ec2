// Document 02, T-11: which rows of the second table a command removes.
#![tactic(auto)]

ghost use Rattle.std.specs.Prelude.{◌≡◌};
ghost use Rattle.region_scopes.specs.Scopes.{is_regional, in_table};

use commands::Command;
use regions::Region;

// Whether a command is about the second table: 70 and 73.
#[tactic(auto, unfolding(crate::specs::Scopes::is_regional))]
pub fn is_regional(c: Command) -> bool
    ensures { result ≡ is_regional c }
{
    match c {
        Command::DptiAll => true,
        Command::DptiPa(_, _, _) => true,
        _ => false,
    }
}

#[tactic(auto, unfolding(crate::specs::Scopes::in_table))]
pub fn in_table(c: Command, row: Region) -> bool
    ensures { result ≡ in_table c row }
{
    match c {
        Command::DptiAll => regions::in_all(row),
        Command::DptiPa(page, size, leaf) => regions::in_region(row, page, size, leaf),
        _ => false,
    }
}
