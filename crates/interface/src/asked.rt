// What a C caller asks: flags as bits of a word, of which the others are not looked at.
ghost use Rattle.std.specs.Prelude.{◌≡◌, ◌<◌};
ghost use Rattle.interface.specs.Asked.{flag, transaction_of};

use attributes::Attributes;
use transactions::Transaction;

fn bit(w: u64, i: u64) -> bool
    requires { i < 63 }
    ensures { result ≡ flag i w }
{
    words::part(w, i, i) == 1
}

pub fn transaction_of(
    stream: u32,
    substream: u32,
    address: u64,
    how: u64,
    a: Attributes,
) -> Transaction
    ensures { result ≡ transaction_of stream substream address how a }
{
    Transaction {
        stream: stream as u64,
        substream: substream as u64,
        address: address,
        write: bit(how, 0),
        attributes: a,
        instruction: bit(how, 1),
        privileged: bit(how, 2),
    }
}
