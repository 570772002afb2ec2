// Between the unit's types and C's words: what a C caller asks, and what it is told.
#![tactic(auto)]

mod answers;
mod asked;
mod checked;
mod recorded;
mod tables;
mod writers;

ghost use Rattle.std.specs.Prelude.{◌≡◌};
ghost use Rattle.interface.specs.Replies.{nothing, carried, answered};

pub use asked::transaction_of;

// The number that a call returns, 0 or its refusal's, and the eight words of its answer.
#[derive(Clone, Copy)]
pub struct Reply {
    pub code: u64,
    pub words: [u64; 8],
}

// What a C caller is told of what a call answers: of a refusal, or of what was carried out.
pub trait Tells {
    ghost use Rattle.interface.specs.declared.Reply.{Reply};

    ghost reply: { Self → Reply };

    fn reply(self) -> Reply
        ensures { result ≡ reply self };
}

// Carried out, with nothing more to tell.
impl Tells for () {
    ghost reply = { carried };

    fn reply(self) -> Reply {
        nothing(0)
    }
}

impl<T: Tells, E: Tells> Tells for Result<T, E> {
    ghost reply = { answered E.reply T.reply };

    fn reply(self) -> Reply {
        match self {
            Err(why) => why.reply(),
            Ok(done) => done.reply(),
        }
    }
}

// Carried out or refused, with no word to tell.
fn nothing(code: u64) -> Reply
    ensures { result ≡ nothing code }
{
    Reply {
        code: code,
        words: [0, 0, 0, 0, 0, 0, 0, 0],
    }
}
