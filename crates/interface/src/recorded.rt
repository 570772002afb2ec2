// What a C caller is told of the recorder: document 02's numbers for the enums' cases.
ghost use Rattle.std.specs.Prelude.{◌≡◌};
ghost use Rattle.event_calls.specs.Calls as calls;
ghost use Rattle.interface.specs.Recorded.{recorder_reply, writing_reply, event_read_refusal, record_reply, event_acknowledge_refusal};

use crate::{Reply, Tells, nothing};
use event_calls::{AcknowledgeRefusal, ReadRefusal, WriteEnd, Writing};
use events::{Record, Refusal};

impl Tells for Refusal {
    ghost reply = { recorder_reply };

    fn reply(self) -> Reply {
        match self {
            Refusal::BadLength => nothing(15),
            Refusal::BadIndex => nothing(16),
        }
    }
}

fn write_end_number(e: WriteEnd) -> u64
    ensures { result ≡ calls.end_number e }
{
    match e {
        WriteEnd::Stored => 0,
        WriteEnd::Dropped => 1,
        WriteEnd::Cut => 2,
    }
}

impl Tells for Writing {
    ghost reply = { writing_reply };

    fn reply(self) -> Reply {
        let writing = self;
        let e = writing.end;
        Reply {
            code: 0,
            words: [write_end_number(e), writing.stores, 0, 0, 0, 0, 0, 0],
        }
    }
}

impl Tells for ReadRefusal {
    ghost reply = { event_read_refusal };

    fn reply(self) -> Reply {
        match self {
            ReadRefusal::Recorder(why) => why.reply(),
            ReadRefusal::Empty => nothing(17),
        }
    }
}

impl Tells for Record {
    ghost reply = { record_reply };

    fn reply(self) -> Reply {
        let event = self;
        Reply {
            code: 0,
            words: [event.w0, event.w1, event.w2, event.w3, 0, 0, 0, 0],
        }
    }
}

impl Tells for AcknowledgeRefusal {
    ghost reply = { event_acknowledge_refusal };

    fn reply(self) -> Reply {
        match self {
            AcknowledgeRefusal::Recorder(why) => why.reply(),
            AcknowledgeRefusal::NoOverflow => nothing(18),
        }
    }
}
