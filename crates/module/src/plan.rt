// What is decided for a message: all that is to happen, while nothing has been written yet ("Result numbers").
ghost use Rattle.std.specs.Prelude.{◌≡◌};
ghost use Rattle.reply.specs.Message.{headed};
ghost use Rattle.reply.specs.declared.due.Due.{Due};
ghost use Rattle.module.specs.Plan.{done, wrote, refused, unlinked, unlisted, id_of, due_of, deed_plan};

use crate::change::Change;
use crate::deed::{Ack, Deed, Write};
use crate::state::{Identity, Module};
use reply::due::{Due, Head, ReplyType};
use results::Outcome;
use wire::address::Address;
use wire::request::Request;

#[derive(Clone, Copy)]
pub struct Plan {
    pub outcome: Outcome,
    pub change: Change,
    // What is written to link memory.
    pub writing: Option<Write>,
    pub due: Due,
}

impl Plan {
    // Carried out.
    pub fn done(change: Change, due: Due) -> Plan
        ensures { result ≡ done change due }
    {
        Plan {
            outcome: Outcome::Done,
            change,
            writing: None,
            due,
        }
    }

    // Carried out, and link memory is written.
    pub fn wrote(write: Write, due: Due) -> Plan
        ensures { result ≡ wrote write due }
    {
        Plan {
            outcome: Outcome::Done,
            change: Change::NextDelta,
            writing: Some(write),
            due,
        }
    }

    // Refused: nothing changes, and nothing is written.
    pub fn refused(outcome: Outcome, due: Due) -> Plan
        ensures { result ≡ refused outcome due }
    {
        Plan {
            outcome,
            change: Change::Nothing,
            writing: None,
            due,
        }
    }

    // Result 6.
    pub fn unlinked(reply_type: ReplyType, r: Request) -> Plan
        ensures { result ≡ unlinked reply_type r }
    {
        Plan::nak(Outcome::NotLinked, reply_type, r, 0xff)
    }

    // Result 7.
    pub fn unlisted(reply_type: ReplyType, r: Request) -> Plan
        ensures { result ≡ unlisted reply_type r }
    {
        Plan::nak(Outcome::Unlisted, reply_type, r, 0xfb)
    }

    // Refused by a reply that repeats Command 1, and whose Command 2 says why.
    fn nak(outcome: Outcome, reply_type: ReplyType, r: Request, why: u8) -> Plan
        ensures { result ≡ refused outcome (Due.Alone (headed reply_type r r.command1 why)) }
    {
        Plan::refused(
            outcome,
            Due::Alone(Head::answering(reply_type, r, r.command1, why)),
        )
    }
}

impl Deed {
    // What it comes to, as a plan.
    pub fn plan(self, m: Module, r: Request) -> Plan
        ensures { result ≡ deed_plan m r self }
    {
        match self {
            Deed::Done(change, ack) => Plan::done(change, ack.due(m, r)),
            Deed::Written(write) => Plan::wrote(write, Ack::Repeated.due(m, r)),
            Deed::Unlisted => Plan::unlisted(ReplyType::Nak, r),
        }
    }
}

impl Ack {
    fn due(self, m: Module, r: Request) -> Due
        ensures { result ≡ due_of m r self }
    {
        let both = Head::answering(ReplyType::Ack, r, r.command1, r.command2);
        match self {
            Ack::Repeated => Due::Alone(both),
            Ack::Telling(x) => Due::Alone(Head {
                command2: x,
                ..both
            }),
            Ack::AfterDelta(x) => Due::Alone(Head {
                command1: m.delta,
                command2: x,
                ..both
            }),
            Ack::WithId => Due::WithId(both, m.identity.id(), m.identity.revision),
            Ack::WithProperties(data) => Due::WithProperties(both, data),
            Ack::WithRecords(asked) => Due::WithRecords(both, asked),
        }
    }
}

impl Identity {
    // Category, subcategory and firmware, in the place of an address.
    fn id(self) -> Address
        ensures { result ≡ id_of self }
    {
        Address {
            high: self.category,
            middle: self.subcategory,
            low: self.firmware,
        }
    }
}
