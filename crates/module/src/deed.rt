// What a direct command that is looked at comes to: it is carried out and ACKed, or it is not listed. Nothing else can be said of it.
ghost use Rattle.std.specs.Prelude.{◌≡◌};
ghost use Rattle.module.specs.Deed.{acked, limited, answered};

use crate::change::Change;
use reply::due::Asked;

// What the ACK says.
#[derive(Clone, Copy)]
pub enum Ack {
    // Both commands, as they came.
    Repeated,
    // Command 1 as it came, and this as Command 2.
    Telling(u8),
    // The delta as Command 1, and this as Command 2.
    AfterDelta(u8),
    // Both commands; then follow the identity, the data bytes of Get Properties, or records.
    WithId,
    WithProperties([u8; 14]),
    WithRecords(Asked),
}

// What goes over the first bytes of a record: so many of the message's, from Data 6 on. A number and no slice: the bytes stay in the message
// until they are written ("What form each place takes").
#[derive(Clone, Copy)]
pub struct Write {
    pub index: usize,
    pub count: usize,
}

// No Result: two of its cases are carried out, each in its own way.
#[derive(Clone, Copy)]
pub enum Deed {
    Done(Change, Ack),
    // The ACK repeats both commands.
    Written(Write),
    // Result 7.
    Unlisted,
}

impl Deed {
    // Carried out, and ACKed with both commands.
    pub fn acked(change: Change) -> Deed
        ensures { result ≡ acked change }
    {
        Deed::Done(change, Ack::Repeated)
    }

    // Nothing changes, and the ACK says this.
    pub fn answered(ack: Ack) -> Deed
        ensures { result ≡ answered ack }
    {
        Deed::Done(Change::Nothing, ack)
    }

    // Listed where the number is one of `low` to `high`.
    #[tactic(auto, unfolding(crate::specs::Deed::limited, basis::specs::Choice::choose))]
    pub fn limited(self, low: u8, high: u8, x: u8) -> Deed
        ensures { result ≡ limited low high x self }
    {
        if low <= x && x <= high {
            self
        } else {
            Deed::Unlisted
        }
    }
}
