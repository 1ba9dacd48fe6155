// A line for a person to read: result, sender, what was asked, reply, records read.
use letters::Hex;
use names::{Asked, KindShown, LoadShown};
use std::fmt;
use std::fmt::Display;
use wire::read::heard_as;

// What came of a frame: its result by the paper's number, its message, the reply, and how many records were read for it. The command is
// named by the lists for a module with such a load.
#[derive(Clone, Copy)]
pub struct Heard<'a> {
    pub number: u8,
    pub frame: &'a [u8],
    pub load: Option<LoadShown>,
    pub reply: &'a [u8],
    pub read: u64,
}

impl fmt::Display for Heard<'_> {
    fn fmt<W: fmt::Write>(&self, f: &mut fmt::Formatter<W>) -> fmt::Result {
        // a number past the last is shown as the last
        let result = RESULTS[usize::from(self.number.min(11))];
        let asked = Message {
            frame: self.frame,
            load: self.load,
        };
        let reply = Hex(self.reply);
        let read = self.read;
        write!(f, "{result}{asked} | reply{reply} | read {read}")
    }
}

// The results by the paper's numbers, which stand before their names: nine of a module alone, twelve of a class.
pub(crate) const RESULTS: [&str; 12] = [
    "0 carried out",
    "1 bad length",
    "2 unfit link memory",
    "3 not for us",
    "4 bad checksum",
    "5 no room",
    "6 not linked",
    "7 not listed",
    "8 no concern of ours",
    "9 two of one address",
    "10 nobody's address",
    "11 unfit row",
];

// A seat of a class, and what its load is at, behind what was heard.
#[derive(Clone, Copy)]
pub struct Seat {
    pub seat: u64,
    pub load: LoadShown,
}

impl fmt::Display for Seat {
    fn fmt<W: fmt::Write>(&self, f: &mut fmt::Formatter<W>) -> fmt::Result {
        f.write_str(" | seat ")?;
        self.seat.fmt(f)?;
        f.write_str(" | ")?;
        self.load.fmt(f)
    }
}

// The message behind the frame's two bytes; nothing where there is no whole one.
#[derive(Clone, Copy)]
struct Message<'a> {
    frame: &'a [u8],
    load: Option<LoadShown>,
}

impl fmt::Display for Message<'_> {
    fn fmt<W: fmt::Write>(&self, f: &mut fmt::Formatter<W>) -> fmt::Result {
        if self.frame.len() < 11 {
            return Ok(());
        }
        let message = &self.frame[2..];
        let (from, to) = (Hex(&message[..3]), Hex(&message[3..6]));
        let kind = heard_as(message);
        let shown = KindShown(kind);
        let command = Hex(&message[7..9]);
        let asked = Asked {
            kind,
            load: self.load,
        };
        write!(f, " | from{from} to{to} | {shown}{command}{asked}")?;
        if message.len() > 9 {
            let data = Hex(&message[9..]);
            write!(f, " data{data}")?;
        }
        Ok(())
    }
}
