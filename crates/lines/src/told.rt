// What came of a frame, as the screen has it.
ghost use Rattle.std.specs.Prelude.{◌≡◌};
ghost use Rattle.lines.specs.Shown.{shown_of, shown_at, shown_for, is_for};

use load::state::Load;
use module::state::Module;
use names::LoadShown;
use row::progress::Whom;
use seating::heed::{Heeded, Seating};
use std::fmt;
use std::fmt::Display;
use text::line::{Heard, Seat};

// A line: what was heard, and what the load is at, in a class that of the seat that it was for, or of every one.
#[derive(Clone, Copy)]
pub struct Told<'a> {
    pub frame: &'a [u8],
    pub heeded: &'a Heeded,
    pub reply: &'a [u8],
}

impl fmt::Display for Told<'_> {
    fn fmt<W: fmt::Write>(&self, f: &mut fmt::Formatter<W>) -> fmt::Result {
        let heeded = self.heeded;
        let heard = heard(self.frame, heeded, self.reply);
        write!(f, "{heard}")?;
        match &heeded.next {
            Seating::Alone(_) => {
                if let Some(load) = heard.load {
                    write!(f, " | {load}")?;
                }
            }
            Seating::Class { row, count } => write_seats(f, row, *count, heeded.whom)?,
        }
        writeln!(f)
    }
}

// Seats are told by the number of their line. An array and its count, as `Seating` has them.
fn write_seats<W: fmt::Write>(
    f: &mut fmt::Formatter<W>,
    row: &[Module; 16],
    count: usize,
    whom: Whom,
) -> fmt::Result {
    for (i, m) in row.iter().take(count).enumerate() {
        if is_for(whom, i) {
            let shown = Seat {
                // std has no `From` between the two
                seat: i as u64 + 1,
                load: load_shown(m.load),
            };
            shown.fmt(f)?;
        }
    }
    Ok(())
}

fn is_for(whom: Whom, i: usize) -> bool
    ensures { result ≡ is_for whom i }
{
    match whom {
        Whom::Seat(k) => k == i,
        Whom::All => true,
        Whom::Nobody => false,
    }
}

fn heard<'a>(frame: &'a [u8], h: &Heeded, reply: &'a [u8]) -> Heard<'a>
    ensures number { result.number ≡ h.now.number }
    ensures read { result.read ≡ h.now.read }
    ensures load { result.load ≡ shown_for h.now.next h.now.whom }
    ensures bytes { (result.frame.now ≡ frame.now) × (result.reply.now ≡ reply.now) }
{
    Heard {
        number: h.number,
        frame,
        load: shown_for(&h.next, h.whom),
        reply,
        // std has no `From` between the two, and `try_from` an error that cannot arise
        read: h.read as u64,
    }
}

// The list that names a command is that of the seat that it is for. What is for none of them, or for all, goes by every list.
fn shown_for(s: &Seating, whom: Whom) -> Option<LoadShown>
    ensures { result ≡ shown_for s.now whom }
{
    match whom {
        Whom::Seat(i) => shown_at(s, i),
        Whom::All | Whom::Nobody => None,
    }
}

#[tactic(auto, unfolding(crate::specs::Shown::shown_at, basis::specs::Choice::choose))]
fn shown_at(s: &Seating, i: usize) -> Option<LoadShown>
    ensures { result ≡ shown_at s.now i }
{
    match s {
        Seating::Alone(m) => Some(load_shown(m.load)),
        Seating::Class { row, .. } => row.get(i).map(|m| load_shown(m.load)),
    }
}

// Stays a function: a `From` between two types of other crates cannot stand here, and `names` knows no module.
fn load_shown(load: Load) -> LoadShown
    ensures { result ≡ shown_of load }
{
    match load {
        Load::Dimmer(lamp) => LoadShown::Level(lamp.level),
        Load::Outlet(sockets) => LoadShown::Sockets(sockets.top, sockets.bottom),
    }
}
