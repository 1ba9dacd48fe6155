// What a command does to an outlet's sockets: standard ones to the top socket, extended ones to the bottom one (request 1). It shares
// no row with a dimmer's, and neither do its properties and groups, so that each kind has functions of its own for these.
ghost use Rattle.std.specs.Prelude.{◌≡◌, ◌≤◌};
ghost use Rattle.outlet.specs.Load.{at_top, at_bottom, full_of, bit_of, both_of, status_entry, load_entry, bottom_entry, second_entry};

use load::entry::{Entry, LoadEntry, becomes, stays};
use load::state::Sockets;
use wire::request::Request;

// Command 2 is read by 19 alone.
#[tactic(auto, using(basis::proofs::Table::missed), unfolding(crate::specs::Load::load_entry, basis::specs::Choice::choose))]
pub(crate) fn load_entry(sockets: Sockets, r: Request) -> LoadEntry<Sockets>
    ensures { result ≡ load_entry sockets r }
{
    match r.command1 {
        0x11 => at_top(sockets, true),
        0x13 => at_top(sockets, false),
        0x19 => status_entry(sockets, r.command2),
        _ => stays(sockets, Entry::Unlisted),
    }
}

#[tactic(auto, using(basis::proofs::Table::missed), unfolding(crate::specs::Load::second_entry, basis::specs::Choice::choose))]
pub(crate) fn second_entry(sockets: Sockets, r: Request, data: [u8; 14]) -> LoadEntry<Sockets>
    ensures { result ≡ second_entry sockets r «data» }
{
    match r.command1 {
        0x11 => bottom_entry(sockets, data, true),
        0x13 => bottom_entry(sockets, data, false),
        _ => stays(sockets, Entry::Unlisted),
    }
}

// Data 1 = 02 names the bottom socket, and nothing else is listed.
#[tactic(auto, unfolding(crate::specs::Load::bottom_entry, basis::specs::Choice::choose))]
fn bottom_entry(sockets: Sockets, data: [u8; 14], is_on: bool) -> LoadEntry<Sockets>
    ensures { result ≡ bottom_entry sockets «data» is_on }
{
    let which = data[0];
    match which {
        0x02 => at_bottom(sockets, is_on),
        _ => stays(sockets, Entry::Unlisted),
    }
}

fn at_top(sockets: Sockets, is_on: bool) -> LoadEntry<Sockets>
    ensures { result ≡ at_top sockets is_on }
{
    becomes(Sockets {
        top: is_on,
        ..sockets
    })
}

fn at_bottom(sockets: Sockets, is_on: bool) -> LoadEntry<Sockets>
    ensures { result ≡ at_bottom sockets is_on }
{
    becomes(Sockets {
        bottom: is_on,
        ..sockets
    })
}

// 19: Command 2 says what is shown.
#[tactic(auto, using(basis::proofs::Table::missed), unfolding(crate::specs::Load::status_entry, basis::specs::Choice::choose))]
fn status_entry(sockets: Sockets, command2: u8) -> LoadEntry<Sockets>
    ensures { result ≡ status_entry sockets command2 }
{
    match command2 {
        0x00 => stays(sockets, Entry::Shows(full_of(sockets.top))),
        0x01 => stays(sockets, Entry::Shows(both_of(sockets))),
        _ => stays(sockets, Entry::Unlisted),
    }
}

// Fully on or off.
#[tactic(auto, unfolding(crate::specs::Load::full_of, basis::specs::Choice::choose))]
fn full_of(is_on: bool) -> u8
    ensures { result ≡ full_of is_on }
{
    if is_on { 0xff } else { 0x00 }
}

// The top socket in bit 0, the bottom one in bit 1.
fn both_of(sockets: Sockets) -> u8
    ensures { result ≡ both_of sockets }
{
    bit_of(sockets.top) + 2 * bit_of(sockets.bottom)
}

#[tactic(auto, unfolding(crate::specs::Load::bit_of, basis::specs::Choice::choose))]
fn bit_of(is_on: bool) -> u8
    ensures { (result ≡ bit_of is_on) × (result ≤ 1) }
{
    u8::from(is_on)
}
