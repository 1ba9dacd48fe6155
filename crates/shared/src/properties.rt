// 2E: the properties that every module has, and what Get Properties shows ("Direct commands, extended").
ghost use Rattle.std.specs.Prelude.{◌≡◌};
ghost use Rattle.shared.specs.Extended.{property_deed, properties_deed, shown_deed};

use load::entry::Properties;
use module::change::Change;
use module::deed::{Ack, Deed};
use module::state::Module;
use wire::request::Request;

// Command 2 must be 00.
#[tactic(auto, unfolding(crate::specs::Extended::properties_deed, basis::specs::Choice::choose))]
pub(crate) fn properties_deed(r: Request, data: [u8; 14]) -> Deed
    ensures { result ≡ properties_deed r «data» }
{
    match r.command2 {
        0x00 => property_deed(data),
        _ => Deed::Unlisted,
    }
}

// Data 2 says what is asked for, and Data 3 is the new value.
#[tactic(auto, using(basis::proofs::Table::missed), unfolding(crate::specs::Extended::property_deed, basis::specs::Choice::choose))]
fn property_deed(data: [u8; 14]) -> Deed
    ensures { result ≡ property_deed «data» }
{
    let x = data[2];
    match data[1] {
        0x04 => Deed::acked(Change::X10(x, data[3])),
        0x07 => Deed::acked(Change::Led(x)).limited(0x11, 0x7f, x),
        _ => Deed::Unlisted,
    }
}

// Get Properties, of a module whose kind shows these.
pub fn shown_deed(m: Module, data1: u8, p: Properties) -> Deed
    ensures { result ≡ shown_deed m data1 p }
{
    Deed::answered(Ack::WithProperties([
        data1, 0x01, 0x00, 0x00, m.house, m.unit, p.ramp, p.on_level, m.led, 0x00, 0x01, 0x00,
        0x00, 0x00,
    ]))
}
