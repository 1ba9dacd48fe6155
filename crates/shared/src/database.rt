// 2F: link memory read and written over the wire ("Direct commands, extended").
ghost use Rattle.std.specs.Prelude.{◌≡◌};
ghost use Rattle.shared.specs.Extended.{get_deed, set_deed, record_deed, database_deed};

use links::name::place_of;
use module::deed::{Ack, Deed, Write};
use reply::due::Asked;
use wire::request::Request;

// Command 2 must be 00.
#[tactic(auto, unfolding(crate::specs::Extended::database_deed, basis::specs::Choice::choose))]
pub(crate) fn database_deed(r: Request, data: [u8; 14], records: usize) -> Deed
    ensures { result ≡ database_deed r «data» records }
{
    match r.command2 {
        0x00 => record_deed(data, records),
        _ => Deed::Unlisted,
    }
}

// Data 2 says what is asked for, of the record that Data 3 and 4 name.
#[tactic(auto, using(basis::proofs::Table::missed), unfolding(crate::specs::Extended::record_deed, basis::specs::Choice::choose))]
fn record_deed(data: [u8; 14], records: usize) -> Deed
    ensures { result ≡ record_deed «data» records }
{
    let address = u16::from_be_bytes([data[2], data[3]]);
    let place = place_of(records, usize::from(address));
    match data[1] {
        0x00 => get_deed(data, place),
        0x02 => set_deed(data, place),
        _ => Deed::Unlisted,
    }
}

// Get Database: Data 5 is how many records at most.
fn get_deed(data: [u8; 14], place: Option<usize>) -> Deed
    ensures { result ≡ get_deed «data» place }
{
    match place {
        Some(k) => Deed::answered(Ack::WithRecords(Asked {
            data1: data[0],
            first: k,
            most: usize::from(data[4]),
        })),
        None => Deed::Unlisted,
    }
}

// Set Database: Data 5 is how many bytes.
fn set_deed(data: [u8; 14], place: Option<usize>) -> Deed
    ensures { result ≡ set_deed «data» place }
{
    let n = data[4];
    match place {
        Some(k) => Deed::Written(Write {
            index: k,
            count: usize::from(n),
        })
        .limited(1, 8, n),
        None => Deed::Unlisted,
    }
}
