// The search for a record, which ends at the first record that settles it ("Link memory").
ghost use Rattle.std.specs.Prelude.{◌≡◌};
ghost use Rattle.links.specs.Search.{answers, matches, walk_of, search_of};

use crate::memory::{Link, bears, is_end_mark, is_in_use, is_responder, link_of, record_at};
use wire::address::Address;

// Whose record a search looks for.
#[derive(Clone, Copy)]
pub enum Wanted {
    // Any live record of a sender.
    Sender(Address),
    // A live responder record of a sender and a group.
    Responder(Address, u8),
}

// Why no record was found.
#[derive(Clone, Copy)]
pub enum Missing {
    NoSearch,
    EndMark,
    MemoryEnd,
}

// What was found, and the number of records read.
#[derive(Clone, Copy)]
pub struct Searched {
    pub read: usize,
    pub found: Result<Link, Missing>,
}

// A search is made for somebody.
pub fn search(links: &[u8], wanted: Option<Wanted>) -> Searched
    ensures { result ≡ search_of links.now wanted }
{
    // The walk is called at one place only, so that a compiler can keep what it looks for, and what it finds, in registers.
    match wanted {
        Some(wanted) => walk(links, wanted),
        None => Searched {
            read: 0,
            found: Err(Missing::NoSearch),
        },
    }
}

// From record to record, each read once.
fn walk(links: &[u8], wanted: Wanted) -> Searched
    ensures { result ≡ walk_of links.now wanted }
{
    let n = links.len() / 8;
    'walk: {
        for i in 0..n {
            let record = record_at(links, i);
            if is_end_mark(record) {
                break 'walk Searched {
                    read: i + 1,
                    found: Err(Missing::EndMark),
                };
            }
            if matches(record, wanted) {
                let link = link_of(record);
                break 'walk Searched {
                    read: i + 1,
                    found: Ok(link),
                };
            }
        }
        Searched {
            read: n,
            found: Err(Missing::MemoryEnd),
        }
    }
}

// A record in use that is looked for; that no end mark stands before it is the walk's to see.
fn matches(record: [u8; 8], wanted: Wanted) -> bool
    ensures { result ≡ matches wanted «record» }
{
    is_in_use(record) & answers(record, wanted)
}

fn answers(record: [u8; 8], wanted: Wanted) -> bool
    ensures { result ≡ answers wanted «record» }
{
    match wanted {
        Wanted::Sender(a) => bears(record, a),
        Wanted::Responder(a, g) => bears(record, a) & is_responder(record) & (record[1] == g),
    }
}
