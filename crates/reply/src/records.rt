// The records that Get Database sends ("Direct commands, extended").
ghost use Rattle.std.specs.Prelude.{◌≡◌, ◌-◌, ◌*◌, ◌/◌, ◌%◌, ◌≤◌, ◌<◌, ◌∷◌, ◌++◌, [], length, take};
ghost use Rattle.basis.specs.Laid.{laid_if_fits};
ghost use Rattle.links.specs.Name.{name_of};
ghost use Rattle.links.specs.Record.{records, record_at};
ghost use Rattle.reply.specs.Records.{limit, count_sent, record_data, records_from};

use crate::due::{Asked, Head};
use crate::message::put_extended;
use links::mark::up_to_mark;
use links::memory::{record_or_blank, records};
use links::name::name_of;
use wire::address::Address;

impl Asked {
    // How many records are sent.
    pub(crate) fn count(self, links: &[u8]) -> usize
        ensures { result ≡ count_sent links.now self.first self.most }
    {
        up_to_mark(links, self.first, self.limit(links))
    }

    // Those that are asked for, 0 for no limit, as far as there are any.
    fn limit(self, links: &[u8]) -> usize
        ensures { result ≡ limit links.now self.first self.most }
    {
        let left = records(links).saturating_sub(self.first);
        if self.most == 0 {
            left
        } else {
            left.min(self.most)
        }
    }
}

// What the message of a record says: Data 1 as it was sent, 01, the record's address, 00, its eight bytes, 00.
#[tactic(auto, using(links::proofs::Taken::taken))]
fn record_data(links: &[u8], k: usize, data1: u8) -> [u8; 14]
    requires { k < records links.now }
    ensures { result ≡ record_data data1 links.now k }
{
    let name = name_of(k);
    let mut data = [0x00; 14];
    data[0] = data1;
    data[1] = 0x01;
    // at most 0F FF; `try_from` would have an error that cannot arise
    data[2..4].copy_from_slice(&(name as u16).to_be_bytes());
    data[5..13].copy_from_slice(&record_or_blank(links, k));
    data
}

// The head of a message that is laid.
fn laid_head(room: &[u8]) -> [u8; 9]
    requires { 9 ≤ length room.now }
    ensures { result ≡ take 9 room.now }
{
    let mut head = [0x00; 9];
    head.copy_from_slice(&room[..9]);
    head
}

// The first `n` of the records that are asked for, each directly after the one before it.
pub(crate) fn put_records(
    room: &mut [u8],
    own: Address,
    head: Head,
    links: &[u8],
    asked: Asked,
    n: usize,
)
    requires n_bound { n ≤ records links.now - asked.first }
    requires n_in_bounds { 23 * n ≤ length room.old }
    ensures { room.new ≡ laid_if_fits room.old (records_from own head.to head.hops asked.data1 links.now n asked.first) }
{
    if n == 0 {
        return;
    }
    let data1 = asked.data1;
    let first = asked.first;
    let each = head.of_data(0x2f).message(own);
    let data = record_data(links, first, data1);
    put_extended(room, &each, &data);
    for i in 1..n {
        // Read again from the first message, where eight bytes go in one move. Kept in an array, those of an address go one by one: a whole
        // database takes a fifth more instructions then, which is more than the form before took.
        let each = laid_head(room);
        let at = 23 * i;
        let data = record_data(links, first + i, data1);
        put_extended(&mut room[at..], &each, &data);
    }
}
