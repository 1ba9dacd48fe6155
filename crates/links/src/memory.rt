// Link memory as records of eight bytes, and the tests of a record ("Link memory").
ghost use Rattle.std.specs.Prelude.{◌≡◌, ◌+◌, ◌≤◌, ◌<◌, length};
ghost use Rattle.links.specs.Record.{is_fit_size, is_fit, records, start_of, record_at, record_or_blank, link_of, is_in_use, is_responder, is_end_mark, bears};

use wire::address::Address;

// A record's eight bytes by name.
#[derive(Clone, Copy)]
pub struct Link {
    pub flags: u8,
    pub group: u8,
    pub address: Address,
    pub d1: u8,
    pub d2: u8,
    pub d3: u8,
}

// Result 2 does not apply.
pub fn is_fit(links: &[u8]) -> bool
    ensures { result ≡ is_fit links.now }
{
    is_fit_size(links.len())
}

// So many bytes, of a whole link memory or of a share of one.
pub fn is_fit_size(n: usize) -> bool
    ensures { result ≡ is_fit_size n }
{
    (1 <= n) & (n <= 2048) & (n % 8 == 0)
}

// How many records there are.
pub fn records(links: &[u8]) -> usize
    ensures { result ≡ records links.now }
{
    links.len() / 8
}

// Where record `k`, which is there, stands. That it is there is asked for, here and twice more, and in no type: it is a fact of number and
// memory together, and a struct of both would hold what each caller has in its hands anyway.
#[tactic(auto, unfolding(crate::specs::Record::start_of))]
pub(crate) fn start_of(links: &[u8], k: usize) -> usize
    requires { k < records links.now }
    ensures { (result ≡ start_of links.now k) × (result + 8 ≤ length links.now) }
{
    k * 8
}

// Record `k`. Past the last record it is a never-used one, eight 00: no Option, as the clause says the eight bytes (`record_or_blank`).
#[tactic(auto, unfolding(basis::specs::Choice::choose))]
pub fn record_or_blank(links: &[u8], k: usize) -> [u8; 8]
    ensures { result ≡ record_or_blank links.now k }
{
    if k < records(links) {
        record_at(links, k)
    } else {
        [0; 8]
    }
}

// Record `k`, which is there.
#[tactic(auto, using(crate::proofs::Chunked::at_record))]
pub(crate) fn record_at(links: &[u8], k: usize) -> [u8; 8]
    requires { k < records links.now }
    ensures { result ≡ record_at links.now k }
{
    let (records, _) = links.as_chunks::<8>();
    records[k]
}

pub(crate) fn link_of(record: [u8; 8]) -> Link
    ensures { result ≡ link_of «record» }
{
    let [flags, group, high, middle, low, d1, d2, d3] = record;
    Link {
        flags,
        group,
        address: Address { high, middle, low },
        d1,
        d2,
        d3,
    }
}

// Bit 1 clear: the end mark. This test and the two behind it differ in a bit, and stay three: the paper names each.
pub fn is_end_mark(record: [u8; 8]) -> bool
    ensures { result ≡ is_end_mark «record» }
{
    !(record[0] / 2 % 2 == 1)
}

// Bit 7 set.
pub(crate) fn is_in_use(record: [u8; 8]) -> bool
    ensures { result ≡ is_in_use «record» }
{
    record[0] / 128 % 2 == 1
}

// Bit 6 clear.
pub(crate) fn is_responder(record: [u8; 8]) -> bool
    ensures { result ≡ is_responder «record» }
{
    !(record[0] / 64 % 2 == 1)
}

pub(crate) fn bears(record: [u8; 8], address: Address) -> bool
    ensures { result ≡ bears «record» address }
{
    let [_, _, high, middle, low, ..] = record;
    Address { high, middle, low } == address
}
