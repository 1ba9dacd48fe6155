// The row of a class, line after line.
ghost use Rattle.std.specs.Prelude.{◌≡◌, ◌-◌, ◌^◌, ◌≤◌, ◌<◌, length, position, IfSome};
ghost use Rattle.roster.specs.Roster.{text_start, is_end, line_end, line_next, empty_roster, with_seat, one_more, refused, with_line, roster_of};

use crate::line::{BadLine, line_of};
use crate::seat::fresh_at;
use crate::word::Kind;
use module::state::Module;
use wire::address::Address;

#[derive(Clone, Copy)]
pub struct Roster {
    // The first sixteen modules, in their places.
    pub row: [Module; 16],
    // How many modules there are, those past the sixteenth too, which have no place: so it is an array with its count.
    pub count: usize,
    // The number of the first line that is bad, of all lines of the text and counted from 1.
    pub bad: Option<usize>,
}

#[tactic(auto, using(crate::proofs::Lines::line_steps))]
pub fn roster_of(text: &[u8]) -> Roster
    ensures { result ≡ roster_of text.now }
{
    let mut r = empty_roster();
    let mut at = text_start(text);
    let mut number: usize = 0;
    // stays a `while`: with std's `split` the proof does not close, as it promises how many pieces there are and how long, and not which
    while at < text.len() {
        let end = line_end(text, at);
        let line = line_of(&text[at..end]);
        number += 1;
        r = with_line(r, number, line);
        at = line_next(text, end);
    }
    r
}

fn empty_roster() -> Roster
    ensures { result ≡ empty_roster }
{
    let nobody = fresh_at(Kind::Dimmer, Address::default());
    Roster {
        row: [nobody; 16],
        count: 0,
        bad: None,
    }
}

// Behind the byte order mark that some editors write first.
#[tactic(auto, using(crate::proofs::Marked::marked), unfolding(crate::specs::Roster::text_start, basis::specs::Choice::choose))]
fn text_start(text: &[u8]) -> usize
    ensures value { result ≡ text_start text.now }
    ensures upper_bound { result ≤ length text.now }
{
    if text.starts_with(b"\xef\xbb\xbf") {
        3
    } else {
        0
    }
}

// A line ends before 0A, or where the text does.
#[tactic(auto, using(crate::proofs::Lines::first_end))]
fn line_end(text: &[u8], at: usize) -> usize
    requires { at ≤ length text.now }
    ensures { result ≡ line_end text.now at }
{
    let behind = &text[at..];
    at + first_end(behind).unwrap_or(behind.len())
}

fn first_end(text: &[u8]) -> Option<usize>
    ensures value { result ≡ position is_end text.now }
    ensures upper_bound { IfSome result (λ n. n < length text.now) }
{
    text.iter().position(|x| *x == b'\n')
}

#[tactic(auto, unfolding(crate::specs::Roster::line_next, basis::specs::Choice::choose))]
fn line_next(text: &[u8], end: usize) -> usize
    ensures { result ≡ line_next text.now end }
{
    if end < text.len() {
        end + 1
    } else {
        text.len()
    }
}

fn with_line(r: Roster, number: usize, line: Result<Option<Module>, BadLine>) -> Roster
    requires { r.count < 2 ^ 64 - 1 }
    ensures { result ≡ with_line r number line }
{
    match line {
        Ok(None) => r,
        Ok(Some(m)) => one_more(r, m),
        Err(_) => refused(r, number),
    }
}

// The modules are counted on, and none behind the sixteenth has a place.
fn one_more(r: Roster, m: Module) -> Roster
    requires { r.count < 2 ^ 64 - 1 }
    ensures { result ≡ one_more r m }
{
    Roster {
        row: with_seat(r.row, r.count, m),
        count: r.count + 1,
        ..r
    }
}

#[tactic(auto, unfolding(crate::specs::Roster::with_seat, basis::specs::Choice::choose))]
fn with_seat(row: [Module; 16], i: usize, m: Module) -> [Module; 16]
    ensures { result ≡ with_seat row i m }
{
    let mut after = row;
    if i < 16 {
        after[i] = m;
    }
    after
}

fn refused(r: Roster, number: usize) -> Roster
    ensures { result ≡ refused r number }
{
    Roster {
        bad: r.bad.or(Some(number)),
        ..r
    }
}
