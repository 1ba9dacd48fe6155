// Examples of the paper and captures of source documents 003 and 002, run through the code and compared byte by byte.
// Standard input has them as text: a word and what belongs to it on each line, `+` where a line goes on.
//   identity         begins a fresh dimmer: address, category, subcategory, firmware, revision
//   outlet           begins a fresh outlet, by the same
//   with             gives it values by name, `with level 7F delta 03`; what is not named stays
//   links            sets the link memory; fill makes it so many bytes long
//   keep             makes this the state that every case begins with
//   case             begins a case; room sets its reply room, 5,897 bytes otherwise
//   hear             is a message to the module
//   number, searched, answer, database
//                    are the result, the records read, the reply and the link memory after it; `..` is any byte
//   then             is the module after it: what is named, `then level 80`, and all else as it was before the message
// The names are flags, led, house, unit and delta; level, ramp and on-level of a dimmer; top and bottom, 01 on or 00 off, of an outlet.
#![tactic(auto)]

ghost use Rattle.std.specs.Prelude.{◌≤◌, length};

mod board;
mod compare;
mod tally;
mod text;
mod values;

use board::{Board, Kind};
use compare::compare_line;
use std::io::Read;
use tally::Tally;
use text::goes_on;

fn main(rt: HostRuntime) {
    let mut room = [0; 131072];
    run(rt, read_full(rt, &mut room));
}

// Standard input, as far as there is room, and as far as it can be read.
// The loop stays a `while`: each read says how far it came, and one that fails ends the text and loses none of it.
fn read_full(rt: HostRuntime, room: &mut [u8]) -> &[u8]
    ensures { length result.now ≤ length room.old }
{
    let mut n: usize = 0;
    while n < room.len() {
        match rt.stdin().read(&mut room[n..]) {
            Ok(0) => break,
            Ok(more) => n += more,
            Err(_) => break,
        }
    }
    &room[..n]
}

fn run(rt: HostRuntime, text: &[u8]) {
    let mut board = Board::new();
    let mut tally = Tally::new();
    for line in text.chunk_by(|before, next| goes_on(*before, *next)) {
        take(rt, &mut board, &mut tally, line);
    }
    let _ = println!(rt; "{tally}");
}

// The first letter of a line decides.
fn take(rt: HostRuntime, board: &mut Board, tally: &mut Tally, line: &[u8]) {
    match line {
        [] | [b'#' | b'\n', ..] => {}
        [b'i', ..] => board.identify(Kind::Dimmer, line),
        [b'o', ..] => board.identify(Kind::Outlet, line),
        [b'w', ..] => {
            if let Err(mismatch) = board.set_values(line) {
                tally.count(rt, line, Err(mismatch));
            }
        }
        [b'l', ..] => board.set_links(line),
        [b'f', ..] => board.fill(line),
        [b'k', ..] => board.keep(),
        [b'c', ..] => {
            board.begin();
            tally.begin(line);
        }
        [b'r', ..] => board.set_room(line),
        [b'h', ..] => board.hear(line),
        _ => tally.count(rt, line, compare_line(board, line)),
    }
}
