// What the programs share: link memory from links.bin, frames from standard input, and who sits there ("The program").
#![tactic(auto)]

mod answer;
mod input;
mod said;
mod serve;
mod word;

use answer::{Lent, fresh};
use input::load;
use roster::roster::roster_of;
use roster::seat::bench_of;
use seating::heed::Seating;
use seating::start::{alone, class_with};
use word::{asked, asked_of_class, list_class_words, list_words};

// What is written for each frame: two ways, of which `tell` and `finish` know both, so that a closure for each would be no plainer.
#[derive(Clone, Copy)]
pub enum Show {
    // Its reply, in frames.
    Frames,
    // A line for a person to read, and a count of frames by result at the end.
    Lines,
}

// How long the longest reply is.
const ROOM: usize = 5897;

// The module that the command line names serves what arrives until it ends. Where the words are none of ours, that is said on standard
// error, and nothing is read.
pub fn sit(rt: HostRuntime) {
    match asked(rt) {
        Some(wish) => serve_all(rt, wish.show, alone(bench_of(wish.kind))),
        None => list_words(rt),
    }
}

// The class that the file `row` names serves what arrives until it ends; where a line of it is bad, that is said on standard error,
// and nothing is served.
pub fn teach(rt: HostRuntime) {
    match asked_of_class(rt) {
        Some(show) => teach_as(rt, show),
        None => list_class_words(rt),
    }
}

fn teach_as(rt: HostRuntime, show: Show) {
    // An array and how much of it was read, as there is no heap. One byte more than is taken, so that a longer file is seen to be too long.
    let mut text = [0; 4097];
    let Some(n) = load(rt, "row", true, &mut text) else {
        return;
    };
    if 4096 < n {
        say_too_long(rt);
        return;
    }
    let roster = roster_of(&text[..n]);
    if let Some(number) = roster.bad {
        say_bad_line(rt, number);
        return;
    }
    serve_all(rt, show, class_with(roster.row, roster.count));
}

// What goes wrong with a file is said on standard error, and ends it too.
fn serve_all(rt: HostRuntime, show: Show, seating: Seating) {
    // One byte more than sixteen shares have, so that a longer file is seen to be unfit. An array, too, and how much of it was read.
    let mut memory = [0; 32769];
    let Some(n) = load(rt, "links.bin", false, &mut memory) else {
        return;
    };
    // arrays, as there is no heap; less than one frame ever waits, so a read always has room
    let mut held = [0; 4096];
    let mut room = [0; ROOM];
    // the frames of the longest reply, or its line
    let mut out = [0; 18432];
    let mut lent = Lent::<ROOM> {
        rt,
        show,
        links: &mut memory[..n],
        room: &mut room,
        out: &mut out,
    };
    lent.serve_until_end(fresh(seating), &mut held);
}

fn say_too_long(rt: HostRuntime) {
    let _ = eprintln!(rt; "row: more than 4,096 bytes");
}

fn say_bad_line(rt: HostRuntime, number: usize) {
    let _ = eprintln!(rt;
        "row, line {number}: expected a kind (dimmer, outlet) and three or seven bytes, as in dimmer 00 10 3A"
    );
}
