// What the words of the command line ask for.
ghost use Rattle.std.specs.Prelude.{◌≡◌, ◌≤◌, length};
ghost use Rattle.desk.specs.Word.{one_word, two_words, wished, class_wished};

use crate::Show;
use roster::word::{Kind, named};
use std::env::{Env, FillError};

// At a desk: which kind of module sits there, and what is written for each frame.
#[derive(Clone, Copy)]
pub(crate) struct Wish {
    pub kind: Kind,
    pub show: Show,
}

// None where the words are none of ours.
pub(crate) fn asked(rt: HostRuntime) -> Option<Wish> {
    let mut first = [0; 8];
    let mut second = [0; 8];
    let first = word_at(rt, 1, &mut first);
    let second = word_at(rt, 2, &mut second);
    wished(count_words(rt), first, second)
}

// One that does not fit comes as an empty one, which is no word of ours either, and so does a missing one.
fn word_at(rt: HostRuntime, i: usize, room: &mut [u8; 8]) -> &[u8]
    ensures { length result.now ≤ 8 }
{
    let n = rt.arg(i, room).unwrap_or(0);
    &room[..n]
}

// How many there are, as far as it makes a difference.
fn count_words(rt: HostRuntime) -> usize {
    (0..4).find(|i| is_missing(rt, *i)).unwrap_or(4)
}

fn is_missing(rt: HostRuntime, i: usize) -> bool {
    matches!(rt.arg(i, &mut []), Err(FillError::NotPresent))
}

// The program's own name is counted too. With no word it is the paper's program.
#[tactic(auto, unfolding(crate::specs::Word::wished, basis::specs::Choice::choose))]
fn wished(count: usize, first: &[u8], second: &[u8]) -> Option<Wish>
    ensures { result ≡ wished count first.now second.now }
{
    match count {
        0 | 1 => Some(Wish {
            kind: Kind::Dimmer,
            show: Show::Frames,
        }),
        2 => one_word(first),
        3 => two_words(first, second),
        _ => None,
    }
}

#[tactic(auto, unfolding(crate::specs::Word::one_word, basis::specs::Choice::choose))]
fn one_word(word: &[u8]) -> Option<Wish>
    ensures { result ≡ one_word word.now }
{
    if word == b"lines".as_slice() {
        return Some(Wish {
            kind: Kind::Dimmer,
            show: Show::Lines,
        });
    }
    let kind = named(word)?;
    Some(Wish {
        kind,
        show: Show::Frames,
    })
}

#[tactic(auto, unfolding(crate::specs::Word::two_words, basis::specs::Choice::choose))]
fn two_words(first: &[u8], second: &[u8]) -> Option<Wish>
    ensures { result ≡ two_words first.now second.now }
{
    if second == b"lines".as_slice() {
        let kind = named(first)?;
        return Some(Wish {
            kind,
            show: Show::Lines,
        });
    }
    None
}

pub(crate) fn list_words(rt: HostRuntime) {
    let _ = eprintln!(rt; "a kind or none (dimmer, outlet), and then lines or nothing");
}

// For a class, whose kinds stand in a file: what is written for each frame.
pub(crate) fn asked_of_class(rt: HostRuntime) -> Option<Show> {
    let mut word = [0; 8];
    let word = word_at(rt, 1, &mut word);
    class_wished(count_words(rt), word)
}

#[tactic(auto, unfolding(crate::specs::Word::class_wished, basis::specs::Choice::choose))]
fn class_wished(count: usize, word: &[u8]) -> Option<Show>
    ensures { result ≡ class_wished count word.now }
{
    if count < 2 {
        return Some(Show::Frames);
    }
    if (count == 2) & (word == b"lines".as_slice()) {
        return Some(Show::Lines);
    }
    None
}

pub(crate) fn list_class_words(rt: HostRuntime) {
    let _ = eprintln!(rt; "one word or none: lines");
}
