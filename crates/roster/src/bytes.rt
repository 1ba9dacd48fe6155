// Words that are bytes, as in `00 10 3A`.
ghost use Rattle.std.specs.Prelude.{◌≡◌, ◌<◌, ◌≤◌, length, IfSome};
ghost use Rattle.std.specs.Option.{option_map};
ghost use Rattle.roster.specs.Words.{words_behind};
ghost use Rattle.roster.specs.Bytes.{digit_of, byte_of, bytes_of};

use crate::words::{word_end, word_start};
use arrayvec::ArrayVec;

// No line has more than seven.
pub(crate) type Bytes = ArrayVec<u8, 7>;

// A line and a place in it stay two parameters, here and in `words`: each search goes on from the place that the one before it says, and a
// struct of both would be made anew at each.

// All words from a place on; none where one of them is no byte, or where there are too many.
#[tactic(auto, using(crate::proofs::Taken::byte_steps))]
pub(crate) fn bytes_behind(line: &[u8], from: usize) -> Option<Bytes>
    requires { from ≤ length line.now }
    ensures { option_map (λ bytes. bytes.items) result ≡ bytes_of (words_behind line.now from) }
{
    let mut bytes = Bytes::new();
    let mut at = word_start(line, from);
    // stays a `while`, from word to word: with std's `split` the proof does not close, as it does not promise which words there are
    while at < line.len() {
        let end = word_end(line, at);
        let byte = byte_of(&line[at..end])?;
        if bytes.is_full() {
            return None;
        }
        bytes.push(byte);
        at = word_start(line, end);
    }
    Some(bytes)
}

#[tactic(auto, unfolding(crate::specs::Bytes::byte_of))]
fn byte_of(word: &[u8]) -> Option<u8>
    ensures { result ≡ byte_of word.now }
{
    match *word {
        [high, low] => Some(digit_of(high)? * 16 + digit_of(low)?),
        _ => None,
    }
}

// A digit is below 16, so that `try_from` would have an error that cannot arise.
#[tactic(auto, unfolding(crate::specs::Bytes::digit_of, basis::specs::Choice::choose))]
fn digit_of(x: u8) -> Option<u8>
    ensures value { result ≡ digit_of x }
    ensures upper_bound { IfSome result (λ digit. digit < 16) }
{
    char::from(x).to_digit(16).map(|digit| digit as u8)
}
