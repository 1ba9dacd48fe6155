// A line of the row: a kind, and an address of three bytes or an identity of seven, as in `dimmer 00 10 3A # her name`; or nothing.
ghost use Rattle.std.specs.Prelude.{◌≡◌};
ghost use Rattle.roster.specs.Line.{line_as, line_of};

use crate::bytes::bytes_behind;
use crate::seat::{fresh_as, fresh_at};
use crate::word::{Kind, named_any};
use crate::words::{bare_length, word_end, word_start};
use module::state::{Identity, Module};
use wire::address::Address;

// Why a line is refused.
#[derive(Clone, Copy)]
pub enum BadLine {
    // Its first word names no kind.
    Kind,
    // Its other words are not three bytes, and not seven.
    Bytes,
}

// The module that it names, or none where no word stands there.
#[tactic(auto, using(crate::proofs::Worded::word_steps))]
pub fn line_of(line: &[u8]) -> Result<Option<Module>, BadLine>
    ensures { result ≡ line_of line.now }
{
    let n = bare_length(line);
    let bare = &line[..n];
    let start = word_start(bare, 0);
    if start >= n {
        return Ok(None);
    }
    let end = word_end(bare, start);
    let kind = named_any(&bare[start..end]).ok_or(BadLine::Kind)?;
    let bytes = bytes_behind(bare, end).ok_or(BadLine::Bytes)?;
    line_as(kind, &bytes)
}

// By how many bytes there are.
#[tactic(auto, unfolding(crate::specs::Line::line_as, basis::specs::Choice::choose))]
fn line_as(kind: Kind, bytes: &[u8]) -> Result<Option<Module>, BadLine>
    ensures { result ≡ line_as kind bytes.now }
{
    match *bytes {
        [high, middle, low] => Ok(Some(fresh_at(kind, Address { high, middle, low }))),
        [high, middle, low, category, subcategory, firmware, revision] => {
            let identity = Identity {
                address: Address { high, middle, low },
                category,
                subcategory,
                firmware,
                revision,
            };
            Ok(Some(fresh_as(kind, identity)))
        }
        _ => Err(BadLine::Bytes),
    }
}
