// What a line says came out, held against what did.
use crate::board::{BLANK, Board};
use crate::text::{Spelling, number_in};
use crate::values::{Changes, with_named};
use std::fmt;

// What came in place of what a line says.
#[derive(Drop)]
pub(crate) enum Mismatch<'a> {
    // a word or a byte that cannot be read
    NotUnderstood,
    // nothing that could be compared came out
    Nothing,
    Number(u64),
    Bytes(&'a [u8]),
    Values(Changes<'a>),
}

impl<'a> fmt::Display for Mismatch<'a> {
    fn fmt<W: fmt::Write>(&self, f: &mut fmt::Formatter<W>) -> fmt::Result {
        match self {
            Mismatch::NotUnderstood => write!(f, "not understood"),
            Mismatch::Nothing => write!(f, "nothing came"),
            Mismatch::Number(came) => write!(f, "came {came}"),
            Mismatch::Bytes(came) => write_bytes(f, came),
            Mismatch::Values(changes) => write!(f, "came{changes}"),
        }
    }
}

fn write_bytes<W: fmt::Write>(f: &mut fmt::Formatter<W>, came: &[u8]) -> fmt::Result {
    write!(f, "came")?;
    for byte in came {
        write!(f, " {byte:02x}")?;
    }
    Ok(())
}

pub(crate) fn compare_line<'a>(board: &'a Board, line: &[u8]) -> Result<(), Mismatch<'a>> {
    let [length, read] = board.report;
    match line {
        [b't', ..] => compare_module(board, line),
        [b'n', ..] => compare_number(line, board.result),
        [b's', ..] => compare_number(line, read),
        [b'a', ..] => compare_reply(&board.room, length, line),
        [b'd', ..] => compare_links(board, line),
        _ => Err(Mismatch::NotUnderstood),
    }
}

// The values that a line names, and the others as they were before the message.
fn compare_module<'a>(board: &'a Board, line: &[u8]) -> Result<(), Mismatch<'a>> {
    let before = &board.before;
    let came = &board.now.module;
    let wanted = with_named(before, line).ok_or(Mismatch::NotUnderstood)?;
    if *came == wanted {
        return Ok(());
    }
    Err(Mismatch::Values(Changes { before, came }))
}

fn compare_number(line: &[u8], came: u64) -> Result<(), Mismatch<'static>> {
    // `as`: std has no `From` between them, and `try_from` has an error that cannot arise.
    if number_in(line) as u64 == came {
        return Ok(());
    }
    Err(Mismatch::Number(came))
}

fn compare_links<'a>(board: &'a Board, line: &[u8]) -> Result<(), Mismatch<'a>> {
    if board.now.is_overlong {
        return Err(Mismatch::Nothing);
    }
    compare_bytes(board.now.links.as_slice(), line)
}

// The reply, and the room behind it as it was.
fn compare_reply<'a>(room: &'a [u8], length: u64, line: &[u8]) -> Result<(), Mismatch<'a>> {
    let length = usize::try_from(length).map_err(|_| Mismatch::Nothing)?;
    let (reply, behind) = room.split_at_checked(length).ok_or(Mismatch::Nothing)?;
    if behind.iter().any(|byte| *byte != BLANK) {
        return Err(Mismatch::Nothing);
    }
    compare_bytes(reply, line)
}

fn compare_bytes<'a>(came: &'a [u8], line: &[u8]) -> Result<(), Mismatch<'a>> {
    if is_spelled(came, line) {
        return Ok(());
    }
    Err(Mismatch::Bytes(came))
}

fn is_spelled(came: &[u8], line: &[u8]) -> bool {
    let mut spelling = Spelling(line);
    for byte in came {
        match spelling.next() {
            Some(wanted) if wanted.is_met(*byte) => {}
            _ => return false,
        }
    }
    spelling.next().is_none()
}
