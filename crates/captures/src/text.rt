// Lines of text, and the numbers and bytes in them.
ghost use Rattle.std.specs.Prelude.{◌<◌, length, IfSome};
ghost use Rattle.std.specs.Iterator.{at_most};

use arrayvec::ArrayVec;

// What a line spells for a byte: two capital digits, or `..` for any.
#[derive(Clone, Copy)]
pub(crate) enum Spelled {
    Any,
    Byte(u8),
}

impl Spelled {
    pub(crate) fn is_met(self, came: u8) -> bool {
        match self {
            Spelled::Any => true,
            Spelled::Byte(byte) => byte == came,
        }
    }

    // What stands in a message or a memory: any byte is 00 there.
    pub(crate) fn value(self) -> u8 {
        match self {
            Spelled::Any => 0x00,
            Spelled::Byte(byte) => byte,
        }
    }
}

// The bytes that a line spells, in turn. Whatever else stands there is passed over.
#[derive(Clone, Copy)]
pub(crate) struct Spelling<'a>(pub &'a [u8]);

impl<'a> Iterator for Spelling<'a> {
    type Item = Spelled;

    ghost remaining = { λ s. at_most (length s.0.now) };

    fn next(&mut self) -> Option<Spelled> {
        while let [a, b, rest @ ..] = self.0 {
            if let Some(byte) = pair(*a, *b) {
                self.0 = rest;
                return Some(byte);
            }
            self.0 = &self.0[1..];
        }
        None
    }
}

// A line goes on over this break: the next one begins with `+`.
pub(crate) fn goes_on(before: u8, next: u8) -> bool {
    before != b'\n' || next == b'+'
}

// A line without its end.
pub(crate) fn bare(line: &[u8]) -> &[u8] {
    line.strip_suffix(b"\n").unwrap_or(line)
}

// The number written in a line: all of its digits, as far as they fit.
pub(crate) fn number_in(line: &[u8]) -> usize {
    line.iter().fold(0, |n, c| with_digit(n, *c))
}

// By hand, as what stands between the digits is passed over.
fn with_digit(n: usize, c: u8) -> usize {
    match c {
        b'0'..=b'9' if n <= 1000000 => 10 * n + usize::from(c - b'0'),
        _ => n,
    }
}

// The bytes written in a line, as many as there is room for.
pub(crate) fn bytes_in<const N: usize>(line: &[u8]) -> ArrayVec<u8, N> {
    let mut bytes = ArrayVec::new();
    let _ = bytes.extend(Spelling(line).map(|byte| byte.value()));
    bytes
}

// The byte that a word is, with the space or the line's end behind it.
pub(crate) fn byte_of(word: &[u8]) -> Option<u8> {
    let ([a, b] | [a, b, _]) = word else {
        return None;
    };
    match pair(*a, *b)? {
        Spelled::Any => None,
        Spelled::Byte(byte) => Some(byte),
    }
}

fn pair(a: u8, b: u8) -> Option<Spelled> {
    if a == b'.' && b == b'.' {
        return Some(Spelled::Any);
    }
    let high = digit(a)?;
    let low = digit(b)?;
    Some(Spelled::Byte(16 * high + low))
}

// By hand: std's `to_digit` takes small letters too.
fn digit(c: u8) -> Option<u8>
    ensures { IfSome result (λ d. d < 16) }
{
    match c {
        b'0'..=b'9' => Some(c - b'0'),
        b'A'..=b'F' => Some(c - b'A' + 10),
        _ => None,
    }
}
