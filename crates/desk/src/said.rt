// What goes wrong with a file or a stream, on standard error.
use arrayvec::ArrayString;
use std::fmt::Write;
use std::io::Error;

// A line: what failed, a colon, and why. The system's number of an error, which ends its text, is left out.
pub(crate) fn say_failed(rt: HostRuntime, what: &str, error: Error) {
    let mut text = ArrayString::<128>::new();
    let _ = write!(text, "{error}");
    let all = text.as_str();
    let why = all.split_once(" (os error ").map_or(all, |(why, _)| why);
    let _ = eprintln!(rt; "{what}: {why}");
}
