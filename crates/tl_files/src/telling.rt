//! How a call of the system that failed is told.

use std::alloc::Global;
use std::io;

/// Says on standard error what the system said of the call on what has this name, in one line. Where
/// that fails, the status of the program says enough.
pub fn tell(alloc: Global, errors: &impl Print, name: &str, error: &io::Error) {
    if let Ok(text) = format!(in alloc; "{error}") {
        let name = shown(name);
        let reason = reason(text.as_str());
        let _ = println!(errors; "tablelayout: {name}: {reason}");
    }
}

/// The name for a reader: a stream may have been named by `-`, or not at all.
fn shown(name: &str) -> &str {
    match name {
        "/dev/stdin" => "standard input",
        "/dev/stdout" => "standard output",
        "/dev/stderr" => "standard error",
        _ => name,
    }
}

/// The text of an error without the number that the system gives it.
fn reason(text: &str) -> &str {
    match text.split_once(" (os error ") {
        Some((reason, _)) => reason,
        None => text,
    }
}

#[cfg(test)]
mod tests {
    use super::{reason, shown};

    #[test]
    fn a_stream_and_a_number_are_not_shown(rt: HostRuntime) {
        assert_eq!(rt; shown("/dev/stdout"), "standard output");
        assert_eq!(rt; shown("dev/stdout"), "dev/stdout");
        assert_eq!(rt; reason("No such file (os error 2)"), "No such file");
        assert_eq!(rt; reason("out of memory"), "out of memory");
    }
}
