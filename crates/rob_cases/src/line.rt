//! The lines of the format.

/// A line.
#[derive(Debug, Clone, Copy)]
pub enum Line<'a> {
    /// An empty line, or a remark.
    Nothing,
    /// A case of that name begins.
    Case(&'a str),
    /// The next word of the command line.
    Word(&'a str),
    /// The next words of the command line, with a space between two.
    Words(&'a str),
    /// A file of that name begins.
    File(&'a str),
    /// What the case before put is a file of that name.
    Printed(&'a str),
    /// The bytes that are to be put begin.
    Puts,
    /// Bytes, so many times, with a line end behind them or without one.
    Bytes(u32, &'a str, bool),
    /// The fetch of that number fails.
    ReadFault(u64),
    /// The put of that number fails after so many bytes.
    WriteFault(u64, usize),
    /// The status that is wanted; the case ends.
    Status(u8),
    /// No line of the format.
    Unknown,
}

/// Reads a line.
pub(crate) fn read_line(text: &str) -> Line<'_> {
    if text.is_empty() || text.starts_with('#') {
        return Line::Nothing;
    }
    if text == "puts" {
        return Line::Puts;
    }
    if let Some(bytes) = text.strip_prefix('|') {
        return Line::Bytes(1, bytes, true);
    }
    if let Some(bytes) = text.strip_prefix('+') {
        return Line::Bytes(1, bytes, false);
    }
    match text.split_once(' ') {
        Some((keyword, rest)) => read_keyword(keyword, rest),
        None => Line::Unknown,
    }
}

/// Reads a line that begins with a keyword.
fn read_keyword<'a>(keyword: &str, rest: &'a str) -> Line<'a> {
    if keyword == "case" {
        Line::Case(rest)
    } else if keyword == "word" {
        Line::Word(rest)
    } else if keyword == "words" {
        Line::Words(rest)
    } else if keyword == "file" {
        Line::File(rest)
    } else if keyword == "printed" {
        Line::Printed(rest)
    } else if keyword == "times" {
        read_times(rest)
    } else {
        read_number(keyword, rest)
    }
}

/// Reads a line that begins with a keyword and a number.
fn read_number<'a>(keyword: &str, rest: &'a str) -> Line<'a> {
    if keyword == "status" {
        read_status(rest)
    } else if keyword == "read-fault" {
        read_fault(rest)
    } else if keyword == "write-fault" {
        read_write_fault(rest)
    } else {
        Line::Unknown
    }
}

/// Reads the status that is wanted.
fn read_status(rest: &str) -> Line<'_> {
    match rest.parse::<u8>() {
        Ok(status) => Line::Status(status),
        Err(_) => Line::Unknown,
    }
}

/// Reads the number of a fetch that fails.
fn read_fault(rest: &str) -> Line<'_> {
    match rest.parse::<u64>() {
        Ok(call) => Line::ReadFault(call),
        Err(_) => Line::Unknown,
    }
}

/// Reads the two numbers of a put that fails.
fn read_write_fault(rest: &str) -> Line<'_> {
    let Some((call, first)) = rest.split_once(' ') else {
        return Line::Unknown;
    };
    match (call.parse::<u64>(), first.parse::<usize>()) {
        (Ok(call), Ok(first)) => Line::WriteFault(call, first),
        _ => Line::Unknown,
    }
}

/// Reads how often bytes stand, and the bytes.
fn read_times(rest: &str) -> Line<'_> {
    let Some((count, bytes)) = rest.split_once(' ') else {
        return Line::Unknown;
    };
    match count.parse::<u32>() {
        Ok(count) => Line::Bytes(count, bytes, false),
        Err(_) => Line::Unknown,
    }
}
