//! The lines of a leaf's certificate.

ghost use Rattle.std.specs.Prelude.{◌<◌, ◌^◌, length};
ghost use Rattle.rob_tree.specs.Parts.{IsPart};

use rob_cert::cursor::split_byte;

/// The lines of a certificate, and what stands behind them.
#[derive(Clone, Copy, Debug)]
pub struct Part<'a> {
    pub lines: &'a [u8],
    pub behind: &'a [u8],
    /// How many lines end in them.
    pub count: u32,
}

/// The lines up to the next line `end`, or, where none comes, up to the end of the text.
pub fn certificate_part(text: &[u8]) -> Part<'_>
    requires small { length text.now < 2 ^ 32 }
    ensures part { IsPart text.now result.lines.now result.behind.now result.count }
{
    let mut at = 0usize;
    let mut count = 0u32;
    while let Some(split) = split_byte(&text[at..], b'\n') {
        at += split.front.len() + 1;
        count += 1;
        if split.front == b"end".as_slice() {
            return Part {
                lines: &text[..at],
                behind: &text[at..],
                count,
            };
        }
    }
    Part {
        lines: text,
        behind: &text[text.len()..],
        count,
    }
}
