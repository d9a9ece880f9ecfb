//! Where an output differs from what was wanted, for the programs that try worked cases.
ghost use Rattle.std.specs.Prelude.{◌≡◌, ◌↔◌, IsNone};

use std::fmt;

/// The first line that differs; a text that ends before that line has none.
#[derive(Drop)]
pub struct Difference<'a> {
    /// Counted from 1.
    number: usize,
    wanted: Option<&'a [u8]>,
    seen: Option<&'a [u8]>,
}

impl fmt::Display for Difference<'_> {
    fn fmt<W: fmt::Write>(&self, f: &mut fmt::Formatter<W>) -> fmt::Result {
        write!(f, "line {}: ", self.number)?;
        match self.wanted {
            Some(line) => write!(f, "`{}` is wanted, and ", line.escape_ascii())?,
            None => write!(f, "no line is wanted, and ")?,
        }
        match self.seen {
            Some(line) => write!(f, "not `{}`", line.escape_ascii()),
            None => write!(f, "there is none"),
        }
    }
}

/// Compares two texts: `None` where they are the same.
pub fn first_difference<'a>(wanted: &'a [u8], seen: &'a [u8]) -> Option<Difference<'a>>
    ensures { IsNone result ↔ (wanted.now ≡ seen.now) }
{
    if wanted == seen {
        return None;
    }
    let lines_wanted = wanted.split(|byte| *byte == b'\n');
    let lines_seen = seen.split(|byte| *byte == b'\n');
    let same = lines_wanted
        .zip(lines_seen)
        .take_while(|(a, b)| a == b)
        .count();
    Some(Difference {
        number: same.saturating_add(1),
        wanted: wanted.split(|byte| *byte == b'\n').nth(same),
        seen: seen.split(|byte| *byte == b'\n').nth(same),
    })
}
