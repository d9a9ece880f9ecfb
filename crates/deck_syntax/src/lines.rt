//! The lines of a text, as the reader of decks takes them.
ghost use Rattle.std.specs.Prelude.{◌≡◌, ◌∷◌, ◌<◌, length, IfOk};
ghost use Rattle.std.specs.Str.Lines.{lines, strip_carriage_return};
ghost use Rattle.mon_catalogue.specs.Text.{text_of};

use mon_text::first_line_end;
use std::alloc::{AllocError, Global};

/// The first line of a text, without its line end, and the bytes behind that.
pub fn first_line(text: &[u8]) -> (&[u8], &[u8])
    requires { 0 < length text.now }
    ensures parts { lines text.now ≡ result.0.now ∷ lines result.1.now }
    ensures less { length result.1.now < length text.now }
{
    match first_line_end(text) {
        Some(end) => {
            let line = without_carriage_return(&text[..end]);
            (line, &text[end + 1..])
        }
        None => (text, &text[text.len()..]),
    }
}

// A CR before the LF belongs to the line end.
fn without_carriage_return(line: &[u8]) -> &[u8]
    ensures { result.now ≡ strip_carriage_return line.now }
{
    if line.last() == Some(&b'\r') {
        &line[..line.len() - 1]
    } else {
        line
    }
}

/// The lines of a text, each ended by LF. It takes no more memory than the text has, and one byte.
///
/// # Errors
///
/// Where a growth was refused.
pub fn whole_lines(alloc: Global, text: &[u8]) -> Result<Vec<u8>, AllocError>
    ensures { IfOk result (λ whole. whole.items ≡ text_of (lines text.now)) }
{
    let mut whole = Vec::with_capacity(alloc, text.len() + 1)?;
    let mut rest = text;
    'lines: while !rest.is_empty() {
        let (line, behind) = first_line(rest);
        whole.extend_from_slice(line)?;
        whole.push(b'\n')?;
        rest = behind;
    }
    Ok(whole)
}
