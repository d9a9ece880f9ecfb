//! Bytes, cut behind lines.
ghost use Rattle.std.specs.Prelude.{◌≡◌, ◌++◌, ◌<◌, ◌≤◌, length, IfSome};

use mon_text::first_line_end;

/// The first line with its line end, and what is behind it.
pub(crate) fn first_piece(text: &[u8]) -> (&[u8], &[u8])
    ensures parts { result.0.now ++ result.1.now ≡ text.now }
    ensures less { 0 < length text.now → length result.1.now < length text.now }
{
    match first_line_end(text) {
        Some(end) => text.split_at(end + 1),
        None => text.split_at(text.len()),
    }
}

/// Where so many lines end; nothing, where there are not so many whole ones.
pub(crate) fn end_of_lines(text: &[u8], count: u64) -> Option<usize>
    ensures { IfSome result (λ end. end ≤ length text.now) }
{
    let mut rest = text;
    for _ in 0..count {
        let Some(behind) = behind_line(rest) else {
            return None;
        };
        rest = behind;
    }
    Some(text.len().saturating_sub(rest.len()))
}

// What is behind the first line, where that has its line end.
fn behind_line(text: &[u8]) -> Option<&[u8]> {
    let end = first_line_end(text)?;
    let (_, behind) = text.split_at(end + 1);
    Some(behind)
}
