//! Lines of a case, as the text that they stand for.

use anyhow::{Result, bail};
use std::alloc::{AllocError, Global};

/// The text of these lines: one behind a blank has its line end, one behind a `-` has none.
pub fn text_of(alloc: Global, lines: &str) -> Result<Vec<u8>> {
    let mut text = Vec::new(alloc);
    for line in lines.split('\n') {
        match line.as_bytes() {
            [] => {}
            [b' ', line @ ..] => put_line(line, &mut text)?,
            [b'-', line @ ..] => text.extend_from_slice(line)?,
            _ => bail!("a line has neither a blank nor a - before it"),
        }
    }
    Ok(text)
}

/// Appends a line, and its line end.
pub fn put_line(line: &[u8], text: &mut Vec<u8>) -> Result<(), AllocError> {
    text.extend_from_slice(line)?;
    text.extend_from_slice(b"\n")
}
