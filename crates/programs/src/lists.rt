//! The lists that name the cases.
use anyhow::{Context, Result};
use std::fs::{self, Files};

/// The text of a list, a name on each line. One that is missing names none.
pub fn list_of<R: Files + AllocGlobal>(rt: &R, list: &str) -> Result<String> {
    if fs::exists(rt, list)? {
        fs::read_to_string(rt, list).context(format_args!("reading {list}"))
    } else {
        Ok(String::new(rt.alloc()))
    }
}
