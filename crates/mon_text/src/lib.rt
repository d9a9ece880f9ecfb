//! Names, lines, words and numbers: the text that every other crate reads and writes.
//!
//! All text is ASCII, and a contract sees it as the list of its bytes.
#![tactic(auto)]

pub mod count;
pub mod ended_line;
pub mod line;
pub mod line_feed;
pub mod listed;
pub mod name;
pub mod stop;
mod words;

pub use count::{BadNumber, put_number, read_count};
pub use ended_line::EndedLine;
pub use line::{Line, LineError, Lines, read_line, split_words};
pub use line_feed::{LineFeed, MOST_KEPT_BYTES, first_line_end};
pub use listed::Listed;
pub use name::{BadName, Name, leading_name, read_name};
pub use stop::Stop;
