//! A deck's syntax: bytes are cut into lines, lines belong to sections, and each is refused or adds to the deck.
//!
//! One reader walks a deck for all who do: it knows where it stands, in the deck's front or in its stream, and what the next line brings.
//! It knows no data set's rights and no machine.
#![tactic(auto)]

pub mod front_reader;
pub mod job;
pub mod job_deck;
pub mod job_limits;
mod job_options;
pub mod laws;
pub mod lines;
pub mod list;
pub mod listing;
pub mod reading;
pub mod request;
pub mod stream_reader;

pub use deck_lines::{
    Card, Command, DeckError, MOST_LINE_CHARACTERS, Turn, card_of, from_blank, line_refusal,
};
pub use front_reader::{Front, FrontReader};
pub use job::{OpenJob, is_job_card_line};
pub use job_deck::{JobDeck, UnitCard, UnitCards};
pub use job_limits::JobLimits;
pub use lines::{first_line, whole_lines};
pub use list::OpenList;
pub use listing::Listing;
pub use reading::{
    finish_catalogue, opens_accounts, put_account_line, put_catalogue_line, put_record_line,
};
pub use request::{Request, ends_list, read_request};
pub use stream_reader::{Event, StreamReader};
