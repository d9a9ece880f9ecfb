//! Moments of a site's life, as words of a command line tell them.
use jiff::Timestamp;
use jiff::civil::DateTime;
use jiff::tz::Offset;
use mon_text::read_count;

/// A moment of a site's life.
#[derive(Clone, Copy)]
pub enum Moment {
    /// Before the first run of a submission with a larger number.
    Behind(u64),
    /// So many seconds after the beginning of 1970, UTC.
    At(u64),
}

/// The moment that a word tells: the number of a submission, or a time, as `2026-11-28`, `2026-11-28T14:30` or
/// `2026-11-28T14:30:05+01:00`. A day is its beginning, and a time without an offset is UTC.
pub fn read_moment(word: &str) -> Option<Moment> {
    match read_count(word.as_bytes()) {
        Ok(number) => Some(Moment::Behind(number)),
        Err(_) => read_time(word),
    }
}

fn read_time(word: &str) -> Option<Moment> {
    let time = match word.parse::<Timestamp>() {
        Ok(time) => time,
        Err(_) => time_in_utc(word)?,
    };
    match u64::try_from(time.as_second()) {
        Ok(seconds) => Some(Moment::At(seconds)),
        Err(_) => None,
    }
}

fn time_in_utc(word: &str) -> Option<Timestamp> {
    let time = word.parse::<DateTime>().ok()?;
    Offset::UTC.to_timestamp(time).ok()
}
