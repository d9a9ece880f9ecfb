//! The words of the command line, and what they ask.
use clap::error::ErrorKind;
use clap::{Arg, ArgAction, ArgMatches, Command, Error};
use deck_parts::MOST_PARTS;
use mon_text::read_count;
use std::alloc::{AllocError, Global};
use std::convert::AsStr;

/// How many parts there are at most, where no number is given.
const USUAL_PARTS: u64 = 16;

/// What is asked.
#[derive(Drop)]
pub enum Asked {
    /// To cut a deck into parts.
    Split(Splitting),
    /// To put together what they wrote.
    Join(Joining),
}

/// How a deck is to be cut.
#[derive(Drop)]
pub struct Splitting {
    /// The path of the deck.
    pub deck: String,
    /// The path of the folder for the parts.
    pub folder: String,
    /// How many parts there may be.
    pub most: u64,
    /// Whether it is told which data sets keep submissions together.
    pub ties: bool,
    /// Whether nothing is done where it would be one part.
    pub several: bool,
}

/// What is to be put together.
#[derive(Drop)]
pub struct Joining {
    /// The path of the folder.
    pub folder: String,
    /// The path of the file for it; standard output, where none is given.
    pub output: Option<String>,
    /// Whether it is the audits.
    pub audit: bool,
}

/// What the words of a command line ask. The first word is the program's name.
///
/// # Errors
///
/// Where the words ask nothing, or for help or the version, whose text it is then (`DisplayHelp`, `DisplayVersion`). The text is
/// `clap`'s. Its kind is `OutOfMemory` where a growth was refused.
pub fn read_asked<S: AsStr>(alloc: Global, words: &[S]) -> Result<Asked, Error> {
    let command = command(alloc)?;
    let matches = command.try_get_matches_from(words)?;
    match matches.subcommand() {
        Some(("split", of)) => read_split(alloc, of),
        Some((_, of)) => read_join(alloc, of),
        None => Err(nothing(alloc)),
    }
}

fn read_split(alloc: Global, of: &ArgMatches) -> Result<Asked, Error> {
    let Some(most) = parts_in(of) else {
        return Err(no_parts(alloc));
    };
    let deck = text_of(alloc, of, "DECK")?;
    let folder = text_of(alloc, of, "to")?;
    Ok(Asked::Split(Splitting {
        deck,
        folder,
        most,
        ties: of.get_flag("ties"),
        several: of.get_flag("several"),
    }))
}

// The number that is given, if it is one.
fn parts_in(of: &ArgMatches) -> Option<u64> {
    let Some(word) = of.get_str("parts") else {
        return Some(USUAL_PARTS);
    };
    match read_count(word.as_bytes()) {
        Ok(count) if count >= 1 && count <= MOST_PARTS => Some(count),
        _ => None,
    }
}

fn read_join(alloc: Global, of: &ArgMatches) -> Result<Asked, Error> {
    let folder = text_of(alloc, of, "DIR")?;
    let output = match of.get_str("output") {
        Some(path) => Some(String::from_str(alloc, path)?),
        None => None,
    };
    Ok(Asked::Join(Joining {
        folder,
        output,
        audit: of.get_flag("audit"),
    }))
}

fn text_of(alloc: Global, of: &ArgMatches, id: &str) -> Result<String, AllocError> {
    match of.get_str(id) {
        Some(word) => String::from_str(alloc, word),
        None => String::from_str(alloc, ""),
    }
}

fn nothing(alloc: Global) -> Error {
    refusal(
        alloc,
        ErrorKind::MissingSubcommand,
        "one of split and join is wanted",
    )
}

fn no_parts(alloc: Global) -> Error {
    refusal(
        alloc,
        ErrorKind::ValueValidation,
        "there are 1 to 999 parts",
    )
}

/// The error for a word that is no text, and so no option. Its kind is `OutOfMemory` where a growth was refused.
pub fn no_text(alloc: Global) -> Error {
    refusal(
        alloc,
        ErrorKind::UnknownArgument,
        "a word is no text in UTF-8",
    )
}

// The error of this kind, or that of memory.
fn refusal(alloc: Global, kind: ErrorKind, words: &str) -> Error {
    match error_of_command(alloc, kind, words) {
        Ok(error) => error,
        Err(refused) => Error::from(refused),
    }
}

fn error_of_command(alloc: Global, kind: ErrorKind, words: &str) -> Result<Error, AllocError> {
    let mut command = command(alloc)?;
    command.error(kind, words)
}

// What follows the list of commands in the help.
const AFTER_HELP: &str =
    "A deck of submissions, each of one account and with a $DRAIN card at its end, is cut into decks that
share no data set:

  snomon-parts split monday.deck --to parts --parts 4
  for part in parts/*.deck; do snomon < $part > ${part%.deck}.out & done; wait
  snomon-parts join parts -o monday.out

Exit status: 0 where all was done, and for this help and the version; 1 where the deck is refused,
where it would be one part and --several is given, or where an output is not that of its part; 2
where the words ask nothing; 3 where reading, writing or memory failed.
";

// The program's commands, as `clap` knows them.
fn command<'a>(alloc: Global) -> Result<Command<'a>, AllocError> {
    let program = Command::new(alloc, "snomon-parts")
        .version("0.1.0")
        .about("Cuts a deck into parts that may run at once, and puts together what they wrote")
        .after_help(AFTER_HELP);
    let program = add_command(program, split_command(alloc))?;
    add_command(program, join_command(alloc))
}

// The program with one command more, if that was made.
fn add_command<'a>(
    program: Command<'a>,
    command: Result<Command<'a>, AllocError>,
) -> Result<Command<'a>, AllocError> {
    program.subcommand(command?)
}

fn split_command<'a>(alloc: Global) -> Result<Command<'a>, AllocError> {
    let command = Command::new(alloc, "split").about("Cuts a deck into the decks of its parts");
    let options = Vec::from_array(alloc, split_options(alloc))?;
    command.args(options)
}

fn split_options<'a>(alloc: Global) -> [Arg<'a>; 5] {
    [
        place(alloc, "DECK", "The deck"),
        named(alloc, "to", "DIR", "The folder for the parts").required(true),
        named(
            alloc,
            "parts",
            "N",
            "How many parts there may be; 16 where it is not given",
        ),
        flag(
            alloc,
            "ties",
            "Tells which data sets keep how many submissions in one part",
        ),
        flag(alloc, "several", "Does nothing where it would be one part"),
    ]
}

fn join_command<'a>(alloc: Global) -> Result<Command<'a>, AllocError> {
    let command = Command::new(alloc, "join").about("Puts together what the parts wrote");
    let options = Vec::from_array(alloc, join_options(alloc))?;
    command.args(options)
}

fn join_options<'a>(alloc: Global) -> [Arg<'a>; 3] {
    [
        place(alloc, "DIR", "The folder of the parts"),
        named(
            alloc,
            "output",
            "FILE",
            "The file for it; standard output where it is not given",
        )
        .short('o'),
        flag(alloc, "audit", "The audits, and not the outputs"),
    ]
}

// A word that has to be there.
fn place<'a>(alloc: Global, name: &'a str, help: &'a str) -> Arg<'a> {
    Arg::new(alloc, name)
        .required(true)
        .action(ArgAction::Set)
        .help(help)
}

// An option that gives a value.
fn named<'a>(alloc: Global, name: &'a str, value: &'a str, help: &'a str) -> Arg<'a> {
    Arg::new(alloc, name)
        .long(name)
        .action(ArgAction::Set)
        .value_name(value)
        .help(help)
}

// An option that is given or not.
fn flag<'a>(alloc: Global, name: &'a str, help: &'a str) -> Arg<'a> {
    Arg::new(alloc, name)
        .long(name)
        .action(ArgAction::SetTrue)
        .help(help)
}
