//! The words of the command line, and what they ask.
ghost use Rattle.std.specs.Prelude.{◌≡◌, IfOk};
ghost use Rattle.clap.specs.Words.{first_value, found_of};

use access_report::{Form, Question};
use clap::error::ErrorKind;
use clap::{Arg, ArgAction, ArgMatches, Command, Error};
use deck_review::Detail;
use mon_text::{Name, read_name};
use std::alloc::{AllocError, Global};
use std::convert::AsStr;

/// What is asked of a deck.
#[derive(Drop)]
pub enum Asked {
    /// A listing of its jobs and its mistakes.
    Listing(Listing),
    /// Who may do what.
    Access(Question),
}

/// A listing that is asked for.
#[derive(Drop)]
pub struct Listing {
    /// How much is told.
    pub detail: Detail,
    /// The account that submits it, where it is a submission and no deck.
    pub own: Option<Name>,
}

/// What the words of a command line ask. The first word is the program's name.
///
/// # Errors
///
/// Where the words ask nothing of a deck: an unknown one, one that is given twice, a name that is none; or help or the version,
/// whose text it is then (`DisplayHelp`, `DisplayVersion`). The text is `clap`'s. Its kind is `OutOfMemory` where a growth was
/// refused.
pub fn read_asked<S: AsStr>(alloc: Global, words: &[S]) -> Result<Asked, Error> {
    let matches = command(alloc)?.try_get_matches_from(words)?;
    if matches.get_flag("access") {
        read_access(alloc, &matches)
    } else {
        read_listing(alloc, &matches)
    }
}

fn read_access(alloc: Global, matches: &ArgMatches) -> Result<Asked, Error> {
    if matches.get_flag("quiet") || matches.get_flag("text") {
        let what = "--quiet and --text go without --access";
        return Err(refused(alloc, ErrorKind::ArgumentConflict, what)?);
    }
    let account = name_in(alloc, matches, "account")?;
    let set = name_in(alloc, matches, "set")?;
    let form = if matches.get_flag("csv") {
        Form::Csv
    } else {
        Form::Page
    };
    Ok(Asked::Access(Question { account, set, form }))
}

fn read_listing(alloc: Global, matches: &ArgMatches) -> Result<Asked, Error> {
    if matches.get_flag("csv") || matches.get_str("set").is_some() {
        let what = "--csv and --set go with --access";
        return Err(refused(alloc, ErrorKind::ArgumentConflict, what)?);
    }
    if matches.get_flag("text") != matches.get_str("account").is_some() {
        let what = "--text and --account go together, and --account with --access";
        return Err(refused(alloc, ErrorKind::ArgumentConflict, what)?);
    }
    let own = name_in(alloc, matches, "account")?;
    let detail = if matches.get_flag("quiet") {
        Detail::Mistakes
    } else {
        Detail::Listing
    };
    Ok(Asked::Listing(Listing { detail, own }))
}

// The name that an option gives, where it is given.
fn name_in(alloc: Global, matches: &ArgMatches, id: &str) -> Result<Option<Name>, Error>
    ensures { IfOk result (λ name. name ≡ first_value (found_of matches.now) id.now) }
{
    match matches.get_str(id) {
        None => Ok(None),
        Some(text) => match read_name(text.as_bytes()) {
            Ok(name) => Ok(Some(name)),
            Err(_) => {
                let what =
                    "a name is 1 to 31 characters: a letter, then letters, digits, `.`, `_` or `-`";
                Err(refused(alloc, ErrorKind::ValueValidation, what)?)
            }
        },
    }
}

/// The error for words that ask nothing, for this reason.
///
/// # Errors
///
/// Where a growth was refused.
pub fn refused(alloc: Global, kind: ErrorKind, what: &str) -> Result<Error, AllocError> {
    command(alloc)?.error(kind, what)
}

// What follows the list of options in the help.
const AFTER_HELP: &str =
    "The deck comes from standard input. Without --access its jobs are listed with all mistakes:

  snomon-listing < payroll.deck

and those of one submission, without the deck around it, with --text:

  snomon-listing --text --account lisa < report.job

Exit status: 0 where there is no mistake, or all was told of who may do what, and for this help and
the version; 1 where there is a mistake, or the deck is refused before its stream or has no account
or data set of the name that is asked about; 2 where the words ask nothing; 3 where reading, writing
or memory failed.
";

// The program's options, as `clap` knows them. Help and version are among them without being named.
fn command<'a>(alloc: Global) -> Result<Command<'a>, AllocError> {
    Command::new(alloc, "snomon-listing")
        .version("0.1.0")
        .about("Tells what the deck on standard input says before it is run")
        .after_help(AFTER_HELP)
        .arg(flag(
            alloc,
            "quiet",
            "Only the mistakes, without the listing and without warnings",
        ))?
        .arg(flag(
            alloc,
            "text",
            "It is no deck, but what the account of --account submits at a site",
        ))?
        .arg(flag(
            alloc,
            "access",
            "Tells who may do what: each account on each data set",
        ))?
        .arg(flag(
            alloc,
            "csv",
            "With --access: a line for each data set, account and permission, with commas",
        ))?
        .arg(named(
            alloc,
            "account",
            "With --access: only this account; with --text: whose it is",
        ))?
        .arg(named(alloc, "set", "With --access: only this data set"))
}

// An option that is given or not.
fn flag<'a>(alloc: Global, name: &'a str, help: &'a str) -> Arg<'a> {
    Arg::new(alloc, name)
        .long(name)
        .action(ArgAction::SetTrue)
        .help(help)
}

// An option that gives a name.
fn named<'a>(alloc: Global, name: &'a str, help: &'a str) -> Arg<'a> {
    Arg::new(alloc, name)
        .long(name)
        .action(ArgAction::Set)
        .value_name("NAME")
        .help(help)
}
