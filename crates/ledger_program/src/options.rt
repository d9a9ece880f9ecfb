//! The words of the command line, and what they ask.
use clap::error::ErrorKind;
use clap::{Arg, ArgAction, ArgMatches, Command, Error};
use ledger_acts::{Init, Kept, Moment, NewGroups, NewUser, Put, Restore, Sources, read_moment};
use ledger_tables::MOST_DAYS;
use ledger_users::Own;
use mon_text::{Name, read_count, read_name};
use std::alloc::{AllocError, Global};
use std::convert::AsStr;

/// So many of the last commits `archive` leaves where they are.
const KEPT: u64 = 1_000;

/// What is asked.
#[derive(Drop)]
pub enum Asked {
    /// To make the folder of a site.
    Init(Init),
    /// Whether each commit stands behind the one before it, and each submission's run comes to the same again.
    Verify(String),
    /// What a submission would be told.
    Check(Own),
    /// To hand a submission in.
    Submit(Own),
    /// What waits in the box of an account.
    Queue(String, Name),
    /// To run what users dropped.
    Run(String),
    /// What is done with a site open, by the path of its folder.
    OfSite(String, Act),
}

/// What is done with a site open.
#[derive(Drop)]
pub enum Act {
    /// What stands, and what is wrong; with the sizes of what is kept or without.
    Status(bool),
    /// The data sets as they stand, or as they were at a moment.
    Catalogue(Option<Moment>),
    /// To put the data sets of a file in the place of all, or one of them in the place of the one of its name.
    Put(Put),
    /// To put a data set back as it was.
    Restore(Restore),
    /// To give an account a user and a box.
    AddUser(NewUser),
    /// To take the user of an account away.
    DelUser(Name),
    /// The table of accounts.
    Accounts,
    /// To give an account other groups.
    Groups(NewGroups),
    /// To put the limits of a file in the place of those that stand, or to print these.
    Limits(Option<String>),
    /// To put commits that no run reads apart, but for some of the last.
    Archive(Kept),
    /// To remove answers that are older than so many days.
    Prune(u64),
    /// The deck of the submissions that ran, between two acts of the operator, with the one of this number.
    Deck(u64),
}

/// What the words of a command line ask. The first word is the program's name.
///
/// # Errors
///
/// Where the words ask nothing of a site, or for help or the version, whose text it is then (`DisplayHelp`, `DisplayVersion`). The
/// text is `clap`'s. Its kind is `OutOfMemory` where a growth was refused.
pub fn read_asked<S: AsStr>(alloc: Global, words: &[S]) -> Result<Asked, Error> {
    let command = command(alloc)?;
    let matches = command.try_get_matches_from(words)?;
    read_matches(alloc, &matches)
}

fn read_matches(alloc: Global, matches: &ArgMatches) -> Result<Asked, Error> {
    match matches.subcommand() {
        Some(("init", of)) => read_init(alloc, of),
        Some(("verify", of)) => Ok(Asked::Verify(text_of(alloc, of, "DIR")?)),
        Some(("check", of)) => Ok(Asked::Check(own_of(alloc, of, "")?)),
        Some(("submit", of)) => Ok(Asked::Submit(own_of(alloc, of, word(of, "DIR"))?)),
        Some(("queue", of)) => read_queue(alloc, of),
        Some(("run", of)) => Ok(Asked::Run(text_of(alloc, of, "DIR")?)),
        Some((name, of)) => {
            let act = read_act(alloc, name, of)?;
            Ok(Asked::OfSite(text_of(alloc, of, "DIR")?, act))
        }
        None => Err(nothing(alloc)),
    }
}

fn read_act(alloc: Global, name: &str, of: &ArgMatches) -> Result<Act, Error> {
    match name {
        "put" => read_put(alloc, of),
        "restore" => read_restore(alloc, of),
        "adduser" => read_new_user(alloc, of),
        "deluser" => Ok(Act::DelUser(name_in(alloc, word(of, "ACCOUNT"))?)),
        "limits" => Ok(Act::Limits(maybe(alloc, of, "FILE")?)),
        "archive" => read_archive(alloc, of),
        "deck" => Ok(Act::Deck(number_in(alloc, word(of, "N"))?)),
        "prune" => Ok(Act::Prune(days_in(alloc, word(of, "days"))?)),
        "status" => Ok(Act::Status(of.get_flag("sizes"))),
        "accounts" => Ok(Act::Accounts),
        "groups" => read_groups(alloc, of),
        _ => read_catalogue(alloc, of),
    }
}

fn read_init(alloc: Global, of: &ArgMatches) -> Result<Asked, Error> {
    if !names_its_sources(of) {
        return Err(no_sources(alloc));
    }
    let top = text_of(alloc, of, "DIR")?;
    let sources = sources_of(alloc, of)?;
    Ok(Asked::Init(Init { top, sources }))
}

// An old site has all of it; else accounts are wanted, and either users or that it is a demonstration.
fn names_its_sources(of: &ArgMatches) -> bool {
    let is_new = of.get_str("accounts").is_some();
    let is_one_users = of.get_flag("demonstration");
    if of.get_str("rounds").is_some() {
        return !is_new && !is_one_users && names_no_file(of);
    }
    is_new && of.get_str("users").is_some() != is_one_users
}

fn names_no_file(of: &ArgMatches) -> bool {
    of.get_str("users").is_none()
        && of.get_str("limits").is_none()
        && of.get_str("catalogue").is_none()
}

fn sources_of(alloc: Global, of: &ArgMatches) -> Result<Sources, AllocError> {
    let accounts = maybe(alloc, of, "accounts")?;
    let users = maybe(alloc, of, "users")?;
    let limits = maybe(alloc, of, "limits")?;
    let catalogue = maybe(alloc, of, "catalogue")?;
    let old = maybe(alloc, of, "rounds")?;
    Ok(Sources {
        old,
        accounts,
        users,
        limits,
        catalogue,
    })
}

fn read_groups(alloc: Global, of: &ArgMatches) -> Result<Act, Error> {
    let account = name_in(alloc, word(of, "ACCOUNT"))?;
    let groups = text_of(alloc, of, "GROUPS")?;
    Ok(Act::Groups(NewGroups { account, groups }))
}

fn read_catalogue(alloc: Global, of: &ArgMatches) -> Result<Act, Error> {
    match of.get_str("at") {
        Some(word) => Ok(Act::Catalogue(Some(moment_in(alloc, word)?))),
        None => Ok(Act::Catalogue(None)),
    }
}

fn moment_in(alloc: Global, word: &str) -> Result<Moment, Error> {
    match read_moment(word) {
        Some(moment) => Ok(moment),
        None => Err(no_moment(alloc)),
    }
}

fn read_put(alloc: Global, of: &ArgMatches) -> Result<Act, Error> {
    let set = match of.get_str("set") {
        Some(word) => Some(name_in(alloc, word)?),
        None => None,
    };
    let file = text_of(alloc, of, "FILE")?;
    Ok(Act::Put(Put { file, set }))
}

fn read_restore(alloc: Global, of: &ArgMatches) -> Result<Act, Error> {
    let set = name_in(alloc, word(of, "SET"))?;
    let at = moment_in(alloc, word(of, "at"))?;
    let word = text_of(alloc, of, "at")?;
    Ok(Act::Restore(Restore { set, at, word }))
}

fn read_new_user(alloc: Global, of: &ArgMatches) -> Result<Act, Error> {
    let account = name_in(alloc, word(of, "ACCOUNT"))?;
    let uid = number_in(alloc, word(of, "UID"))?;
    let groups = text_of(alloc, of, "groups")?;
    Ok(Act::AddUser(NewUser {
        account,
        uid,
        groups,
    }))
}

fn read_archive(alloc: Global, of: &ArgMatches) -> Result<Act, Error> {
    match (of.get_str("keep"), of.get_str("days")) {
        (Some(_), Some(_)) => Err(both_kept(alloc)),
        (Some(word), None) => Ok(Act::Archive(Kept::Last(number_in(alloc, word)?))),
        (None, Some(word)) => Ok(Act::Archive(Kept::Days(days_in(alloc, word)?))),
        (None, None) => Ok(Act::Archive(Kept::Last(KEPT))),
    }
}

fn own_of(alloc: Global, of: &ArgMatches, top: &str) -> Result<Own, Error> {
    let account = name_in(alloc, word(of, "account"))?;
    let top = String::from_str(alloc, top)?;
    let file = text_of(alloc, of, "FILE")?;
    Ok(Own { top, account, file })
}

fn read_queue(alloc: Global, of: &ArgMatches) -> Result<Asked, Error> {
    let account = name_in(alloc, word(of, "account"))?;
    let top = text_of(alloc, of, "DIR")?;
    Ok(Asked::Queue(top, account))
}

fn name_in(alloc: Global, word: &str) -> Result<Name, Error> {
    match read_name(word.as_bytes()) {
        Ok(name) => Ok(name),
        Err(_) => Err(no_name(alloc)),
    }
}

fn number_in(alloc: Global, word: &str) -> Result<u64, Error> {
    match read_count(word.as_bytes()) {
        Ok(number) => Ok(number),
        Err(_) => Err(no_number(alloc)),
    }
}

fn days_in(alloc: Global, word: &str) -> Result<u64, Error> {
    match read_count(word.as_bytes()) {
        Ok(days) if 0 < days && days <= MOST_DAYS => Ok(days),
        _ => Err(no_days(alloc)),
    }
}

// A word that has to be there.
fn word<'a>(of: &'a ArgMatches, id: &str) -> &'a str {
    match of.get_str(id) {
        Some(word) => word,
        None => "",
    }
}

fn text_of(alloc: Global, of: &ArgMatches, id: &str) -> Result<String, AllocError> {
    String::from_str(alloc, word(of, id))
}

fn maybe(alloc: Global, of: &ArgMatches, id: &str) -> Result<Option<String>, AllocError> {
    match of.get_str(id) {
        Some(text) => Ok(Some(String::from_str(alloc, text)?)),
        None => Ok(None),
    }
}

fn nothing(alloc: Global) -> Error {
    refusal(
        alloc,
        ErrorKind::MissingSubcommand,
        "a command is wanted: `snomon-site --help` lists them",
    )
}

fn no_sources(alloc: Global) -> Error {
    refusal(
        alloc,
        ErrorKind::ArgumentConflict,
        "--rounds alone is wanted, or --accounts and one of --users and --demonstration",
    )
}

fn no_name(alloc: Global) -> Error {
    refusal(
        alloc,
        ErrorKind::ValueValidation,
        "a name is 1 to 31 characters: a letter, then letters, digits, `.`, `_` or `-`",
    )
}

fn no_number(alloc: Global) -> Error {
    refusal(alloc, ErrorKind::ValueValidation, "a number is wanted")
}

fn no_days(alloc: Global) -> Error {
    refusal(
        alloc,
        ErrorKind::ValueValidation,
        "a number of days is wanted, 1 to 36,500",
    )
}

fn both_kept(alloc: Global) -> Error {
    refusal(
        alloc,
        ErrorKind::ArgumentConflict,
        "one of --keep and --days is wanted, and not both",
    )
}

fn no_moment(alloc: Global) -> Error {
    refusal(
        alloc,
        ErrorKind::ValueValidation,
        "the number of a submission is wanted, or a time as 2026-11-28T14:30",
    )
}

/// The error for a word that is no text, and so no option. Its kind is `OutOfMemory` where a growth was refused.
pub fn no_text(alloc: Global) -> Error {
    refusal(
        alloc,
        ErrorKind::UnknownArgument,
        "a word is no text in UTF-8",
    )
}

// The error of this kind, or that of memory.
fn refusal(alloc: Global, kind: ErrorKind, words: &str) -> Error {
    match error_of_command(alloc, kind, words) {
        Ok(error) => error,
        Err(refused) => Error::from(refused),
    }
}

fn error_of_command(alloc: Global, kind: ErrorKind, words: &str) -> Result<Error, AllocError> {
    let mut command = command(alloc)?;
    command.error(kind, words)
}

// What follows the list of commands in the help.
const AFTER_HELP: &str = "An operator makes a site once, and starts `snomon-site run` by a timer:

  snomon-site init /srv/site --accounts accounts --users users
  snomon-site run /srv/site

Exit status: 0 where all was done, and for this help and the version; 1 where a submission was refused
and all else done, or where verify finds other bytes; 2 where the words ask nothing; 3 where
reading, writing or memory failed, or the folder is not as it must be; 4 where another run holds
the lock.
";

// The program's commands, as `clap` knows them.
fn command<'a>(alloc: Global) -> Result<Command<'a>, AllocError> {
    let program = Command::new(alloc, "snomon-site")
        .version("0.1.0")
        .about(
            "Runs what the users of a system drop into a folder, and keeps all of it in one ledger",
        )
        .after_help(AFTER_HELP);
    let program = add_command(program, init_command(alloc))?;
    let program = add_command(program, of_folder(alloc, "run", "Runs what was dropped"))?;
    let program = add_command(program, status_command(alloc))?;
    let program = add_command(program, catalogue_command(alloc))?;
    let program = add_command(program, verify_command(alloc))?;
    add_operating(program, alloc)
}

fn add_operating<'a>(program: Command<'a>, alloc: Global) -> Result<Command<'a>, AllocError> {
    let program = add_command(program, put_command(alloc))?;
    let program = add_command(program, restore_command(alloc))?;
    let program = add_command(
        program,
        of_folder(alloc, "accounts", "Prints the table of accounts"),
    )?;
    let program = add_command(program, add_user_command(alloc))?;
    let program = add_command(program, groups_command(alloc))?;
    let program = add_command(program, del_user_command(alloc))?;
    let program = add_command(program, limits_command(alloc))?;
    let program = add_command(program, archive_command(alloc))?;
    let program = add_command(program, prune_command(alloc))?;
    let program = add_command(program, deck_command(alloc))?;
    add_using(program, alloc)
}

// What users ask.
fn add_using<'a>(program: Command<'a>, alloc: Global) -> Result<Command<'a>, AllocError> {
    let program = add_command(program, check_command(alloc))?;
    let program = add_command(program, submit_command(alloc))?;
    add_command(program, queue_command(alloc))
}

// The program with one command more, if that was made.
fn add_command<'a>(
    program: Command<'a>,
    command: Result<Command<'a>, AllocError>,
) -> Result<Command<'a>, AllocError> {
    program.subcommand(command?)
}

fn of_folder<'a>(alloc: Global, name: &'a str, about: &'a str) -> Result<Command<'a>, AllocError> {
    Command::new(alloc, name)
        .about(about)
        .arg(place(alloc, "DIR", "The folder of the site"))
}

fn status_command<'a>(alloc: Global) -> Result<Command<'a>, AllocError> {
    let command = of_folder(
        alloc,
        "status",
        "Tells what stands, and what is not as it must be",
    )?;
    command.arg(flag(
        alloc,
        "sizes",
        "How many bytes there are of what is kept, too",
    ))
}

fn verify_command<'a>(alloc: Global) -> Result<Command<'a>, AllocError> {
    of_folder(
        alloc,
        "verify",
        "Reads the ledger through, and runs each submission again",
    )
}

fn init_command<'a>(alloc: Global) -> Result<Command<'a>, AllocError> {
    let command = of_folder(alloc, "init", "Makes the folder of a site")?;
    let options = Vec::from_array(alloc, init_options(alloc))?;
    command.args(options)
}

fn init_options<'a>(alloc: Global) -> [Arg<'a>; 6] {
    [
        named(
            alloc,
            "rounds",
            "The folder of an older site, with rounds, of which all of this is taken",
        )
        .value_name("OLD"),
        named(
            alloc,
            "accounts",
            "The accounts: lines as behind $ACCOUNTS in a deck",
        ),
        named(
            alloc,
            "users",
            "The users: a number of the system and an account a line",
        ),
        named(
            alloc,
            "limits",
            "What an account may hand in; usual limits where it is not given",
        ),
        named(
            alloc,
            "catalogue",
            "The catalogue; an empty one where it is not given",
        ),
        flag(
            alloc,
            "demonstration",
            "All accounts are those of who makes the site",
        ),
    ]
}

fn put_command<'a>(alloc: Global) -> Result<Command<'a>, AllocError> {
    let command = of_folder(
        alloc,
        "put",
        "Puts data sets in the place of those that stand",
    )?;
    let command = command.arg(place(alloc, "FILE", "A catalogue"))?;
    command.arg(named(alloc, "set", "The one data set of it that is put").value_name("NAME"))
}

fn restore_command<'a>(alloc: Global) -> Result<Command<'a>, AllocError> {
    let command = of_folder(alloc, "restore", "Puts a data set back as it was")?;
    let command = command.arg(place(alloc, "SET", "The name of the data set"))?;
    command.arg(moment(alloc).required(true))
}

fn catalogue_command<'a>(alloc: Global) -> Result<Command<'a>, AllocError> {
    let command = of_folder(
        alloc,
        "catalogue",
        "Prints the data sets as they stand, or stood",
    )?;
    command.arg(moment(alloc))
}

fn moment<'a>(alloc: Global) -> Arg<'a> {
    named(
        alloc,
        "at",
        "A submission: as it was before the next one ran; or a time, as 2026-11-28T14:30 in UTC",
    )
    .value_name("N|TIME")
}

fn add_user_command<'a>(alloc: Global) -> Result<Command<'a>, AllocError> {
    let command = of_folder(alloc, "adduser", "Gives an account a user and a box")?;
    let command = command.arg(place(alloc, "ACCOUNT", "The account"))?;
    let command = command.arg(place(alloc, "UID", "The number that the system has for the user"))?;
    command.arg(named(
        alloc,
        "groups",
        "The groups of the account, where it is new",
    )
    .value_name("GROUPS"))
}

fn groups_command<'a>(alloc: Global) -> Result<Command<'a>, AllocError> {
    let command = of_folder(alloc, "groups", "Gives an account other groups")?;
    let command = command.arg(place(alloc, "ACCOUNT", "The account"))?;
    command.arg(place(
        alloc,
        "GROUPS",
        "Its groups, the primary one first, as one word",
    ))
}

fn del_user_command<'a>(alloc: Global) -> Result<Command<'a>, AllocError> {
    let command = of_folder(alloc, "deluser", "Takes the user of an account away")?;
    command.arg(place(alloc, "ACCOUNT", "The account, which stays in the table"))
}

fn archive_command<'a>(alloc: Global) -> Result<Command<'a>, AllocError> {
    let command = of_folder(alloc, "archive", "Puts commits that no run reads apart")?;
    let help = "So many of the last commits stay where they are; 1,000 where it is not given";
    let command = command.arg(named(alloc, "keep", help).value_name("N"))?;
    let help = "The commits of so many days stay where they are";
    command.arg(named(alloc, "days", help).value_name("N"))
}

fn prune_command<'a>(alloc: Global) -> Result<Command<'a>, AllocError> {
    let command = of_folder(alloc, "prune", "Removes old answers")?;
    let help = "Those of so many days stay";
    command.arg(named(alloc, "days", help).value_name("N").required(true))
}

fn deck_command<'a>(alloc: Global) -> Result<Command<'a>, AllocError> {
    let command = of_folder(alloc, "deck", "Prints the deck with which a submission ran")?;
    command.arg(place(alloc, "N", "The number of the submission"))
}

fn limits_command<'a>(alloc: Global) -> Result<Command<'a>, AllocError> {
    let command = of_folder(
        alloc,
        "limits",
        "Prints the limits, or puts others in their place",
    )?;
    command.arg(place(alloc, "FILE", "These limits").required(false))
}

fn check_command<'a>(alloc: Global) -> Result<Command<'a>, AllocError> {
    let command = Command::new(alloc, "check").about(
        "Tells whether a submission would be admitted",
    );
    let command = command.arg(place(alloc, "FILE", "The submission"))?;
    command.arg(whose(alloc))
}

fn submit_command<'a>(alloc: Global) -> Result<Command<'a>, AllocError> {
    let command = of_folder(alloc, "submit", "Hands a submission in")?;
    let command = command.arg(place(alloc, "FILE", "The submission"))?;
    command.arg(whose(alloc))
}

fn queue_command<'a>(alloc: Global) -> Result<Command<'a>, AllocError> {
    let command = of_folder(alloc, "queue", "Tells what waits in a box")?;
    command.arg(whose(alloc))
}

fn whose<'a>(alloc: Global) -> Arg<'a> {
    named(alloc, "account", "The account")
        .value_name("NAME")
        .required(true)
}

// A word that has to be there.
fn place<'a>(alloc: Global, name: &'a str, help: &'a str) -> Arg<'a> {
    Arg::new(alloc, name)
        .required(true)
        .action(ArgAction::Set)
        .help(help)
}

// An option that gives a file.
fn named<'a>(alloc: Global, name: &'a str, help: &'a str) -> Arg<'a> {
    Arg::new(alloc, name)
        .long(name)
        .action(ArgAction::Set)
        .value_name("FILE")
        .help(help)
}

// An option that is given or not.
fn flag<'a>(alloc: Global, name: &'a str, help: &'a str) -> Arg<'a> {
    Arg::new(alloc, name)
        .long(name)
        .action(ArgAction::SetTrue)
        .help(help)
}
