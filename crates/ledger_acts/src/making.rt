//! `init`: the folder of a site is made.
use ledger_folder::{Fault, Host, Place, SiteDisk, Wrong, joined, seconds_now, tables_in};
use ledger_machine::SiteMachine;
use ledger_opening::who_is;
use ledger_run::open_ledger;
use ledger_sets::{sets_change, tables_change};
use ledger_site::{Act, found};
use ledger_tables::{Tables, Texts};
use mon_access::Accounts;
use mon_catalogue::Catalogue;
use mon_text::{Name, Stop, put_number, read_count};
use site_plan::{User, read_catalogue};
use sno_text::Seed;
use std::alloc::{AllocError, Global};
use std::fs;

/// What an account may hand in where no file says it.
const USUAL_LIMITS: &[u8] = b"texts 100
bytes 1000000
jobs 100
statements 1000000
largest 100000000000
work 100000000000
data_sets 50
records 50000000
seconds 60
output 10000000
";

/// Those of them that a site of rounds does not have.
const NEW_LIMITS: &[u8] = b"
seconds 60
output 10000000
";

/// The system's file of users.
const SYSTEM_USERS: &str = "/etc/passwd";

/// What a site is made of.
#[derive(Drop)]
pub struct Init {
    /// The path of the folder.
    pub top: String,
    /// The files that it is made of.
    pub sources: Sources,
}

/// The paths of the files that a site is made of.
#[derive(Drop)]
pub struct Sources {
    /// The folder of a site of rounds, of which all of this is taken.
    pub old: Option<String>,
    /// A file of accounts.
    pub accounts: Option<String>,
    /// A file of users; none in a demonstration.
    pub users: Option<String>,
    /// A file of limits.
    pub limits: Option<String>,
    /// A file with a catalogue.
    pub catalogue: Option<String>,
}

// What a site is made of.
#[derive(Drop)]
struct Made {
    accounts: Vec<u8>,
    users: Vec<u8>,
    limits: Vec<u8>,
    catalogue: Catalogue,
}

/// Makes the folder of a site, and tells what is left to do. Nothing is made where one of the files that it is made of is not as it must be, or
/// where the system has no user of a number. The data sets and the tables are the first two records of its ledger.
pub fn make_site<R: Host>(rt: R, init: &Init) -> Result<Vec<u8>, Fault> {
    let top = init.top.clone()?;
    let place = Place { rt, top };
    let is_new = make_top(&place)?;
    let told = make_in(&place, &init.sources);
    if is_new && told.is_err() {
        // where something was made in it, it stays
        let _left = fs::remove_dir(&place.rt, place.top.as_str());
    }
    told
}

fn make_in<R: Host>(place: &Place<R>, sources: &Sources) -> Result<Vec<u8>, Fault> {
    let runner = place.runner(&place.top)?;
    let made = read_made(place, sources, runner)?;
    make_of(place, &made, runner)
}

fn make_of<R: Host>(place: &Place<R>, made: &Made, runner: u32) -> Result<Vec<u8>, Fault> {
    let tables = tables_in(
        place.alloc(),
        Texts {
            accounts: &made.accounts,
            users: &made.users,
            limits: &made.limits,
        },
    )?;
    make_users(place, &tables, runner)?;
    make_keep(place)?;
    make_ledger(place, made, runner)?;
    let mut told = Vec::new(place.alloc());
    for user in &tables.users {
        put_access(place, user, runner, &mut told)?;
    }
    Ok(told)
}

/// How a user gets at the folders of their account, which are the operator's where that is not root: by the commands of a permission list.
pub fn put_access<R: Host>(
    place: &Place<R>,
    user: &User,
    runner: u32,
    told: &mut Vec<u8>,
) -> Result<(), Fault> {
    if runner == 0 || user.uid == runner {
        return Ok(());
    }
    let account = user.account.as_bytes();
    let drop_box = place.path_of("in", account)?;
    put_entry(b"u:", user.uid, b":rwx ", told)?;
    put_path(&drop_box, told)?;
    let answers = place.path_of("out", account)?;
    put_entry(b"u:", user.uid, b":rx ", told)?;
    put_path(&answers, told)?;
    put_entry(b"d:u:", user.uid, b":r ", told)?;
    put_path(&answers, told)
}

fn put_entry(kind: &[u8], uid: u32, may: &[u8], told: &mut Vec<u8>) -> Result<(), AllocError> {
    told.extend_from_slice(b"setfacl -m ")?;
    told.extend_from_slice(kind)?;
    put_number(u64::from(uid), told)?;
    told.extend_from_slice(may)
}

fn put_path(path: &str, told: &mut Vec<u8>) -> Result<(), Fault> {
    told.extend_from_slice(path.as_bytes())?;
    Ok(told.push(b'\n')?)
}

// The folder itself: whether it was made. One that is there is taken, if it is empty.
fn make_top<R: Host>(place: &Place<R>) -> Result<bool, Fault> {
    match place.look(&place.top)? {
        None => {
            place.make_folder(&place.top, 0o755)?;
            Ok(true)
        }
        Some(_) => {
            if place.names(&place.top)?.is_empty() {
                Ok(false)
            } else {
                Err(place.wrong("", Wrong::Words("is there already, and is not empty")))
            }
        }
    }
}

fn read_made<R: Host>(place: &Place<R>, sources: &Sources, runner: u32) -> Result<Made, Fault> {
    if let Some(old) = &sources.old {
        return read_old(place, old);
    }
    let accounts = match &sources.accounts {
        Some(path) => place.read(path)?,
        None => Vec::new(place.alloc()),
    };
    let limits = limits_of(place, sources)?;
    let users = users_of(place, sources, &accounts, runner)?;
    let catalogue = first_catalogue(place, sources)?;
    Ok(Made {
        accounts,
        users,
        limits,
        catalogue,
    })
}

// What a site of rounds is made of: its files, and the limits that it does not know.
fn read_old<R: Host>(place: &Place<R>, old: &str) -> Result<Made, Fault> {
    let accounts = read_in(place, old, "accounts")?;
    let users = read_in(place, old, "users")?;
    let mut limits = read_in(place, old, "limits")?;
    limits.extend_from_slice(NEW_LIMITS)?;
    let path = joined(place.alloc(), old, "catalogue")?;
    let catalogue = catalogue_at(place, &path)?;
    Ok(Made {
        accounts,
        users,
        limits,
        catalogue,
    })
}

fn read_in<R: Host>(place: &Place<R>, folder: &str, name: &str) -> Result<Vec<u8>, Fault> {
    let path = joined(place.alloc(), folder, name)?;
    place.read(&path)
}

// The limits that are given; where no users are, it is a demonstration.
fn limits_of<R: Host>(place: &Place<R>, sources: &Sources) -> Result<Vec<u8>, Fault> {
    let mut text = match &sources.limits {
        Some(path) => place.read(path)?,
        None => USUAL_LIMITS.to_vec(place.alloc())?,
    };
    if sources.users.is_none() {
        text.extend_from_slice(b"demonstration\n")?;
    }
    Ok(text)
}

fn users_of<R: Host>(
    place: &Place<R>,
    sources: &Sources,
    accounts: &[u8],
    runner: u32,
) -> Result<Vec<u8>, Fault> {
    match &sources.users {
        Some(path) => place.read(path),
        None => Ok(all_of_one(place.alloc(), runner, accounts)?),
    }
}

// All accounts are those of one user.
fn all_of_one(alloc: Global, uid: u32, accounts: &[u8]) -> Result<Vec<u8>, AllocError> {
    let mut text = Vec::new(alloc);
    if let Ok(table) = site_plan::read_table(alloc, accounts) {
        put_all(uid, &table, &mut text)?;
    }
    Ok(text)
}

fn put_all(uid: u32, table: &Accounts, text: &mut Vec<u8>) -> Result<(), AllocError> {
    for place in 0..table.len() {
        if let Some(account) = table.at(place) {
            put_user(uid, &account.name, text)?;
        }
    }
    Ok(())
}

/// Appends the line of a user.
pub fn put_user(uid: u32, account: &Name, text: &mut Vec<u8>) -> Result<(), AllocError> {
    put_number(u64::from(uid), text)?;
    text.extend_from_slice(b" ")?;
    text.extend_from_slice(account.as_bytes())?;
    text.extend_from_slice(b"\n")
}

fn first_catalogue<R: Host>(place: &Place<R>, sources: &Sources) -> Result<Catalogue, Fault> {
    match &sources.catalogue {
        Some(path) => catalogue_at(place, path),
        None => Ok(Catalogue::new(place.alloc())),
    }
}

/// The catalogue that the file at a path spells.
pub fn catalogue_at<R: Host>(place: &Place<R>, path: &str) -> Result<Catalogue, Fault> {
    let text = place.read(path)?;
    match read_catalogue(place.alloc(), &text) {
        Ok(catalogue) => Ok(catalogue),
        Err(Stop::Refused((line, fault))) => {
            Err(Fault::wrong(place.alloc(), path, Wrong::Line(line, fault.text())))
        }
        Err(Stop::Memory) => Err(Fault::Memory),
    }
}

fn make_keep<R: Host>(place: &Place<R>) -> Result<(), Fault> {
    for name in ["keep", "keep/ledger", "keep/draft", "keep/taken"] {
        let path = place.path(name)?;
        place.make_folder(&path, 0o700)?;
    }
    Ok(())
}

fn make_users<R: Host>(place: &Place<R>, tables: &Tables, runner: u32) -> Result<(), Fault> {
    let system = system_users(place, runner)?;
    for user in &tables.users {
        let _gid = gid_of(place, user, &system)?;
    }
    for name in ["in", "out"] {
        let path = place.path(name)?;
        place.make_folder(&path, 0o755)?;
    }
    for user in &tables.users {
        make_user(place, user, &system)?;
    }
    Ok(())
}

/// The system's file of users, where root runs the program: it has each user of an account then.
pub fn system_users<R: Host>(place: &Place<R>, runner: u32) -> Result<Option<Vec<u8>>, Fault> {
    if runner == 0 {
        Ok(Some(place.read(SYSTEM_USERS)?))
    } else {
        Ok(None)
    }
}

fn gid_of<R: Host>(
    place: &Place<R>,
    user: &User,
    system: &Option<Vec<u8>>,
) -> Result<Option<u32>, Fault> {
    match system {
        Some(system) => Ok(Some(group_of(place.alloc(), system, user.uid)?)),
        None => Ok(None),
    }
}

/// Makes the folders of a user. Root gives the box to the user, and the folder of answers to that one's group; whoever is to use them may,
/// from then on.
pub fn make_user<R: Host>(
    place: &Place<R>,
    user: &User,
    system: &Option<Vec<u8>>,
) -> Result<(), Fault> {
    let gid = gid_of(place, user, system)?;
    let drop_box = place.path_of("in", user.account.as_bytes())?;
    let answers = place.path_of("out", user.account.as_bytes())?;
    make_if_missing(place, &drop_box, 0o770)?;
    make_if_missing(place, &answers, 0o750)?;
    if gid.is_some() {
        place.give(&drop_box, Some(user.uid), None)?;
        place.give(&answers, None, gid)?;
    }
    place.set_mode(&drop_box, 0o2770)?;
    place.set_mode(&answers, 0o2750)
}

// A folder that is there already is taken: its user comes back, or an ended program made it.
fn make_if_missing<R: Host>(place: &Place<R>, path: &str, mode: u32) -> Result<(), Fault> {
    match place.look(path)? {
        Some(seen) if seen.is_dir() => Ok(()),
        Some(_) => Err(Fault::wrong(place.alloc(), path, Wrong::Words("is no folder"))),
        None => place.make_folder(path, mode),
    }
}

// The group of a user, as the system's file of users has it.
fn group_of(alloc: Global, system: &[u8], uid: u32) -> Result<u32, Fault> {
    for line in system.split(|byte| *byte == b'\n') {
        if let Some(gid) = group_on(line, uid) {
            return Ok(gid);
        }
    }
    Err(Fault::wrong(alloc, SYSTEM_USERS, Wrong::NoUser(uid)))
}

// The group on a line NAME:PASSWORD:UID:GID:.., where it is this user's.
fn group_on(line: &[u8], uid: u32) -> Option<u32> {
    let mut words = line.split(|byte| *byte == b':').skip(2);
    let user = number_in(words.next())?;
    let group = number_in(words.next())?;
    if user == u64::from(uid) {
        u32::try_from(group).ok()
    } else {
        None
    }
}

fn number_in(word: Option<&[u8]>) -> Option<u64> {
    read_count(word?).ok()
}

// The first two records.
fn make_ledger<R: Host>(place: &Place<R>, made: &Made, runner: u32) -> Result<(), Fault> {
    let alloc = place.alloc();
    let sets = sets_change(alloc, &Catalogue::new(alloc), &made.catalogue)?;
    let tables = tables_change(alloc, &made.accounts, &made.users, &made.limits)?;
    let who = who_is(alloc, runner)?;
    let act = Act {
        time: seconds_now(&place.rt),
        who: &who,
        what: b"INIT",
    };
    record_first(place, runner, act, &sets, &tables)
}

fn record_first<R: Host>(
    place: &Place<R>,
    runner: u32,
    act: Act<'_>,
    sets: &[u8],
    tables: &[u8],
) -> Result<(), Fault> {
    let alloc = place.alloc();
    let mut disk = SiteDisk::new(place.rt.clone()?, &place.top, runner)?;
    let mut machine = SiteMachine::new(alloc, Seed::fixed());
    let mut none = Vec::new(alloc);
    let mut ledger = open_ledger(alloc, &mut disk, &mut machine, &mut none)?;
    found(&mut disk, &mut machine, &mut ledger, act, sets, tables)?;
    Ok(())
}
