//! `snomon-site`: runs what the users of a system drop into a folder, and keeps all of it in one ledger.
#![tactic(auto)]

mod options;
mod telling;

use clap::Error;
use ledger_acts::{
    Init, Put, accounts_of, add_user, archive, catalogue_of, deck_of, del_user, limits_of,
    make_site, put_file, restore_set, set_groups, set_limits,
};
use ledger_folder::{Fault, Place};
use ledger_opening::{Site, open_site, progress_there, runner_of};
use ledger_service::{Report, check, prune, refuse_full, run_site, standing_of, verify};
use ledger_users::{check_file, queue_of, submit_file};
use mon_text::Name;
use options::{Act, Asked, no_text, read_asked};
use std::alloc::AllocError;
use std::fs::{File, OpenFile, OpenOptions, TryLockError};
use std::io::IsTerminal;
use std::os::unix::fs::OpenOptionsExt;
use std::process::ExitCode;
use std::rt::Env;
use std::time::Duration;
use std::{env, io, thread};
use telling::{
    tell_at_work, tell_checked, tell_done, tell_fault, tell_pruned, tell_run, tell_standing,
    tell_text, tell_verified, tell_words,
};

/// So many submissions of a run are refused for want of room.
const MOST_REFUSED: u64 = 1_000;

/// How often a lock is tried that is held, 20 milliseconds after one another: `status` holds it for a moment, and a run goes on behind that.
const LOCK_ATTEMPTS: u64 = 100;

/// How often `status` tries it, which tells of the run that holds it.
const STATUS_ATTEMPTS: u64 = 3;

fn main(rt: HostRuntime) -> ExitCode {
    let status = match given_words(&rt) {
        Ok(asked) => serve(&rt, asked),
        Err(error) => tell_words(&rt, &error),
    };
    ExitCode::from(status)
}

// What the words ask that the program was started with.
fn given_words(rt: &HostRuntime) -> Result<Asked, Error> {
    match words(rt) {
        Ok(words) => read_asked(rt.alloc(), words.as_slice()),
        Err(error) if error.kind() == io::ErrorKind::InvalidData => Err(no_text(rt.alloc())),
        Err(_) => Err(Error::from(AllocError)),
    }
}

fn words<R: Env + AllocGlobal>(rt: &R) -> io::Result<Vec<String>> {
    let words = env::args(rt)?;
    Ok(words.collect(rt.alloc())?)
}

// Does what is asked, and gives the exit status.
fn serve(rt: &HostRuntime, asked: Asked) -> u8 {
    match asked {
        Asked::Init(init) => tell_text(rt, init_site(rt, &init)),
        Asked::Verify(top) => tell_verified(rt, verify(*rt, top)),
        Asked::Check(own) => tell_checked(rt, check_file(*rt, &own)),
        Asked::Submit(own) => tell_checked(rt, submit_file(*rt, &own)),
        Asked::Queue(top, account) => tell_text(rt, queue_of(*rt, top, &account)),
        Asked::Run(top) => run(rt, &top),
        Asked::OfSite(top, act) => serve_locked(rt, top, act),
    }
}

// Makes a site. Behind a large catalogue stands a checkpoint: where that can't be written, the site is made all the same.
fn init_site(rt: &HostRuntime, init: &Init) -> Result<Vec<u8>, Fault> {
    let told = make_site(*rt, init)?;
    let _checked = check_new(rt, &init.top);
    Ok(told)
}

fn check_new(rt: &HostRuntime, top: &str) -> Result<(), Fault> {
    let _held = lock(rt, top, LOCK_ATTEMPTS)?;
    let mut site = opened(rt, top)?;
    check(&mut site)
}

// What is done with a site open, with its lock held: whoever opens a ledger brings it to the disk.
fn serve_locked(rt: &HostRuntime, top: String, act: Act) -> u8 {
    let attempts = match &act {
        Act::Status(_) => STATUS_ATTEMPTS,
        _ => LOCK_ATTEMPTS,
    };
    match lock(rt, &top, attempts) {
        Ok(_held) => match open_site(*rt, top) {
            Ok(site) => {
                let mut site = site;
                serve_open(rt, &mut site, act)
            }
            Err(fault) => tell_fault(rt, &fault),
        },
        Err(Fault::Held(_)) if matches!(act, Act::Status(_)) => serve_at_work(rt, top),
        Err(fault) => tell_fault(rt, &fault),
    }
}

// How far a run is that is at work.
fn serve_at_work(rt: &HostRuntime, top: String) -> u8 {
    let place = Place { rt: *rt, top };
    match progress_there(&place) {
        Ok(progress) => tell_at_work(rt, progress),
        Err(_) => tell_fault(rt, &Fault::Memory),
    }
}

fn serve_open(rt: &HostRuntime, site: &mut Site<HostRuntime>, act: Act) -> u8 {
    match act {
        Act::Status(with_sizes) => tell_standing(rt, standing_of(site, with_sizes)),
        Act::Catalogue(at) => tell_text(rt, catalogue_of(site, at)),
        Act::Put(put) => tell_done(rt, put_sets(site, &put)),
        Act::Restore(restore) => tell_done(rt, restore_set(site, &restore)),
        Act::AddUser(user) => tell_text(rt, add_user(site, &user)),
        Act::DelUser(account) => tell_done(rt, end_user(site, &account)),
        Act::Accounts => tell_text(rt, accounts_of(site)),
        Act::Groups(groups) => tell_done(rt, set_groups(site, &groups)),
        Act::Limits(Some(file)) => tell_done(rt, set_limits(site, &file)),
        Act::Limits(None) => tell_text(rt, limits_of(site)),
        Act::Archive(kept) => tell_text(rt, archive(site, kept)),
        Act::Prune(days) => tell_pruned(rt, prune(site, days)),
        Act::Deck(number) => tell_text(rt, deck_of(site, number)),
    }
}

// Puts data sets. Behind large ones stands a checkpoint: where that can't be written, they are put all the same.
fn put_sets(site: &mut Site<HostRuntime>, put: &Put) -> Result<(), Fault> {
    put_file(site, put)?;
    let _checked = check(site);
    Ok(())
}

// Behind a run that ends all that waits: so no submission and no answer of the account is left.
fn end_user(site: &mut Site<HostRuntime>, account: &Name) -> Result<(), Fault> {
    let mut report = Report::new(site.place.alloc());
    run_site(site, &mut report, false)?;
    del_user(site, account)
}

fn run(rt: &HostRuntime, top: &str) -> u8 {
    let mut report = Report::new(rt.alloc());
    match lock(rt, top, LOCK_ATTEMPTS) {
        Ok(_held) => {
            let ended = run_to_end(rt, top, &mut report);
            tell_run(rt, &report, ended)
        }
        Err(fault) => tell_fault(rt, &fault),
    }
}

// Where the disk was full, the submission that met that is refused, and the others run.
fn run_to_end(rt: &HostRuntime, top: &str, report: &mut Report) -> Result<(), Fault> {
    let tells = rt.stderr().is_terminal();
    let mut site = opened(rt, top)?;
    let mut ended = run_site(&mut site, report, tells);
    drop(site);
    for _ in 0..MOST_REFUSED {
        let Some(number) = report.full else {
            return ended;
        };
        report.full = None;
        ended = run_on(rt, top, report, tells, number);
    }
    ended
}

fn run_on(
    rt: &HostRuntime,
    top: &str,
    report: &mut Report,
    tells: bool,
    number: u64,
) -> Result<(), Fault> {
    let mut site = opened(rt, top)?;
    refuse_full(&mut site, report, number)?;
    run_site(&mut site, report, tells)
}

fn opened(rt: &HostRuntime, top: &str) -> Result<Site<HostRuntime>, Fault> {
    let top = String::from_str(rt.alloc(), top)?;
    open_site(*rt, top)
}

// Holds the lock of a site as long as the file is open. It is made by the operator alone.
fn lock(rt: &HostRuntime, top: &str, attempts: u64) -> Result<File, Fault> {
    let place = Place {
        rt: *rt,
        top: String::from_str(rt.alloc(), top)?,
    };
    let path = place.path("keep/lock")?;
    if place.look(&path)?.is_none() {
        let _runner = runner_of(&place)?;
    }
    match open_lock(rt, &path) {
        Ok(file) => hold(rt, path, file, attempts),
        Err(error) => Err(Fault::failed(rt.alloc(), &path, error)),
    }
}

// Whoever asks whether it is held has it for a moment: so it is tried so often.
fn hold(rt: &HostRuntime, path: String, file: File, attempts: u64) -> Result<File, Fault> {
    for _ in 0..attempts {
        match file.try_lock() {
            Ok(()) => return Ok(file),
            Err(TryLockError::WouldBlock) => thread::sleep(rt, Duration::from_millis(20)),
            Err(TryLockError::Error(error)) => {
                return Err(Fault::failed(rt.alloc(), &path, error));
            }
        }
    }
    Err(Fault::Held(path))
}

fn open_lock(rt: &HostRuntime, path: &str) -> io::Result<File> {
    OpenOptions::new()
        .write(true)
        .create(true)
        .truncate(false)
        .mode(0o600)
        .open(rt, path)
}
