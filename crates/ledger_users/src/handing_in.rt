//! What users do: a submission is checked, handed in, and looked for while it waits. None of it needs the lock, or a right that the user of
//! the box does not have.
use deck_review::{Detail, review_submission};
use ledger_folder::{Fault, Host, Place, Wrong, joined};
use mon_text::{Name, Stop};
use preflight::examine;
use site_plan::{Reason, is_claimed, reply, shown_name};
use std::alloc::Global;
use std::os::unix::fs::MetadataExt;

/// The bits of a mode by which the file's group may read and write it.
const GROUPS: u32 = 0o060;

/// What is told of a submission.
#[derive(Drop)]
pub struct Checked {
    /// Whether it is admitted, or what its user is told; and then each mistake in it, and each warning.
    pub told: Vec<u8>,
    /// Whether it is admitted, and has no mistake.
    pub is_good: bool,
}

/// A submission of an account.
#[derive(Drop)]
pub struct Own {
    /// The folder of the site; none where it is checked alone.
    pub top: String,
    /// The account.
    pub account: Name,
    /// The path of the submission.
    pub file: String,
}

/// What is told of the submission in a file, which an account would hand in.
pub fn check_file<R: Host>(rt: R, own: &Own) -> Result<Checked, Fault> {
    let top = own.top.clone()?;
    let place = Place { rt, top };
    let text = place.read(&own.file)?;
    check(place.alloc(), own, &text)
}

fn check(alloc: Global, own: &Own, text: &[u8]) -> Result<Checked, Fault> {
    let review = review_submission(alloc, Detail::Jobs, &own.account, text)?;
    let refused = refusal_of(alloc, own, text)?;
    let is_good = refused.is_none() && review.tally.mistakes == 0;
    let mut told = match refused {
        Some(told) => told,
        None => Vec::from_slice(alloc, b"ADMITTED\n")?,
    };
    told.extend_from_slice(&review.out)?;
    Ok(Checked { told, is_good })
}

// What the user of an account is told who may not hand this in.
fn refusal_of(alloc: Global, own: &Own, text: &[u8]) -> Result<Option<Vec<u8>>, Fault> {
    match examine(alloc, &own.account, text) {
        Ok(_) => Ok(None),
        Err(Stop::Refused(refusal)) => {
            let file = shown_name(last_part(&own.file));
            Ok(Some(reply(alloc, file, &own.account, Reason::Line(refusal), text)?))
        }
        Err(Stop::Memory) => Err(Fault::Memory),
    }
}

// What stands behind the last slash of a path.
fn last_part(path: &str) -> &[u8] {
    let bytes = path.as_bytes();
    match bytes.iter().rposition(|byte| *byte == b'/') {
        Some(slash) => &bytes[slash + 1..],
        None => bytes,
    }
}

/// Hands in the submission in a file: it stands whole in the box of its account, under the name of the file, or not at all. What its user
/// is told, and whether it was handed in.
pub fn submit_file<R: Host>(rt: R, own: &Own) -> Result<Checked, Fault> {
    let top = own.top.clone()?;
    let place = Place { rt, top };
    let text = place.read(&own.file)?;
    match refusal_of(place.alloc(), own, &text)? {
        Some(told) => Ok(Checked {
            told,
            is_good: false,
        }),
        None => drop_in(&place, own, &text),
    }
}

fn drop_in<R: Host>(place: &Place<R>, own: &Own, text: &[u8]) -> Result<Checked, Fault> {
    let alloc = place.alloc();
    let name = ledger_folder::text_of(alloc, last_part(&own.file))?;
    let folder = place.path_of("in", own.account.as_bytes())?;
    let path = joined(alloc, &folder, &name)?;
    refuse_root(place, &folder)?;
    if !is_claimed(name.as_bytes()) {
        return Err(Fault::Wrong(path, Wrong::Words("a file of such a name is never claimed")));
    }
    put_whole(place, &folder, &path, text)?;
    let told = told_of(alloc, &own.account, name.as_bytes())?;
    Ok(Checked {
        told,
        is_good: true,
    })
}

// A file of root is none of the user's, and root follows no name that a user may change.
fn refuse_root<R: Host>(place: &Place<R>, folder: &str) -> Result<(), Fault> {
    let Some(seen) = place.look(folder)? else {
        return Err(Fault::wrong(place.alloc(), folder, Wrong::Words("is missing")));
    };
    if seen.uid() != 0 && place.runner(folder)? == 0 {
        return Err(Fault::wrong(
            place.alloc(),
            folder,
            Wrong::Words("is a user's, who alone can hand in"),
        ));
    }
    Ok(())
}

// Written beside its place, and named then. The group of the box may write it: so an operator who is not root can claim it.
fn put_whole<R: Host>(
    place: &Place<R>,
    folder: &str,
    path: &str,
    text: &[u8],
) -> Result<(), Fault> {
    if place.look(path)?.is_some() {
        return Err(Fault::wrong(place.alloc(), path, Wrong::Words("waits already")));
    }
    let beside = joined(place.alloc(), folder, ".submission")?;
    place.remove(&beside)?;
    place.write_new(&beside, text)?;
    place.set_mode(&beside, 0o660)?;
    place.rename(&beside, path)
}

fn told_of(alloc: Global, account: &Name, name: &[u8]) -> Result<Vec<u8>, Fault> {
    let mut told = Vec::from_slice(alloc, b"HANDED IN; ITS ANSWER WILL BE out/")?;
    told.extend_from_slice(account.as_bytes())?;
    told.extend_from_slice(b"/NUMBER.")?;
    told.extend_from_slice(shown_name(name))?;
    told.extend_from_slice(b".out\n")?;
    Ok(told)
}

/// The names of what waits in the box of an account, a line each. An operator who is not root can claim a file only if the box's group may read
/// and write it: so it is told where it may not.
pub fn queue_of<R: Host>(rt: R, top: String, account: &Name) -> Result<Vec<u8>, Fault> {
    let place = Place { rt, top };
    let folder = place.path_of("in", account.as_bytes())?;
    let mut text = Vec::new(place.alloc());
    for name in place.names(&folder)? {
        if is_claimed(name.as_bytes()) {
            text.extend_from_slice(shown_name(name.as_bytes()))?;
            text.extend_from_slice(hint_for(&place, &folder, &name)?)?;
        }
    }
    Ok(text)
}

// What is told behind the name of a file in a box.
fn hint_for<R: Host>(place: &Place<R>, folder: &str, name: &str) -> Result<&'static [u8], Fault> {
    let path = joined(place.alloc(), folder, name)?;
    let (Some(of), Some(file)) = (place.look(folder)?, place.look(&path)?) else {
        return Ok(b"\n".as_slice());
    };
    let is_groups = file.gid() == of.gid() && file.mode() & GROUPS == GROUPS;
    if of.uid() == 0 || file.uid() == of.uid() || is_groups {
        Ok(b"\n".as_slice())
    } else {
        Ok(b" MAY STAY: chmod g+rw lets the operator claim it\n".as_slice())
    }
}
