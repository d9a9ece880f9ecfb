//! Which path a name stands for, in the folder of a site. What is said of `files` holds of this file too: it is to be read.
use crate::Name;
use std::alloc::{AllocError, Global};
use std::io::{self, ErrorKind};

/// The answer to the text of a number, and where it is put.
#[derive(Drop)]
struct Answer {
    number: u64,
    path: String,
}

/// What was claimed under a number, and its name.
#[derive(Drop)]
struct Claimed {
    number: u64,
    name: String,
}

/// The folder of a site.
#[derive(Drop)]
pub(crate) struct Paths {
    alloc: Global,
    top: String,
    // The files in boxes, each by its path.
    dropped: Vec<String>,
    answers: Vec<Answer>,
    claimed: Vec<Claimed>,
    /// The boxes.
    pub(crate) boxes: Vec<String>,
    /// The folders of the answers.
    pub(crate) outs: Vec<String>,
}

impl Paths {
    pub(crate) fn new(alloc: Global, top: String) -> Paths {
        Paths {
            alloc,
            top,
            dropped: Vec::new(alloc),
            answers: Vec::new(alloc),
            claimed: Vec::new(alloc),
            boxes: Vec::new(alloc),
            outs: Vec::new(alloc),
        }
    }

    /// A file in this box is called by its place from here on.
    pub(crate) fn add_dropped(&mut self, folder: String, name: &str) -> Result<u64, AllocError> {
        let place = self.dropped.len() as u64;
        let path = joined(self.alloc, &folder, name)?;
        self.dropped.push(path)?;
        add_new(&mut self.boxes, folder)?;
        Ok(place)
    }

    /// The answer to the text of this number stands in this folder under this name.
    pub(crate) fn add_answer(
        &mut self,
        number: u64,
        folder: String,
        name: &str,
    ) -> Result<(), AllocError> {
        let path = joined(self.alloc, &folder, name)?;
        self.answers.push(Answer { number, path })?;
        add_new(&mut self.outs, folder)
    }

    /// What was claimed under this number stands under this name.
    pub(crate) fn add_claimed(&mut self, number: u64, name: &str) -> Result<(), AllocError> {
        let name = String::from_str(self.alloc, name)?;
        self.claimed.push(Claimed { number, name })?;
        Ok(())
    }

    /// The path of a name.
    pub(crate) fn of(&self, name: Name) -> io::Result<String> {
        match name {
            Name::Commit(number) => self.numbered("ledger", number),
            Name::Draft => self.kept("draft/commit"),
            Name::Claimed(number) => self.claimed(number),
            Name::Unfinished => self.kept("draft/answer"),
            Name::Dropped(place) => known(self.dropped.get(place as usize)),
            Name::Answer(number) => known(self.answer(number)),
        }
    }

    /// The path of a commit that was archived.
    pub(crate) fn archived(&self, number: u64) -> io::Result<String> {
        self.numbered("archive", number)
    }

    // What nobody said a name of has its number for one.
    fn claimed(&self, number: u64) -> io::Result<String> {
        for claimed in self.claimed.iter() {
            if claimed.number == number {
                let alloc = self.alloc;
                let path = format!(in alloc; "{}/keep/taken/{}", self.top, claimed.name)?;
                return Ok(path);
            }
        }
        self.numbered("taken", number)
    }

    fn answer(&self, number: u64) -> Option<&String> {
        for answer in self.answers.iter() {
            if answer.number == number {
                return Some(&answer.path);
            }
        }
        None
    }

    /// The path of what the program keeps.
    pub(crate) fn kept(&self, name: &str) -> io::Result<String> {
        let alloc = self.alloc;
        let path = format!(in alloc; "{}/keep/{name}", self.top)?;
        Ok(path)
    }

    fn numbered(&self, folder: &str, number: u64) -> io::Result<String> {
        let alloc = self.alloc;
        let path = format!(in alloc; "{}/keep/{folder}/{number:08}", self.top)?;
        Ok(path)
    }
}

/// The number that a claimed file's name begins with, before the first colon, if there is one; other names are nobody's.
pub(crate) fn number_of(name: &str) -> Option<u64> {
    let digits = match name.split_once(':') {
        Some((digits, _)) => digits,
        None => name,
    };
    match digits.parse::<u64>() {
        Ok(number) if !digits.starts_with('+') => Some(number),
        _ => None,
    }
}

/// The lesser of the numbers from this one on, where there are any.
pub(crate) fn lesser(least: Option<u64>, from: u64, number: Option<u64>) -> Option<u64> {
    match (least, number) {
        (_, Some(number)) if number < from => least,
        (Some(least), Some(number)) => Some(least.min(number)),
        (None, Some(number)) => Some(number),
        (_, None) => least,
    }
}

fn joined(alloc: Global, folder: &str, name: &str) -> Result<String, AllocError> {
    let mut path = String::from_str(alloc, folder)?;
    path.push_str("/")?;
    path.push_str(name)?;
    Ok(path)
}

fn add_new(folders: &mut Vec<String>, folder: String) -> Result<(), AllocError> {
    if !folders.contains(&folder) {
        folders.push(folder)?;
    }
    Ok(())
}

fn known(path: Option<&String>) -> io::Result<String> {
    match path {
        Some(path) => Ok(path.clone()?),
        None => Err(ErrorKind::NotFound.into()),
    }
}
