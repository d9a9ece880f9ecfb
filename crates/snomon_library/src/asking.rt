//! The words of a command line that ask for an audit, which are taken out before the others are read.
ghost use Rattle.std.specs.Prelude.{◌≡◌, ◌<◌, ◌≤◌, ◌⊎◌, [], Some, None, true, false, map, length, vec_len, get_or, take, drop, IfOk, IfErr};
ghost use Rattle.std.specs.Option.{option_map};
ghost use Rattle.std.specs.String.{string_bytes};
ghost use Rattle.clap.specs.Words.{kind_of};
ghost use Rattle.snomon_library.specs.Asking.{audit_of, asked_in, is_end, file_in, is_file, asked_next};
ghost use Rattle.snomon_library.specs.inner.Asking.{onto, stands_out};

use crate::options::no_file;
use clap::Error;
use clap::error::ErrorKind;
use std::alloc::{AllocError, Global};
use std::convert::AsStr;

/// The name of the file that an audit is to be written to, where the words have one. The words that name it are taken out.
///
/// # Errors
///
/// Where the option stands without a file; or where a growth was refused, and then the kind is `OutOfMemory`.
pub fn take_audit<S: AsStr + Drop>(
    alloc: Global,
    words: &mut Vec<S>,
) -> Result<Option<String>, Error>
    ensures taken { IfOk result (λ file. audit_of (map S.text words.old.items) ≡ Some (record { left = map S.text words.new.items; file = option_map string_bytes file })) }
    ensures refused { IfErr result (λ error. (kind_of error ≡ ErrorKind.OutOfMemory) ⊎ (audit_of (map S.text words.old.items) ≡ None)) }
{
    let at = others(words.as_slice());
    if at >= words.len() || is_end(words[at].as_str()) {
        return Ok(None);
    }
    let named = name_in(alloc, words[at].as_str())?;
    words.remove(at);
    match named {
        Some(name) => Ok(Some(checked(alloc, name)?)),
        None => Ok(Some(take_next(alloc, words, at)?)),
    }
}

// How many words stand before the first that ends the options or asks for an audit; the program's name is one of them.
fn others<S: AsStr>(words: &[S]) -> usize
    ensures passed { 0 < length words.now → (result ≤ length words.now) × (audit_of (map S.text words.now) ≡ option_map (onto (take result (map S.text words.now))) (asked_in (drop result (map S.text words.now)))) }
    ensures next { result < length words.now → stands_out (get_or (map S.text words.now) result []) ≡ true }
    ensures none { length words.now ≡ 0 → 0 < result }
{
    for at in 1..words.len() {
        if stands_out(words[at].as_str()) {
            return at;
        }
    }
    words.len().max(1)
}

fn stands_out(word: &str) -> bool
    ensures { result ≡ stands_out word.now }
{
    is_end(word) || file_in(word).is_some() || word == "--audit"
}

fn is_end(word: &str) -> bool
    ensures { result ≡ is_end word.now }
{
    word == "--"
}

// The file that a word names together with the option.
fn file_in(word: &str) -> Option<&str>
    ensures { option_map (λ name. name.now) result ≡ file_in word.now }
{
    word.strip_prefix("--audit=")
}

// The same, as a name.
fn name_in(alloc: Global, word: &str) -> Result<Option<String>, AllocError>
    ensures { IfOk result (λ name. option_map string_bytes name ≡ file_in word.now) }
{
    match file_in(word) {
        Some(name) => Ok(Some(String::from_str(alloc, name)?)),
        None => Ok(None),
    }
}

// Takes out the word that names the file.
fn take_next<S: AsStr + Drop>(alloc: Global, words: &mut Vec<S>, at: usize) -> Result<String, Error>
    requires { at ≤ vec_len words.old }
    ensures taken { IfOk result (λ name. (asked_next (drop at (map S.text words.old.items)) ≡ Some (record { left = drop at (map S.text words.new.items); file = Some (string_bytes name) }))
        × (take at (map S.text words.new.items) ≡ take at (map S.text words.old.items))) }
    ensures refused { IfErr result (λ error. (kind_of error ≡ ErrorKind.OutOfMemory) ⊎ (asked_next (drop at (map S.text words.old.items)) ≡ None)) }
{
    if at == words.len() {
        return Err(no_file(alloc)?);
    }
    let name = String::from_str(alloc, words[at].as_str())?;
    words.remove(at);
    checked(alloc, name)
}

// The name, if it is one of a file.
fn checked(alloc: Global, name: String) -> Result<String, Error>
    ensures file { IfOk result (λ same. (is_file (string_bytes name) ≡ true) × (string_bytes same ≡ string_bytes name)) }
    ensures refused { IfErr result (λ error. (kind_of error ≡ ErrorKind.OutOfMemory) ⊎ (is_file (string_bytes name) ≡ false)) }
{
    if is_file(name.as_str()) {
        Ok(name)
    } else {
        Err(no_file(alloc)?)
    }
}

fn is_file(name: &str) -> bool
    ensures { result ≡ is_file name.now }
{
    match name.as_bytes().first() {
        Some(byte) => *byte != b'-',
        None => false,
    }
}
