//! Which files in boxes stand under numbers, and which can be claimed: by which they are.
ghost use Rattle.std.specs.Prelude.{◌≡◌, IfOk};
ghost use Rattle.ledger_names.specs.Sorting.{same_file, is_among, names_of, is_fit, done_of, left_of};

use ledger_disk::Identity;
use std::alloc::{AllocError, Global};

/// A file in a box: its place, and which it is.
#[derive(Clone, Copy)]
pub struct Boxed {
    /// Its place.
    pub drop: u64,
    /// Which it is.
    pub file: Identity,
}

/// The places of files in boxes.
#[derive(Drop)]
pub struct Sorted {
    /// Of those that stand under numbers.
    pub done: Vec<u64>,
    /// Of those that can be claimed.
    pub left: Vec<u64>,
}

fn same_file(file: Identity, one: Identity) -> bool
    ensures { result ≡ same_file file one }
{
    file.device == one.device && file.inode == one.inode
}

// Whether a file is one of these.
fn is_among(files: &[Identity], file: Identity) -> bool
    ensures { result ≡ is_among file files.now }
{
    for index in 0..files.len() {
        if same_file(file, files[index]) {
            return true;
        }
    }
    false
}

// How many names a file has.
fn names_of(boxed: &[Boxed], file: Identity) -> usize
    ensures { result ≡ names_of file boxed.now }
{
    let mut count = 0;
    for index in 0..boxed.len() {
        if same_file(file, boxed[index].file) {
            count += 1;
        }
    }
    count
}

// Whether a file can be claimed, where these stand under numbers.
fn is_fit(files: &[Identity], boxed: &[Boxed], file: Identity) -> bool
    ensures { result ≡ is_fit files.now boxed.now file }
{
    !is_among(files, file) && names_of(boxed, file) == 1
}

fn done_of(alloc: Global, files: &[Identity], boxed: &[Boxed]) -> Result<Vec<u64>, AllocError>
    ensures { IfOk result (λ done. done.items ≡ done_of files.now boxed.now) }
{
    let mut done = Vec::new(alloc);
    for index in 0..boxed.len() {
        if is_among(files, boxed[index].file) {
            done.push(boxed[index].drop)?;
        }
    }
    Ok(done)
}

fn left_of(alloc: Global, files: &[Identity], boxed: &[Boxed]) -> Result<Vec<u64>, AllocError>
    ensures { IfOk result (λ left. left.items ≡ left_of files.now boxed.now boxed.now) }
{
    let mut left = Vec::new(alloc);
    for index in 0..boxed.len() {
        if is_fit(files, boxed, boxed[index].file) {
            left.push(boxed[index].drop)?;
        }
    }
    Ok(left)
}

/// Sorts files in boxes, where these stand under numbers: a file that stands in boxes under several names is passed over.
///
/// # Errors
///
/// Where a growth was refused.
pub fn sort_boxed(alloc: Global, files: &[Identity], boxed: &[Boxed]) -> Result<Sorted, AllocError>
    ensures done { IfOk result (λ sorted. sorted.done.items ≡ done_of files.now boxed.now) }
    ensures left { IfOk result (λ sorted. sorted.left.items ≡ left_of files.now boxed.now boxed.now) }
{
    let done = done_of(alloc, files, boxed)?;
    let left = left_of(alloc, files, boxed)?;
    Ok(Sorted { done, left })
}
