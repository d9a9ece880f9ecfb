//! The order of a run: the first file of each box, then the second of each, and so on.
ghost use Rattle.std.specs.Prelude.{◌≡◌, ◌+◌, ◌++◌, map, take, drop, IfOk, OnOk};
ghost use Rattle.std.specs.List.{flat_map};
ghost use Rattle.ledger_turns.specs.Order.{longest, rotated, served};

use std::alloc::{AllocError, Global};
use std::collections::VecDeque;

/// The files of the boxes, in the order of a run; this number says which box is the first.
///
/// # Errors
///
/// Where a growth was refused.
pub fn in_turns<T: Drop>(
    alloc: Global,
    first: u64,
    queues: Vec<VecDeque<T>>,
) -> Result<Vec<T>, AllocError>
    ensures { IfOk result (λ order. order.items ≡ served first (map (λ queue. queue.items) queues.items)) }
{
    let turns = most_texts(&queues);
    let mut queues = rotate(first, queues);
    let mut order = Vec::new(alloc);
    for _ in 0..turns {
        take_turn(&mut queues, &mut order)?;
    }
    Ok(order)
}

// As many boxes are moved behind the others as this number says.
fn rotate<T>(first: u64, queues: Vec<VecDeque<T>>) -> Vec<VecDeque<T>>
    ensures { result.items ≡ rotated first queues.items }
{
    let mut queues = queues;
    if !queues.is_empty() {
        let count = (first % queues.len() as u64) as usize;
        queues.rotate_left(count);
    }
    queues
}

// How many files stand in the longest queue.
fn most_texts<T>(queues: &[VecDeque<T>]) -> usize
    ensures { result ≡ longest (map (λ queue. queue.items) queues.now) }
{
    let mut most = 0;
    for queue in queues {
        if most < queue.len() {
            most = queue.len();
        }
    }
    most
}

// Each box gives its first file, if it has one.
fn take_turn<T: Drop>(queues: &mut [VecDeque<T>], order: &mut Vec<T>) -> Result<(), AllocError>
    ensures order { OnOk result (order.new.items ≡ order.old.items ++ flat_map (λ queue. take 1 queue.items) queues.old) }
    ensures left { OnOk result (map (λ queue. queue.items) queues.new ≡ map (λ queue. drop 1 queue.items) queues.old) }
{
    for queue in queues.iter_mut() {
        take_text(queue, order)?;
    }
    Ok(())
}

// A box gives its first file, if it has one.
fn take_text<T: Drop>(queue: &mut VecDeque<T>, order: &mut Vec<T>) -> Result<(), AllocError>
    ensures order { OnOk result (order.new.items ≡ order.old.items ++ take 1 queue.old.items) }
    ensures left { queue.new.items ≡ drop 1 queue.old.items }
{
    match queue.pop_front() {
        Some(text) => match order.push(text) {
            Ok(()) => Ok(()),
            Err(_) => Err(AllocError),
        },
        None => Ok(()),
    }
}
