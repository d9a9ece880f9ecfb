//! A split of texts: those that share a name stay together, the largest go first, each to the part that has least to do.
ghost use Rattle.std.specs.Prelude.{max, map, IfOk};
ghost use Rattle.parts_laws.specs.Runs.{GoWithNames};
ghost use Rattle.parts.specs.Splits.{speaks, goes, numbered, AreWithin};

use crate::checking::{are_apart, are_within};
use crate::classes::Classes;
use crate::split::Split;
use crate::text::Text;
use indexmap::IndexMap;
use mon_text::Name;
use std::alloc::{AllocError, Global};

/// A class of texts, by its first, and how much work it is.
#[derive(Clone, Copy)]
struct Class {
    first: usize,
    work: u128,
}

/// A split of texts, whose numbers are their places, into so many parts at most. Where a card speaks of all names, it is one part.
///
/// # Errors
///
/// Where a growth was refused.
#[tactic(auto, using(crate::proofs::Telling::within_some, crate::proofs::Telling::one_goes, crate::proofs::Telling::one_within))]
pub fn pack(alloc: Global, texts: &[Text], most: u64) -> Result<Split, AllocError>
    ensures apart { IfOk result (λ split. GoWithNames speaks (goes split) (map numbered texts.now)) }
    ensures few { IfOk result (λ split. AreWithin (max most 1) split) }
{
    let split = packed(alloc, texts, most)?;
    if are_within(&split, most.max(1)) && are_apart(&split, texts) {
        Ok(split)
    } else {
        Ok(Split::one_part(alloc))
    }
}

// By work, and not tested.
fn packed(alloc: Global, texts: &[Text], most: u64) -> Result<Split, AllocError> {
    let mut classes = Classes::alone(alloc, texts.len())?;
    let mut names = IndexMap::new(alloc);
    for (place, text) in texts.iter().enumerate() {
        tie(&mut classes, &mut names, place, &text.names)?;
    }
    let parts = spread(alloc, &classes, texts, most)?;
    told(alloc, &classes, parts, &names)
}

// A text is tied to those before it that have one of its names.
fn tie(
    classes: &mut Classes,
    names: &mut IndexMap<Name, u64>,
    place: usize,
    own: &[Name],
) -> Result<(), AllocError> {
    for name in own {
        tie_by(classes, names, place, name)?;
    }
    Ok(())
}

fn tie_by(
    classes: &mut Classes,
    names: &mut IndexMap<Name, u64>,
    place: usize,
    name: &Name,
) -> Result<(), AllocError> {
    match names.get(name) {
        Some(other) => {
            let other = *other as usize;
            classes.join(place, other);
        }
        None => {
            let before = names.insert(name.copy(), place as u64)?;
            drop(before);
        }
    }
    Ok(())
}

// The part of each class, at the place of its first text.
fn spread(
    alloc: Global,
    classes: &Classes,
    texts: &[Text],
    most: u64,
) -> Result<Vec<u64>, AllocError> {
    let order = by_work(alloc, classes, texts)?;
    let mut loads = zeros(alloc, order.len().min(most as usize).max(1))?;
    let mut parts = Vec::with_capacity(alloc, texts.len())?;
    for _ in texts {
        parts.push(0_u64)?;
    }
    for class in &order {
        let part = least(&loads);
        add(&mut loads, part, class.work);
        if let Some(own) = parts.get_mut(class.first) {
            *own = part as u64;
        }
    }
    Ok(parts)
}

fn zeros(alloc: Global, count: usize) -> Result<Vec<u128>, AllocError> {
    let mut zeros = Vec::with_capacity(alloc, count)?;
    for _ in 0..count {
        zeros.push(0_u128)?;
    }
    Ok(zeros)
}

// The first of those that are least.
fn least(loads: &[u128]) -> usize {
    let mut at: usize = 0;
    let mut load = u128::MAX;
    for (place, own) in loads.iter().enumerate() {
        if *own < load {
            at = place;
            load = *own;
        }
    }
    at
}

fn add(loads: &mut [u128], place: usize, work: u128) {
    if let Some(load) = loads.get_mut(place) {
        *load = load.saturating_add(work);
    }
}

// The classes, that with most work first.
fn by_work(alloc: Global, classes: &Classes, texts: &[Text]) -> Result<Vec<Class>, AllocError> {
    let mut works = zeros(alloc, texts.len())?;
    for (place, text) in texts.iter().enumerate() {
        add(&mut works, classes.first_of(place), text.work);
    }
    let mut order = Vec::new(alloc);
    for (place, work) in works.iter().enumerate() {
        if classes.first_of(place) == place {
            order.push(Class {
                first: place,
                work: *work,
            })?;
        }
    }
    sort(&mut order);
    Ok(order)
}

fn sort(order: &mut [Class]) {
    order.sort_unstable_by_key(|class| u128::MAX - class.work);
}

// Each text goes where the first of its class goes, and each name where the text goes that has it first.
fn told(
    alloc: Global,
    classes: &Classes,
    parts: Vec<u64>,
    names: &IndexMap<Name, u64>,
) -> Result<Split, AllocError> {
    let mut split = Split::one_part(alloc);
    for place in 0..parts.len() {
        split.texts.push(part_at(&parts, classes.first_of(place)))?;
    }
    for (name, place) in names.iter() {
        let part = part_at(&parts, classes.first_of(*place as usize));
        let before = split.names.insert(name.copy(), part)?;
        drop(before);
    }
    Ok(split)
}

fn part_at(parts: &[u64], place: usize) -> u64 {
    match parts.get(place) {
        Some(part) => *part,
        None => 0,
    }
}
