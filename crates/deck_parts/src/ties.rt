//! Which data sets keep texts in one part.

use indexmap::IndexMap;
use mon_text::Name;
use preflight::Submission;
use std::alloc::{AllocError, Global};
use text_names::text_of;

/// A data set, and of how many texts a card has its name.
#[derive(Drop)]
pub struct Tie {
    pub name: Name,
    pub texts: u64,
}

/// The data sets that cards of several texts name, those of most texts first.
///
/// # Errors
///
/// Where a growth was refused.
pub fn ties_of(alloc: Global, texts: &[Submission]) -> Result<Vec<Tie>, AllocError> {
    let mut seen: IndexMap<Name, Seen> = IndexMap::new(alloc);
    for (place, text) in texts.iter().enumerate() {
        let read = text_of(alloc, place as u64, 0, &text.text)?;
        for name in &read.names {
            note(&mut seen, name, place)?;
        }
    }
    let mut ties = Vec::new(alloc);
    for (name, own) in seen.iter() {
        if own.texts > 1 {
            ties.push(Tie {
                name: name.copy(),
                texts: own.texts,
            })?;
        }
    }
    ties.sort_by_key(|tie| u64::MAX - tie.texts)?;
    Ok(ties)
}

/// How many texts have a name, and the last of them.
#[derive(Clone, Copy)]
struct Seen {
    texts: u64,
    last: usize,
}

fn note(seen: &mut IndexMap<Name, Seen>, name: &Name, place: usize) -> Result<(), AllocError> {
    let own = match seen.get(name) {
        Some(own) if own.last == place => return Ok(()),
        Some(own) => Seen {
            texts: own.texts.saturating_add(1),
            last: place,
        },
        None => Seen {
            texts: 1,
            last: place,
        },
    };
    let before = seen.insert(name.copy(), own)?;
    drop(before);
    Ok(())
}
