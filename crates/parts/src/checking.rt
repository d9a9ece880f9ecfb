//! Whether a split is one: each name that a text speaks of goes where the text goes.
ghost use Rattle.std.specs.Prelude.{◌≡◌, ◌↔◌, ◌==◌, nat_lt, true, map};
ghost use Rattle.std.specs.List.{list_all};
ghost use Rattle.parts_laws.specs.Runs.{GoWithNames};
ghost use Rattle.parts.specs.Splits.{speaks, goes, numbered};
ghost use Rattle.parts.specs.inner.Tests.{goes_along, all_in, name_goes, are_within};

use crate::split::Split;
use crate::text::Text;
use mon_text::Name;

/// Whether each name that a text speaks of goes to the text's part.
pub fn are_apart(split: &Split, texts: &[Text]) -> bool
    ensures { result ≡ true ↔ GoWithNames speaks (goes split.now) (map numbered texts.now) }
{
    let _count = split.count();
    all_go_along(split, texts)
}

fn all_go_along(split: &Split, texts: &[Text]) -> bool
    ensures { result ≡ list_all (goes_along split.now) texts.now }
{
    let mut good = true;
    for text in texts {
        good &= goes_along(split, text);
    }
    good
}

// Whether all that a text speaks of goes to its part.
fn goes_along(split: &Split, text: &Text) -> bool
    ensures { result ≡ goes_along split.now text.now }
{
    let part = split.of_text(text.number);
    names_go(split, part, &text.names) && (!text.all || all_in(split, part))
}

fn names_go(split: &Split, part: u64, names: &[Name]) -> bool
    ensures { result ≡ list_all (name_goes split.now part) names.now }
{
    let mut good = true;
    for name in names {
        good &= name_goes(split, part, name);
    }
    good
}

fn name_goes(split: &Split, part: u64, name: &Name) -> bool
    ensures { result ≡ name_goes split.now part name.now }
{
    split.of_name(name) == part
}

// Whether each name there could be goes to this part.
fn all_in(split: &Split, part: u64) -> bool
    ensures { result ≡ all_in split.now part }
{
    part == 0 && all_told_in(split, part)
}

#[tactic(auto, using(crate::proofs::Telling::values_in))]
fn all_told_in(split: &Split, part: u64) -> bool
    ensures { result ≡ list_all (λ e. e.1 == part) split.now.names }
{
    are_all(split.names.values().as_slice(), part)
}

fn are_all(parts: &[u64], part: u64) -> bool
    ensures { result ≡ list_all (λ own. own == part) parts.now }
{
    let mut good = true;
    for own in parts {
        good &= *own == part;
    }
    good
}

/// Whether there are so many parts at most.
pub(crate) fn are_within(split: &Split, most: u64) -> bool
    ensures { result ≡ are_within most split.now }
{
    are_below(&split.texts, most) && names_within(split, most)
}

#[tactic(auto, using(crate::proofs::Telling::values_below))]
fn names_within(split: &Split, most: u64) -> bool
    ensures { result ≡ list_all (λ e. nat_lt e.1 most) split.now.names }
{
    are_below(split.names.values().as_slice(), most)
}

fn are_below(parts: &[u64], most: u64) -> bool
    ensures { result ≡ list_all (λ part. nat_lt part most) parts.now }
{
    let mut good = true;
    for part in parts {
        good &= *part < most;
    }
    good
}
