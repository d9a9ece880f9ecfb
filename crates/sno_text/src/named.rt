//! Names: with a word of the machine that tells a short one, and with a hint where its variable is.
ghost use Rattle.std.specs.Prelude.{◌≡◌, ◌<◌, length, OnErr, IfOk, nat_eq};
ghost use Rattle.std.specs.Hash as fed;
ghost use Rattle.std.specs.Cmp.Lexicographic.{pointwise, nat_list_eq_equiv};
ghost use Rattle.std.specs.Cmp.{partial_equiv_from_equiv};
ghost use Rattle.std.specs.Cmp.Rules.{hashing};
ghost use Rattle.std.proofs.Common.{rules};
ghost use Rattle.sno_text.specs.inner.Words.{Tells};

use crate::text::Text;
use std::alloc::AllocError;
use std::cell::Cell;
use std::hash::{Hash, Hasher};
use std::marker::Model;

/// How many characters a word tells at most.
const MOST_TOLD: usize = 7;

/// A text with a word of the machine that tells it where it is short, so that two are mostly compared in one step.
#[derive(Drop)]
pub struct Name {
    text: Text,
    // 0 where the text is told by no word.
    word: u64,
}

impl Model for Name {
    ghost use Rattle.std.specs.Prelude.{ℕ, List};
    ghost use Rattle.mon_text.specs.Lines.{IsLine};
    ghost use Rattle.sno_text.specs.inner.Words.{Tells};

    ghost Value = { List ℕ };

    ghost view = { λ n. n.text };

    ghost invariant = { λ n. IsLine n.text × Tells n.word n.text };
}

/// The word that tells some characters, or 0.
#[inline(always)]
fn word_of(text: &[u8]) -> u64
    ensures { Tells result text.now }
{
    if text.len() > MOST_TOLD {
        return 0;
    }
    let mut word: u64 = 1;
    let mut left = text.len();
    while left > 0 {
        left -= 1;
        match word.checked_mul(256) {
            Some(more) => match more.checked_add(u64::from(text[left])) {
                Some(more) => word = more,
                None => return 0,
            },
            None => return 0,
        }
    }
    word
}

/// Whether two texts are the same. It stays a call, since words tell most of them.
#[inline(never)]
fn same_text(text: &Text, other: &Text) -> bool
    ensures { result ≡ pointwise nat_eq text.now other.now }
{
    text == other
}

impl Name {
    /// The name that a text is.
    pub fn new(text: Text) -> Name
        ensures { result ≡ text }
    {
        let word = word_of(text.as_bytes());
        Name { text, word }
    }

    /// Its text.
    #[inline(always)]
    pub fn text(&self) -> &Text
        ensures { result.now ≡ self.now }
    {
        &self.text
    }

    /// The same name once more. It takes no memory.
    ///
    /// # Errors
    ///
    /// Where as many share its text as can be counted. The null string is never shared.
    pub fn copy(&self) -> Result<Name, AllocError>
        ensures value { IfOk result (λ name. name ≡ self.now) }
        ensures memory { OnErr result (0 < length self.now) }
    {
        let text = self.text.copy()?;
        Ok(Name {
            text,
            word: self.word,
        })
    }
}

impl PartialEq for Name {
    ghost eq = { pointwise nat_eq };

    ghost laws = { partial_equiv_from_equiv nat_list_eq_equiv };

    #[inline(always)]
    fn eq(&self, other: &Self) -> bool {
        if self.word == other.word {
            if self.word == 0 {
                return same_text(&self.text, &other.text);
            }
            return true;
        }
        if self.word == 0 {
            return same_text(&self.text, &other.text);
        }
        if other.word == 0 {
            return same_text(&self.text, &other.text);
        }
        false
    }
}

impl Eq for Name {
    ghost laws = { nat_list_eq_equiv };
}

impl Hash for Name {
    ghost hash_input = { fed.slice fed.u8 };

    ghost respects_eq = { Prim.search (hashing, rules) };

    fn hash<H: Hasher>(&self, state: &mut H) {
        self.text.hash(state);
    }
}

/// A name, with the place where its variable probably is.
///
/// A contract sees the name alone: a wrong place costs time and nothing else. So a look-up that finds the variable
/// elsewhere tells the place to a name that is only read.
#[derive(Drop)]
pub struct Named {
    name: Name,
    place: Cell<usize>,
}

impl Model for Named {
    ghost use Rattle.std.specs.Prelude.{ℕ, List};

    ghost Value = { List ℕ };

    ghost view = { λ n. n.name };
}

impl Named {
    /// A name that is looked for at a place first.
    pub fn new(text: Text, place: usize) -> Named
        ensures { result ≡ text }
    {
        Named {
            name: Name::new(text),
            place: Cell::new(place),
        }
    }

    /// The name, without its place.
    #[inline(always)]
    pub fn name(&self) -> &Name
        ensures { result.now ≡ self.now }
    {
        &self.name
    }

    /// The text of the name.
    pub fn text(&self) -> &Text
        ensures { result.now ≡ self.now }
    {
        &self.name.text
    }

    /// The same, without its place, to keep.
    pub fn into_name(self) -> Name
        ensures { result ≡ self }
    {
        self.name
    }

    /// The text of the name, to keep.
    pub fn into_text(self) -> Text
        ensures { result ≡ self }
    {
        self.name.text
    }

    /// Where it is looked for first, which no contract says: a cell holds it, and a wrong place is met by a search.
    pub fn place(&self) -> usize
        ensures { self.exit.now ≡ self.entry.now }
    {
        self.place.get()
    }

    /// From now on it is looked for at a place first. The name stays.
    pub fn stands_at(&self, place: usize)
        ensures { self.exit.now ≡ self.entry.now }
    {
        self.place.set(place);
    }
}
