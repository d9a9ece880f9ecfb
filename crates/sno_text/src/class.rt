//! Sets of characters, where one step tells whether a character is one of them.
ghost use Rattle.std.specs.Prelude.{◌≡◌};
ghost use Rattle.mon_text.specs.Lines.{IsLine};
ghost use Rattle.sno_text.specs.Sets.{is_one_of};
ghost use Rattle.sno_text.specs.inner.Classes.{Tells, Lists};

use crate::text::Text;
use std::marker::Model;

/// The characters of a text, with a bit for each of ASCII that is one of them. Contracts see the text.
#[derive(Drop)]
pub struct Class {
    text: Text,
    bits: [u64; 2],
}

impl Model for Class {
    ghost use Rattle.std.specs.Prelude.{ℕ, List};
    ghost use Rattle.sno_text.specs.inner.Classes.{Tells};

    ghost Value = { List ℕ };

    ghost view = { λ c. c.text };

    ghost invariant = { λ c. Tells c.bits c.text };
}

/// The bits of the characters of a text.
fn bits_of(characters: &[u8]) -> [u64; 2]
    requires { IsLine characters.now }
    ensures { Tells result characters.now }
{
    let mut bits = [0u64; 2];
    for &character in characters {
        bits[usize::from(character / 64)] |= 1 << (character % 64);
    }
    bits
}

impl Class {
    /// The set of a text's characters. It takes no memory.
    pub fn new(text: Text) -> Class
        ensures { result ≡ text }
    {
        let bits = bits_of(text.as_bytes());
        Class { text, bits }
    }

    /// Whether a character is one of the set.
    #[inline(always)]
    pub fn has(&self, character: u8) -> bool
        ensures { result ≡ is_one_of self.now character }
    {
        let bits = &self.bits;
        if character > 127 {
            return false;
        }
        (bits[usize::from(character / 64)] >> (character % 64)) & 1 == 1
    }

    /// Whether each byte is a character of the set. This costs as much as some 200 calls of `has`.
    pub(crate) fn table(&self) -> [bool; 256]
        ensures { Lists result 256 self.now }
    {
        let mut table = [false; 256];
        for byte in 0..256 {
            table[byte] = self.has(byte as u8);
        }
        table
    }
}
