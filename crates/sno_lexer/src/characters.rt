//! The characters of a name or of a literal, as a tree has them.
ghost use Rattle.std.specs.Prelude.{◌≡◌, ◌≤◌, length, take, IfOk};
ghost use Rattle.mon_text.specs.Lines.{IsLine};

use mon_text::Line;
use std::alloc::{AllocError, Global};
use std::marker::Model;

/// How many characters take no memory of their own.
const MOST_SHORT: usize = 14;

/// A few characters.
#[derive(Clone, Copy)]
struct Few {
    /// How many of them count.
    count: u8,
    room: [u8; MOST_SHORT],
}

/// Characters of ASCII 32 to 126, of which a few take no memory.
///
/// A contract sees them as their list.
#[derive(Drop)]
pub struct Characters {
    place: Result<Few, Box<Line>>,
}

impl Model for Characters {
    ghost use Rattle.std.specs.Prelude.{ℕ, ◌≤◌, List, [], take, IfOk};
    ghost use Rattle.std.specs.Option.{option_map_or};
    ghost use Rattle.std.specs.Result.{result_ok, result_err};
    ghost use Rattle.mon_text.specs.Lines.{IsLine};

    ghost Value = { List ℕ };

    ghost view = { λ c. option_map_or (λ few. take few.count few.room) (result_ok c.place) (option_map_or (λ line. line.value) (result_err c.place) []) };

    ghost invariant = { λ c. IsLine (option_map_or (λ few. take few.count few.room) (result_ok c.place) (option_map_or (λ line. line.value) (result_err c.place) [])) × IfOk c.place (λ few. few.count ≤ 14) };
}

// Few characters, and zeros behind them. One to four are not copied, since what was just copied is slow to read.
#[inline(always)]
fn room_of(text: &[u8]) -> [u8; MOST_SHORT]
    requires { length text.now ≤ 14 }
    ensures { take (length text.now) result ≡ text.now }
{
    match text {
        [a] => [*a, 0, 0, 0, 0, 0, 0, 0, 0, 0, 0, 0, 0, 0],
        [a, b] => [*a, *b, 0, 0, 0, 0, 0, 0, 0, 0, 0, 0, 0, 0],
        [a, b, c] => [*a, *b, *c, 0, 0, 0, 0, 0, 0, 0, 0, 0, 0, 0],
        [a, b, c, d] => [*a, *b, *c, *d, 0, 0, 0, 0, 0, 0, 0, 0, 0, 0],
        _ => {
            let mut room = [0; MOST_SHORT];
            room[..text.len()].copy_from_slice(text);
            room
        }
    }
}

impl Characters {
    // A few characters.
    #[inline(always)]
    fn short(text: &[u8]) -> Characters
        requires printable { IsLine text.now }
        requires few { length text.now ≤ 14 }
        ensures { result ≡ text.now }
    {
        Characters {
            place: Ok(Few {
                count: text.len() as u8,
                room: room_of(text),
            }),
        }
    }

    /// These characters.
    ///
    /// # Errors
    ///
    /// Where a growth was refused.
    #[inline(always)]
    pub fn of_slice(alloc: Global, text: &[u8]) -> Result<Characters, AllocError>
        requires { IsLine text.now }
        ensures { IfOk result (λ c. c ≡ text.now) }
    {
        if text.len() <= MOST_SHORT {
            Ok(Characters::short(text))
        } else {
            Characters::long(alloc, text)
        }
    }

    // Many characters.
    fn long(alloc: Global, text: &[u8]) -> Result<Characters, AllocError>
        requires { IsLine text.now }
        ensures { IfOk result (λ c. c ≡ text.now) }
    {
        let room = Vec::with_capacity(alloc, text.len())?;
        let line = Box::new(alloc, Line::in_room(room, text))?;
        Ok(Characters { place: Err(line) })
    }

    /// The characters.
    pub fn as_bytes(&self) -> &[u8]
        ensures value { result.now ≡ self.now }
        ensures printable { IsLine self.now }
    {
        match &self.place {
            Ok(few) => &few.room[..few.count as usize],
            Err(line) => line.as_bytes(),
        }
    }
}
