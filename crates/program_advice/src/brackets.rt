//! Which bracket is open behind a text.
ghost use Rattle.std.specs.Prelude.{◌≡◌, reverse};
ghost use Rattle.program_advice.specs.Brackets.{back_over, over_character, over_bracket, found_behind};

/// What stands where no bracket is open, and for the quote of no literal.
const NONE: u8 = b'\n';

/// What is known of a text that is read from its end.
#[derive(Clone, Copy)]
pub struct Walk {
    /// The quote of the literal that it is in.
    pub quote: u8,
    /// How many brackets were closed, and not yet opened. At most 200 are counted; a statement has fewer.
    pub closed: u8,
    /// The bracket that is open.
    pub found: u8,
}

/// The last `(` or `<` of a text that no `)` or `>` behind it closes, whatever is in literals; a line feed, where there is none.
pub(crate) fn open_behind(text: &[u8]) -> u8
    ensures { result ≡ found_behind (reverse text.now) }
{
    let start = Walk {
        quote: NONE,
        closed: 0,
        found: NONE,
    };
    text.iter()
        .rev()
        .fold(start, |walk, code| back_over(walk, *code))
        .found
}

// Over one character more.
fn back_over(walk: Walk, code: u8) -> Walk
    ensures { result ≡ back_over walk code }
{
    let mut walk = walk;
    if walk.found == NONE {
        if walk.quote == NONE {
            walk = over_character(walk, code);
        } else if walk.quote == code {
            walk.quote = NONE;
        }
    }
    walk
}

// Over one that is in no literal.
fn over_character(walk: Walk, code: u8) -> Walk
    ensures { result ≡ over_character walk code }
{
    let mut walk = walk;
    if code == b'\'' || code == b'"' {
        walk.quote = code;
    } else if code == b')' || code == b'>' {
        walk.closed = if walk.closed < 200 {
            walk.closed + 1
        } else {
            walk.closed
        };
    } else if code == b'(' || code == b'<' {
        walk = over_bracket(walk, code);
    }
    walk
}

// Over one that opens.
fn over_bracket(walk: Walk, code: u8) -> Walk
    ensures { result ≡ over_bracket walk code }
{
    let mut walk = walk;
    if walk.closed > 0 {
        walk.closed -= 1;
    } else {
        walk.found = code;
    }
    walk
}
