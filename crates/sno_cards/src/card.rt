//! What a line of a program is.
ghost use Rattle.std.specs.Prelude.{◌≡◌, ◌∷◌, ◌==◌, ◌≤◌, length, position, IfSome};
ghost use Rattle.std.specs.List.{before_first, position_or_len};
ghost use Rattle.sno_cards.specs.Cards.{is_same_word, is_control_name, kind_of, is_start, is_continuation, ends_label, is_end_line, rest_of_end_line};

use mon_text::Line;

/// What a line of a program is, by its first character.
#[derive(Clone, Copy)]
pub(crate) enum CardKind {
    Comment,
    Control,
    UnknownControl,
    Continuation,
    Start,
}

fn position_of(text: &[u8], mark: u8) -> Option<usize>
    ensures place { result ≡ position (λ c. c == mark) text.now }
    ensures within { IfSome result (λ index. index ≤ length text.now) }
{
    text.iter().position(|code| *code == mark)
}

// What stands before the first such character, or all of the text where there is none.
fn before(text: &[u8], mark: u8) -> &[u8]
    ensures { result.now ≡ before_first (λ c. c == mark) text.now }
{
    &text[..position_of(text, mark).unwrap_or(text.len())]
}

fn is_same_word(word: &[u8], other: &[u8]) -> bool
    ensures { result ≡ is_same_word word.now other.now }
{
    word.eq_ignore_ascii_case(other)
}

fn is_control_name(word: &[u8]) -> bool
    ensures { result ≡ is_control_name word.now }
{
    is_same_word(word, b"LIST") || is_same_word(word, b"UNLIST") || is_same_word(word, b"EJECT")
}

fn kind_by_mark(mark: u8, rest: &[u8]) -> CardKind
    ensures { result ≡ kind_of (mark ∷ rest.now) }
{
    match mark {
        b'*' => CardKind::Comment,
        b'-' if is_control_name(before(rest, b' ')) => CardKind::Control,
        b'-' => CardKind::UnknownControl,
        b'+' | b'.' => CardKind::Continuation,
        _ => CardKind::Start,
    }
}

pub(crate) fn kind_of(text: &[u8]) -> CardKind
    ensures { result ≡ kind_of text.now }
{
    match text {
        [] => CardKind::Start,
        [mark, rest @ ..] => kind_by_mark(*mark, rest),
    }
}

pub(crate) fn is_start(kind: CardKind) -> bool
    ensures { result ≡ is_start kind }
{
    matches!(kind, CardKind::Start)
}

pub(crate) fn is_continuation(kind: CardKind) -> bool
    ensures { result ≡ is_continuation kind }
{
    matches!(kind, CardKind::Continuation)
}

fn ends_label(rest: &[u8]) -> bool
    ensures { result ≡ ends_label rest.now }
{
    match rest {
        [] => true,
        [next, ..] => *next == b' ' || *next == b';',
    }
}

fn is_end_line(text: &[u8]) -> bool
    ensures { result ≡ is_end_line text.now }
{
    match text {
        [e, n, d, rest @ ..] => *e == b'E' && *n == b'N' && *d == b'D' && ends_label(rest),
        _ => false,
    }
}

fn position_of_end(lines: &[Line]) -> Option<usize>
    ensures place { result ≡ position is_end_line lines.now }
    ensures within { IfSome result (λ index. index ≤ length lines.now) }
{
    lines.iter().position(|line| is_end_line(line.as_bytes()))
}

/// How many lines stand before the first END line, or in all where there is none.
pub(crate) fn end_index(lines: &[Line]) -> usize
    ensures place { result ≡ position_or_len is_end_line lines.now }
    ensures within { result ≤ length lines.now }
{
    position_of_end(lines).unwrap_or(lines.len())
}

/// What stands on an END line after END, before the first `;`.
pub(crate) fn rest_of_end_line(text: &[u8]) -> &[u8]
    ensures { result.now ≡ rest_of_end_line text.now }
{
    match text {
        [_, _, _, rest @ ..] => before(rest, b';'),
        _ => &[],
    }
}
