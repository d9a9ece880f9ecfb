//! Where patterns end that end in one place or nowhere, and where the next part with its parentheses in pairs does.
ghost use Rattle.std.specs.Prelude.{◌≡◌, ◌≤◌, ◌<◌, ◌^◌, length, true, IfSome};
ghost use Rattle.sno_text.specs.Patterns as pattern;
ghost use Rattle.sno_text.specs.Nodes.{pattern_of};
ghost use Rattle.sno_text.specs.Balance.{balanced_ends};
ghost use Rattle.sno_text.specs.inner.Reaching.{reached, IsWithin, is_nowhere, open_after, next_and_on};

use crate::node::Node;
use crate::set::{begins_with_another, begins_with_one_of, gap_before, run_of, stands_first};
use crate::text::Text;

/// Where a pattern ends from a cursor on.
#[derive(Clone, Copy)]
pub enum Reach {
    /// At this place alone.
    Here(usize),
    Nowhere,
    /// That depends: it has parts, several ends, or words for the host.
    Depends,
}

/// Here, if the number of characters from the cursor on is in the text.
fn ahead(text: &[u8], at: usize, count: u64) -> Reach
    requires { at ≤ length text.now }
    ensures value { result ≡ reached text.now (pattern.Len count) at }
    ensures within { IsWithin (length text.now) result }
{
    if count <= (text.len() - at) as u64 {
        Reach::Here(at + count as usize)
    } else {
        Reach::Nowhere
    }
}

/// Where a text ends, if it stands at the cursor.
#[inline(always)]
fn text_reached(text: &[u8], part: &Text, at: usize) -> Reach
    requires { at ≤ length text.now }
    ensures value { result ≡ reached text.now (pattern.Text part.now) at }
    ensures within { IsWithin (length text.now) result }
{
    let part = part.as_bytes();
    if stands_first(&text[at..], part) {
        Reach::Here(at + part.len())
    } else {
        Reach::Nowhere
    }
}

/// Where a pattern ends from a cursor on, one by one.
#[inline(never)]
fn reached_alone(text: &[u8], node: &Node, at: usize) -> Reach
    requires { at ≤ length text.now }
    ensures value { result ≡ reached text.now (pattern_of node.now) at }
    ensures within { IsWithin (length text.now) result }
{
    match node {
        Node::Text(part) => text_reached(text, part, at),
        Node::Len(n) => ahead(text, at, *n),
        Node::Pos(n) => {
            if at as u64 == *n {
                Reach::Here(at)
            } else {
                Reach::Nowhere
            }
        }
        Node::RPos(n) => {
            if (text.len() - at) as u64 == *n {
                Reach::Here(at)
            } else {
                Reach::Nowhere
            }
        }
        Node::Tab(n) => {
            if at as u64 <= *n && *n <= text.len() as u64 {
                Reach::Here(*n as usize)
            } else {
                Reach::Nowhere
            }
        }
        Node::RTab(n) => {
            if *n <= (text.len() - at) as u64 {
                Reach::Here(text.len() - *n as usize)
            } else {
                Reach::Nowhere
            }
        }
        Node::Rem => Reach::Here(text.len()),
        Node::Any(set) => {
            if begins_with_one_of(&text[at..], set) {
                Reach::Here(at + 1)
            } else {
                Reach::Nowhere
            }
        }
        Node::NotAny(set) => {
            if begins_with_another(&text[at..], set) {
                Reach::Here(at + 1)
            } else {
                Reach::Nowhere
            }
        }
        Node::Span(set) => {
            let rest = &text[at..];
            if begins_with_one_of(rest, set) {
                Reach::Here(at + run_of(rest, set))
            } else {
                Reach::Nowhere
            }
        }
        Node::Break(set) => {
            let end = at + gap_before(&text[at..], set);
            if end < text.len() {
                Reach::Here(end)
            } else {
                Reach::Nowhere
            }
        }
        Node::Fail => Reach::Nowhere,
        _ => Reach::Depends,
    }
}

/// Where a pattern ends from a cursor on. A text, and one with parts, is told apart without a call.
#[inline(always)]
pub fn reached(text: &[u8], node: &Node, at: usize) -> Reach
    requires { at ≤ length text.now }
    ensures value { result ≡ reached text.now (pattern_of node.now) at }
    ensures within { IsWithin (length text.now) result }
{
    match node {
        Node::Text(part) => text_reached(text, part, at),
        Node::Cat(_, _, _)
        | Node::Alt(_, _, _)
        | Node::Arbno(_, _)
        | Node::Conditional(_, _, _)
        | Node::Immediate(_, _, _)
        | Node::Cursor(_)
        | Node::Defer(_) => Reach::Depends,
        _ => reached_alone(text, node, at),
    }
}

/// Whether a pattern ends nowhere from a cursor on.
pub fn misses(text: &[u8], node: &Node, at: usize) -> bool
    requires { at ≤ length text.now }
    ensures { result ≡ is_nowhere (reached text.now (pattern_of node.now) at) }
{
    match reached(text, node, at) {
        Reach::Nowhere => true,
        Reach::Here(_) | Reach::Depends => false,
    }
}

/// How many parentheses are open after one more character, unless it closes one where none is open.
fn open_after(opened: usize, character: u8) -> Option<usize>
    requires { opened < 2 ^ 63 }
    ensures { result ≡ open_after opened character }
{
    match character {
        b'(' => Some(opened + 1),
        b')' => opened.checked_sub(1),
        _ => Some(opened),
    }
}

/// The first place where a part that begins here, is not null and has its parentheses in pairs ends.
pub fn next_balanced(text: &[u8], from: usize) -> Option<usize>
    requires { from ≤ length text.now }
    ensures next { balanced_ends text.now from ≡ next_and_on text.now result }
    ensures within { IfSome result (λ e. e ≤ length text.now) }
{
    let mut at = from;
    let mut opened = 0;
    while at < text.len() {
        match open_after(opened, text[at]) {
            None => return None,
            Some(now) => {
                at += 1;
                if now == 0 {
                    return Some(at);
                }
                opened = now;
            }
        }
    }
    None
}
