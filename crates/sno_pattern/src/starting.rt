//! Where a match starts: the starts that are missed at once.
ghost use Rattle.std.specs.Prelude.{◌≡◌, ◌≤◌, ◌+◌, ◌-◌, ◌∷◌, List, Some, length, IfSome};
ghost use Rattle.sno_text.specs.Nodes.{pattern_of};
ghost use Rattle.sno_pattern.specs.declared.ending.Pending.{Pending as Waits};
ghost use Rattle.sno_pattern.specs.Steps.{Goal as Aim, Meet, Failure, ends, outcome, from_starts};
ghost use Rattle.sno_pattern.specs.inner.Meeting.{first_part};

use sno_text::Node;
use sno_text::reach::misses;

/// The part of a pattern that is met right after it, where there is one such part.
fn first_part(node: &Node) -> Option<&Node>
    ensures { IfSome result (λ part. first_part (pattern_of node.now) ≡ Some (pattern_of part.now)) }
{
    match node {
        Node::Cat(_, first, _) => Some(first),
        Node::Conditional(_, inner, _) => Some(inner),
        Node::Immediate(_, inner, _) => Some(inner),
        _ => None,
    }
}

/// The steps that a pattern leaves that fails at its first part without parts.
fn left_where_missed(text: &[u8], node: &Node, at: usize, limit: u64) -> Option<u64>
    requires { at ≤ length text.now }
    ensures { IfSome result (λ left. (r : List Aim) (p : List Waits) → outcome text.now (Meet (pattern_of node.now) ∷ r) at p limit ≡ ends Failure left) }
{
    let mut part = node;
    let mut left = limit;
    while left > 0 {
        left -= 1;
        match first_part(part) {
            Some(first) => part = first,
            None => return if misses(text, part, at) {
                Some(left)
            } else {
                None
            },
        }
    }
    None
}

/// The first start from here on that is not missed at once, or where the starts end.
pub(crate) fn skip_starts(
    text: &[u8],
    node: &Node,
    from: usize,
    starts: usize,
    left: &mut u64,
) -> usize
    requires fits { starts ≤ length text.now + 1 }
    requires begins { from ≤ starts }
    ensures within { result ≤ starts }
    ensures onward { from ≤ result }
    ensures same { from_starts text.now (pattern_of node.now) (starts - from) from left.old ≡ from_starts text.now (pattern_of node.now) (starts - result) result left.new }
{
    let mut at = from;
    while at < starts {
        match left_where_missed(text, node, at, *left) {
            Some(after) => {
                *left = after;
                at += 1;
            }
            None => return at,
        }
    }
    at
}
