//! Patterns: one call for each row.
ghost use Rattle.std.specs.Prelude.{◌≡◌, ◌+◌, ◌<◌, ◌≤◌, nat_le, IfOk, IsErrOf};
ghost use Rattle.mon_text.specs.Stops.{Gives};
ghost use Rattle.sno_text.specs.Patterns.{larger, depth, most_depth, within_depth};
ghost use Rattle.sno_text.specs.Patterns as pattern;
ghost use Rattle.sno_text.specs.Nodes.{pattern_of};
ghost use Rattle.sno_text.specs.inner.Codes.{told_depth};

use crate::class::Class;
use crate::fault::Fault;
use crate::named::Named;
use crate::node::Node;
use crate::text::Text;
use mon_text::Stop;
use std::alloc::{AllocError, Global};
use std::marker::Model;
use std::rc::Rc;

/// The most nodes that may stand on the longest way down.
pub const MOST_DEPTH: u16 = 1000;

/// A pattern.
///
/// Its copies share its nodes, and so do the patterns that it becomes a part of.
#[derive(Drop)]
pub struct Pat {
    node: Rc<Node>,
}

impl Model for Pat {
    ghost use Rattle.std.specs.Prelude.{◌≡◌, ◌≤◌};
    ghost use Rattle.sno_text.specs.Patterns.{Pattern, depth, most_depth};
    ghost use Rattle.sno_text.specs.Nodes.{pattern_of};
    ghost use Rattle.sno_text.specs.inner.Codes.{told_depth, pattern_code};

    ghost Value = { Pattern };

    ghost coded = { pattern_code };

    ghost view = { λ p. pattern_of p.node.value };

    ghost invariant = { λ p. (told_depth p.node.value ≡ depth (pattern_of p.node.value)) × (depth (pattern_of p.node.value) ≤ most_depth) };
}

/// How deep a node says that it is.
fn told_depth(node: &Node) -> u16
    ensures { result ≡ told_depth node.now }
{
    match node {
        Node::Cat(depth, _, _) => *depth,
        Node::Alt(depth, _, _) => *depth,
        Node::Arbno(depth, _) => *depth,
        Node::Conditional(depth, _, _) => *depth,
        Node::Immediate(depth, _, _) => *depth,
        _ => 1,
    }
}

/// The larger of two numbers.
fn larger(one: u16, other: u16) -> u16
    ensures { result ≡ larger one other }
{
    if one <= other { other } else { one }
}

/// A node that is shared from now on.
fn share(alloc: Global, node: Node) -> Result<Pat, AllocError>
    requires told { told_depth node ≡ depth (pattern_of node) }
    requires within { depth (pattern_of node) ≤ most_depth }
    ensures { IfOk result (λ p. p ≡ pattern_of node) }
{
    let node = Rc::new(alloc, node)?;
    Ok(Pat { node })
}

impl Pat {
    /// The pattern that a text is.
    ///
    /// # Errors
    ///
    /// Where a growth was refused; so it is for each call here that makes a pattern.
    pub fn text(alloc: Global, text: Text) -> Result<Pat, AllocError>
        ensures { IfOk result (λ p. p ≡ pattern.Text text) }
    {
        share(alloc, Node::Text(text))
    }

    /// `LEN(n)`.
    pub fn len(alloc: Global, n: u64) -> Result<Pat, AllocError>
        ensures { IfOk result (λ p. p ≡ pattern.Len n) }
    {
        share(alloc, Node::Len(n))
    }

    /// `POS(n)`.
    pub fn pos(alloc: Global, n: u64) -> Result<Pat, AllocError>
        ensures { IfOk result (λ p. p ≡ pattern.Pos n) }
    {
        share(alloc, Node::Pos(n))
    }

    /// `RPOS(n)`.
    pub fn rpos(alloc: Global, n: u64) -> Result<Pat, AllocError>
        ensures { IfOk result (λ p. p ≡ pattern.RPos n) }
    {
        share(alloc, Node::RPos(n))
    }

    /// `TAB(n)`.
    pub fn tab(alloc: Global, n: u64) -> Result<Pat, AllocError>
        ensures { IfOk result (λ p. p ≡ pattern.Tab n) }
    {
        share(alloc, Node::Tab(n))
    }

    /// `RTAB(n)`.
    pub fn rtab(alloc: Global, n: u64) -> Result<Pat, AllocError>
        ensures { IfOk result (λ p. p ≡ pattern.RTab n) }
    {
        share(alloc, Node::RTab(n))
    }

    /// `REM`.
    pub fn rem(alloc: Global) -> Result<Pat, AllocError>
        ensures { IfOk result (λ p. p ≡ pattern.Rem) }
    {
        share(alloc, Node::Rem)
    }

    /// `ANY(characters)`.
    pub fn any(alloc: Global, characters: Text) -> Result<Pat, AllocError>
        ensures { IfOk result (λ p. p ≡ pattern.Any characters) }
    {
        share(alloc, Node::Any(Class::new(characters)))
    }

    /// `NOTANY(characters)`.
    pub fn not_any(alloc: Global, characters: Text) -> Result<Pat, AllocError>
        ensures { IfOk result (λ p. p ≡ pattern.NotAny characters) }
    {
        share(alloc, Node::NotAny(Class::new(characters)))
    }

    /// `SPAN(characters)`.
    pub fn span(alloc: Global, characters: Text) -> Result<Pat, AllocError>
        ensures { IfOk result (λ p. p ≡ pattern.Span characters) }
    {
        share(alloc, Node::Span(Class::new(characters)))
    }

    /// `BREAK(characters)`.
    pub fn break_at(alloc: Global, characters: Text) -> Result<Pat, AllocError>
        ensures { IfOk result (λ p. p ≡ pattern.Break characters) }
    {
        share(alloc, Node::Break(Class::new(characters)))
    }

    /// `ARB`.
    pub fn arb(alloc: Global) -> Result<Pat, AllocError>
        ensures { IfOk result (λ p. p ≡ pattern.Arb) }
    {
        share(alloc, Node::Arb)
    }

    /// `BAL`.
    pub fn bal(alloc: Global) -> Result<Pat, AllocError>
        ensures { IfOk result (λ p. p ≡ pattern.Bal) }
    {
        share(alloc, Node::Bal)
    }

    /// One pattern and then another.
    ///
    /// # Errors
    ///
    /// The fault DEPTH where it would be too deep, which takes no memory; so it is for each call here that may answer a
    /// fault.
    pub fn cat(alloc: Global, left: &Pat, right: &Pat) -> Result<Pat, Stop<Fault>>
        ensures answered { Gives (λ p. p) result (within_depth (pattern.Cat left.now right.now)) }
        ensures memory { IsErrOf result Stop.Memory → depth (pattern.Cat left.now right.now) ≤ most_depth }
    {
        let below = larger(told_depth(&left.node), told_depth(&right.node));
        if below >= MOST_DEPTH {
            return Err(Stop::Refused(Fault::Depth));
        }
        let first = left.node.clone()?;
        let second = right.node.clone()?;
        Ok(share(alloc, Node::Cat(below + 1, first, second))?)
    }

    /// One pattern, or else another.
    pub fn alt(alloc: Global, left: &Pat, right: &Pat) -> Result<Pat, Stop<Fault>>
        ensures answered { Gives (λ p. p) result (within_depth (pattern.Alt left.now right.now)) }
        ensures memory { IsErrOf result Stop.Memory → depth (pattern.Alt left.now right.now) ≤ most_depth }
    {
        let below = larger(told_depth(&left.node), told_depth(&right.node));
        if below >= MOST_DEPTH {
            return Err(Stop::Refused(Fault::Depth));
        }
        let first = left.node.clone()?;
        let second = right.node.clone()?;
        Ok(share(alloc, Node::Alt(below + 1, first, second))?)
    }

    /// `ARBNO(pattern)`.
    pub fn arbno(alloc: Global, inner: &Pat) -> Result<Pat, Stop<Fault>>
        ensures answered { Gives (λ p. p) result (within_depth (pattern.Arbno inner.now)) }
        ensures memory { IsErrOf result Stop.Memory → depth (pattern.Arbno inner.now) ≤ most_depth }
    {
        let below = told_depth(&inner.node);
        if below >= MOST_DEPTH {
            return Err(Stop::Refused(Fault::Depth));
        }
        let part = inner.node.clone()?;
        Ok(share(alloc, Node::Arbno(below + 1, part))?)
    }

    /// `pattern . variable`.
    pub fn conditional(alloc: Global, inner: &Pat, variable: Text) -> Result<Pat, Stop<Fault>>
        ensures answered { Gives (λ p. p) result (within_depth (pattern.Conditional inner.now variable)) }
        ensures memory { IsErrOf result Stop.Memory → depth (pattern.Conditional inner.now variable) ≤ most_depth }
    {
        let below = told_depth(&inner.node);
        if below >= MOST_DEPTH {
            return Err(Stop::Refused(Fault::Depth));
        }
        let part = inner.node.clone()?;
        Ok(share(alloc, Node::Conditional(below + 1, part, variable))?)
    }

    /// `pattern $ variable`.
    pub fn immediate(alloc: Global, inner: &Pat, variable: Text) -> Result<Pat, Stop<Fault>>
        ensures answered { Gives (λ p. p) result (within_depth (pattern.Immediate inner.now variable)) }
        ensures memory { IsErrOf result Stop.Memory → depth (pattern.Immediate inner.now variable) ≤ most_depth }
    {
        let below = told_depth(&inner.node);
        if below >= MOST_DEPTH {
            return Err(Stop::Refused(Fault::Depth));
        }
        let part = inner.node.clone()?;
        Ok(share(alloc, Node::Immediate(below + 1, part, variable))?)
    }

    /// `@variable`.
    pub fn cursor(alloc: Global, variable: Text) -> Result<Pat, AllocError>
        ensures { IfOk result (λ p. p ≡ pattern.Cursor variable) }
    {
        share(alloc, Node::Cursor(variable))
    }

    /// `*variable`.
    pub fn defer(alloc: Global, variable: Text) -> Result<Pat, AllocError>
        ensures { IfOk result (λ p. p ≡ pattern.Defer variable) }
    {
        share(alloc, Node::Defer(Named::new(variable, 0)))
    }

    /// `FAIL`.
    pub fn fail(alloc: Global) -> Result<Pat, AllocError>
        ensures { IfOk result (λ p. p ≡ pattern.Fail) }
    {
        share(alloc, Node::Fail)
    }

    /// `ABORT`.
    pub fn abort(alloc: Global) -> Result<Pat, AllocError>
        ensures { IfOk result (λ p. p ≡ pattern.Abort) }
    {
        share(alloc, Node::Abort)
    }

    /// `FENCE`.
    pub fn fence(alloc: Global) -> Result<Pat, AllocError>
        ensures { IfOk result (λ p. p ≡ pattern.Fence) }
    {
        share(alloc, Node::Fence)
    }

    /// `SUCCEED`.
    pub fn succeed(alloc: Global) -> Result<Pat, AllocError>
        ensures { IfOk result (λ p. p ≡ pattern.Succeed) }
    {
        share(alloc, Node::Succeed)
    }

    /// Whether it is as deep as a pattern can be, so that it can't become a part of another.
    pub fn is_full(&self) -> bool
        ensures { result ≡ nat_le most_depth (depth self.now) }
    {
        told_depth(&self.node) >= MOST_DEPTH
    }

    /// The same pattern once more. It takes no memory.
    ///
    /// # Errors
    ///
    /// Where no more sharers can be counted.
    pub fn copy(&self) -> Result<Pat, AllocError>
        ensures { IfOk result (λ p. p ≡ self.now) }
    {
        let node = self.node.clone()?;
        Ok(Pat { node })
    }

    /// The node at the top, of which this is no sharer any more.
    pub fn into_node(self) -> Rc<Node>
        ensures { pattern_of result.value ≡ self }
    {
        self.node
    }

    /// The node at the top.
    pub fn node(&self) -> &Rc<Node>
        ensures { pattern_of result.now.value ≡ self.now }
    {
        &self.node
    }
}
