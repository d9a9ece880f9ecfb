//! The nodes of patterns.

use crate::class::Class;
use crate::named::Named;
use crate::text::Text;
use std::rc::Rc;

/// A node of a pattern, with the parts below it. One that has parts knows how many nodes stand on the longest way down.
#[derive(Drop)]
pub enum Node {
    Text(Text),
    Len(u64),
    Pos(u64),
    RPos(u64),
    Tab(u64),
    RTab(u64),
    Rem,
    Any(Class),
    NotAny(Class),
    Span(Class),
    Break(Class),
    Arb,
    Bal,
    Cat(u16, Rc<Node>, Rc<Node>),
    Alt(u16, Rc<Node>, Rc<Node>),
    Arbno(u16, Rc<Node>),
    /// `.` and the name of its variable.
    Conditional(u16, Rc<Node>, Text),
    /// `$` and the name of its variable.
    Immediate(u16, Rc<Node>, Text),
    /// `@` and the name of its variable.
    Cursor(Text),
    /// `*` and the name of its variable.
    Defer(Named),
    Fail,
    Abort,
    Fence,
    Succeed,
}
