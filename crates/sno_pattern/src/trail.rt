//! What is still ahead of a match: the goals that are met next, the assignments that wait, and the choices that are open.
//!
//! The goals stand in one vector, each with the place of those behind it. So choices share them, a goal takes no memory of its
//! own, and where a choice is taken all that came after it is cut off. Places and cursors take four bytes each.
ghost use Rattle.std.specs.Prelude.{◌≡◌, ◌<◌, ◌≤◌, [], ◌∷◌, ◌++◌, drop, length, vec_len, vec_capacity, IfOk, OnOk, OnErr, IfSome};
ghost use Rattle.std.specs.Option.{MatchOption};
ghost use Rattle.sno_pattern.specs.inner.Stack.{goal_of, trial_of, nothing_ahead};

use sno_text::{Node, Text};
use std::alloc::{AllocError, Global};
use std::marker::Model;
use std::rc::Rc;

/// What is to be done about a pattern.
#[derive(Clone, Copy)]
pub(crate) enum Role {
    /// It is met.
    Meet,
    /// Another turn of it in ARBNO, if the last one, from this cursor on, moved on.
    More(u32),
    /// What its part matched from this cursor on waits to be assigned to its variable.
    EndConditional(u32),
    /// What its part matched from this cursor on is assigned to its variable now.
    EndImmediate(u32),
}

/// What is still to be met: a pattern, and what is to be done about it.
#[derive(Drop)]
pub(crate) struct Goal {
    pub(crate) role: Role,
    pub(crate) node: Rc<Node>,
}

/// An assignment that waits: a variable, and the two cursors between which its text stands.
#[derive(Drop)]
pub(crate) struct Waiting {
    pub(crate) variable: Text,
    pub(crate) from: usize,
    pub(crate) to: usize,
}

/// How goals are tried where all that comes before them fails.
#[derive(Drop)]
pub(crate) enum Kind {
    /// From a cursor, with a pattern before them.
    Second(Rc<Node>),
    /// From a cursor, and then from each later one.
    Each,
    /// From a cursor, and then from each later one before which parentheses are in pairs.
    Balanced,
    /// Not at all: the whole match fails.
    Whole,
}

/// A goal, and the place of those behind it.
#[derive(Drop)]
pub(crate) struct Cell {
    goal: Goal,
    rest: u32,
}

/// An open choice: how its goals are tried and from which cursor, their place, and how much was kept and waited before it.
#[derive(Drop)]
pub(crate) struct Open {
    kind: Kind,
    at: u32,
    top: u32,
    kept: u32,
    waits: u32,
}

// The last place that four bytes say.
pub(crate) const LAST: usize = u32::MAX as usize;

/// Tests that four bytes can say each cursor of a text.
///
/// # Errors
///
/// Where the text has more than 4,294,967,295 characters.
pub(crate) fn fits(text: &[u8]) -> Result<(), AllocError>
    ensures { OnOk result (length text.now ≤ LAST) }
{
    if text.len() > LAST {
        return Err(AllocError);
    }
    Ok(())
}

/// What is still ahead. The place of a goal is how many stand up to it, so that 0 is no goal's.
#[derive(Drop)]
pub(crate) struct Trail {
    cells: Vec<Cell>,
    top: u32,
    /// Up to here choices need the goals.
    kept: u32,
    waits: Vec<Waiting>,
    opens: Vec<Open>,
}

impl Model for Trail {
    ghost use Rattle.std.specs.Prelude.{reverse, vec_capacity};
    ghost use Rattle.std.specs.Coded.{codes};
    ghost use Rattle.sno_text.specs.inner.Codes.{pattern_code};
    ghost use Rattle.sno_pattern.specs.inner.Stack.{Ahead};

    ghost Value = { Ahead };

    ghost coded = { Prim.hlevel (codes, pattern_code) };

    ghost use Rattle.sno_pattern.specs.inner.Cells.{ahead_of, IsTrail, HavePlaces};

    ghost view = { λ t. ahead_of (reverse t.cells.items) t.top t.waits.items (reverse t.opens.items) };

    ghost invariant = { λ t. IsTrail (reverse t.cells.items) t.top t.kept t.waits.items (reverse t.opens.items) × HavePlaces (vec_capacity t.cells) (vec_capacity t.waits) };
}

impl Goal {
    // The same goal once more.
    fn copy(&self) -> Result<Goal, AllocError>
        ensures { IfOk result (λ g. goal_of g ≡ goal_of self.now) }
    {
        let node = self.node.clone()?;
        let role = self.role;
        Ok(Goal { role, node })
    }
}

// How many have room at first.
const FIRST_ROOM: usize = 8;

// Room for as many again, but for no more than have places. It stays a call, since there mostly is some.
#[cold]
#[inline(never)]
fn make_room<T: Drop>(items: &mut Vec<T>) -> Result<(), AllocError>
    requires { vec_capacity items.old ≤ LAST }
    ensures same { items.new.items ≡ items.old.items }
    ensures room { OnOk result (vec_len items.new < vec_capacity items.new) }
    ensures places { vec_capacity items.new ≤ LAST }
{
    let more = items.len().max(FIRST_ROOM).min(LAST - items.len());
    if more == 0 {
        return Err(AllocError);
    }
    items.reserve_exact(more)
}

// Puts an item behind the others, where it has a place.
#[inline(always)]
fn place<T: Drop>(items: &mut Vec<T>, item: T) -> Result<(), AllocError>
    requires { vec_capacity items.old ≤ LAST }
    ensures placed { OnOk result (items.new.items ≡ items.old.items ++ item ∷ []) }
    ensures same { OnErr result (items.new.items ≡ items.old.items) }
    ensures places { vec_capacity items.new ≤ LAST }
{
    if items.len() == items.capacity() {
        make_room(items)?;
    }
    items.push_reserved(item);
    Ok(())
}

impl Trail {
    /// A trail with nothing ahead.
    pub(crate) fn new(alloc: Global) -> Trail
        ensures { result ≡ nothing_ahead }
    {
        Trail {
            cells: Vec::new(alloc),
            top: 0,
            kept: 0,
            waits: Vec::new(alloc),
            opens: Vec::new(alloc),
        }
    }

    /// Takes off all there is, and keeps the room.
    pub(crate) fn clear(&mut self)
        ensures { self.new ≡ nothing_ahead }
    {
        self.cells.clear();
        self.top = 0;
        self.kept = 0;
        self.waits.clear();
        self.opens.clear();
    }

    /// A goal in front of the others.
    ///
    /// # Errors
    ///
    /// Where a growth was refused, or a place did not fit in four bytes; so it is for each call here.
    #[inline(always)]
    pub(crate) fn push(&mut self, goal: Goal) -> Result<(), AllocError>
        ensures { IfOk result (λ u. self.new ≡ record { goals = goal_of goal ∷ self.old.goals; waits = self.old.waits; opens = self.old.opens }) }
    {
        let rest = self.top;
        place(&mut self.cells, Cell { goal, rest })?;
        self.top = self.cells.len() as u32;
        Ok(())
    }

    /// The goal in front, if there is one.
    pub(crate) fn first(&self) -> Option<&Goal>
        ensures { IfSome result (λ goal. self.now.goals ≡ goal_of goal.now ∷ drop 1 self.now.goals) }
    {
        if self.top == 0 {
            return None;
        }
        Some(&self.cells[self.top as usize - 1].goal)
    }

    /// Goes past the goal in front.
    pub(crate) fn pass(&mut self)
        ensures { self.new ≡ record { goals = drop 1 self.old.goals; waits = self.old.waits; opens = self.old.opens } }
    {
        if self.top > 0 {
            self.top = self.cells[self.top as usize - 1].rest;
        }
    }

    /// Takes the goal in front off, if there is one. One that a choice needs is copied, and any other is moved out, so that a
    /// pattern which leaves no choice takes no further memory.
    pub(crate) fn next(&mut self) -> Result<Option<Goal>, AllocError>
        ensures { IfOk result (λ found. MatchOption found ((self.old.goals ≡ []) × (self.new ≡ self.old)) (λ goal. self.old ≡ record { goals = goal_of goal ∷ self.new.goals; waits = self.new.waits; opens = self.new.opens })) }
    {
        if self.top == 0 {
            return Ok(None);
        }
        let top = self.top as usize;
        if self.top <= self.kept || top < self.cells.len() {
            let cell = &self.cells[top - 1];
            let goal = cell.goal.copy()?;
            self.top = cell.rest;
            return Ok(Some(goal));
        }
        match self.cells.pop() {
            Some(cell) => {
                self.top = cell.rest;
                Ok(Some(cell.goal))
            }
            None => Ok(None),
        }
    }

    /// An assignment that waits from now on.
    pub(crate) fn wait(&mut self, waiting: Waiting) -> Result<(), AllocError>
        ensures { IfOk result (λ u. self.new ≡ record { goals = self.old.goals; waits = self.old.waits ++ waiting ∷ []; opens = self.old.opens }) }
    {
        Ok(place(&mut self.waits, waiting)?)
    }

    /// The assignments that wait, the oldest first.
    pub(crate) fn waits(&self) -> &[Waiting]
        ensures { result.now ≡ self.now.waits }
    {
        &self.waits
    }

    /// Leaves the goals ahead to be tried so, from a cursor, where all that comes before fails.
    #[inline(always)]
    pub(crate) fn leave(&mut self, kind: Kind, at: usize) -> Result<(), AllocError>
        requires { at ≤ LAST }
        ensures { IfOk result (λ u. self.new ≡ record { goals = self.old.goals; waits = self.old.waits; opens = record { trial = trial_of kind; goals = self.old.goals; at = at; waits = self.old.waits } ∷ self.old.opens }) }
    {
        let open = Open {
            kind,
            at: at as u32,
            top: self.top,
            kept: self.kept,
            waits: self.waits.len() as u32,
        };
        self.opens.push(open)?;
        self.kept = self.cells.len() as u32;
        Ok(())
    }

    /// Goes back to the last choice, if one is open, and takes it off. It tells how its goals are tried, and from which cursor.
    #[inline(always)]
    pub(crate) fn back(&mut self) -> Option<(Kind, usize)>
        ensures { MatchOption result ((self.old.opens ≡ []) × (self.new.opens ≡ [])) (λ left. self.old.opens ≡ record { trial = trial_of left.0; goals = self.new.goals; at = left.1; waits = self.new.waits } ∷ self.new.opens) }
    {
        match self.opens.pop() {
            None => None,
            Some(open) => {
                self.cells.truncate(self.kept as usize);
                self.waits.truncate(open.waits as usize);
                self.top = open.top;
                self.kept = open.kept;
                Some((open.kind, open.at as usize))
            }
        }
    }
}
