//! A service that gives the answers of a list and keeps what it was asked, to try programs with.
ghost use Rattle.std.specs.Prelude.{◌≡◌, [], IfOk, OnErr, IsTrue};
ghost use Rattle.interaction.specs.Fitting.{Fits, IsShort, fits};
ghost use Rattle.interaction.specs.Scripts.{next_answer, scripted};

use crate::answer::Answer;
use crate::request::{Act, Request};
use crate::service::Service;
use mon_text::Line;
use std::alloc::{AllocError, Global};
use std::marker::Model;

/// The answers that are to be given, in order, and what was asked.
///
/// An answer that does not fit what is asked is kept for a later request. Where there is none that fits, a read meets the
/// end of file, and any other act is done.
#[derive(Drop)]
pub struct Script {
    // The next one stands last.
    left: Vec<Answer>,
    asked: Vec<Request>,
    alloc: Global,
}

impl Model for Script {
    ghost use Rattle.std.specs.Prelude.{reverse};
    ghost use Rattle.interaction.specs.Scripts.{Scripted};

    ghost Value = { Scripted };

    ghost view = { λ s. record { left = reverse s.left.items; asked = s.asked.items } };
}

impl Script {
    /// A script of these answers.
    pub fn new(alloc: Global, answers: Vec<Answer>) -> Script
        ensures left { result.left ≡ answers.items }
        ensures asked { result.asked ≡ [] }
    {
        let mut left = answers;
        left.reverse();
        Script {
            left,
            asked: Vec::new(alloc),
            alloc,
        }
    }

    /// What was asked so far, in order.
    pub fn asked(&self) -> &[Request]
        ensures { result.now ≡ self.now.asked }
    {
        self.asked.as_slice()
    }

    // Takes the next answer, if it fits.
    fn next(&mut self, act: &Act) -> Answer
        ensures answer { result ≡ (next_answer act.now self.old.left).0 }
        ensures left { self.new.left ≡ (next_answer act.now self.old.left).1 }
        ensures asked { self.new.asked ≡ self.old.asked }
        ensures fits { IsTrue (fits act.now result) }
    {
        match self.left.pop() {
            None => act.unscripted(),
            Some(answer) => {
                if act.takes(&answer) {
                    answer
                } else {
                    self.left.push(answer).unwrap();
                    act.unscripted()
                }
            }
        }
    }
}

impl Service for Script {
    ghost use Rattle.std.specs.Prelude.{◌≡◌};
    ghost use Rattle.interaction.specs.Scripts.{scripted};

    ghost ready = { λ s. Unit {0} };

    ghost answers = { λ s q r t. scripted s q ≡ (r, t) };

    fn ask(&mut self, request: &Request) -> Result<Answer, AllocError> {
        let kept = request.copy(self.alloc)?;
        self.asked.push(kept)?;
        Ok(self.next(&request.act))
    }

    fn write(&mut self, statement: u64, unit: u64, line: &[u8]) -> Result<Answer, AllocError> {
        let room = Vec::with_capacity(self.alloc, line.len())?;
        let act = Act::Write(unit, Line::in_room(room, line));
        let request = Request { statement, act };
        self.ask(&request)
    }
}
