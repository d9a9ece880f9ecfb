//! What is printed and not yet written: a text, and pieces behind it that print what stands in memory already.
ghost use Rattle.std.specs.Prelude.{◌≡◌, ◌≤◌, ◌++◌, [], true, false, length, IfOk, OnOk, OnErr};
ghost use Rattle.std.specs.List.{flat_map};
ghost use Rattle.mon_device.specs.Putting.{Puts};
ghost use Rattle.job_end.specs.Printouts.{printout};
ghost use Rattle.mon_monitor.specs.Printed.{given_back, piece_text, pieces_text};

use crate::listing::print_listing;
use mon_catalogue::Catalogue;
use mon_device::{Sink, TextSink};
use mon_text::Name;
use scheduler::{JobEnd, print_end};
use std::alloc::{AllocError, Global};
use std::marker::Model;
use std::rc::Rc;

/// How many pieces there is room for from the beginning: no event has more.
const USUAL_PIECES: usize = 4;

// A part of what is printed. What a job or the data sets print is no copy of them.
#[derive(Drop)]
pub(crate) enum Piece {
    // Bytes.
    Text(Vec<u8>),
    // The printout of a job that has ended.
    End(JobEnd),
    // The printouts of jobs that have ended, in order.
    Ends(Vec<JobEnd>),
    // The printout of a command that lists the records of a data set for an account.
    Listed(Rc<Catalogue>, Name, Name),
    // The data sets, given back.
    Sets(Rc<Catalogue>),
}

/// What is printed and not yet written, in its order.
///
/// A contract sees it as its bytes.
#[derive(Drop)]
pub struct Printed {
    pub(crate) text: Vec<u8>,
    // Behind the text.
    pub(crate) rest: Vec<Piece>,
}

impl Model for Printed {
    ghost use Rattle.std.specs.Prelude.{ℕ, List, ◌++◌};
    ghost use Rattle.mon_monitor.specs.Printed.{pieces_text};

    ghost Value = { List ℕ };

    ghost view = { λ p. p.text.items ++ pieces_text p.rest.items };
}

impl Printed {
    /// Nothing, with room for the pieces of an event.
    ///
    /// # Errors
    ///
    /// Where a growth was refused.
    pub fn new(alloc: Global) -> Result<Printed, AllocError>
        ensures { IfOk result (λ printed. printed ≡ []) }
    {
        let rest = Vec::with_capacity(alloc, USUAL_PIECES)?;
        Ok(Printed {
            text: Vec::new(alloc),
            rest,
        })
    }

    /// Whether nothing is printed.
    pub fn is_empty(&self) -> bool
        ensures { result ≡ true → self.now ≡ [] }
    {
        self.text.is_empty() && self.rest.is_empty()
    }

    /// Whether it is more than a text of so many bytes: then it is to be written before more is printed.
    pub fn is_more_than(&self, bytes: usize) -> bool
        ensures at_most { result ≡ false → length self.now ≤ bytes }
    {
        self.text.len() > bytes || !self.rest.is_empty()
    }

    /// Nothing is left. The room stays.
    pub fn clear(&mut self)
        ensures { self.new ≡ [] }
    {
        self.text.clear();
        self.rest.clear();
    }

    /// Appends bytes.
    ///
    /// # Errors
    ///
    /// Where a growth was refused; nothing was appended then.
    pub fn put(&mut self, bytes: &[u8]) -> Result<(), AllocError>
        ensures appended { OnOk result (self.new ≡ self.old ++ bytes.now) }
        ensures unchanged { OnErr result (self.new ≡ self.old) }
    {
        if self.rest.is_empty() {
            return self.text.extend_from_slice(bytes);
        }
        let text = Vec::from_slice(*self.text.allocator(), bytes)?;
        self.put_piece(Piece::Text(text))
    }

    // Appends what a piece prints, or nothing.
    pub(crate) fn put_piece(&mut self, piece: Piece) -> Result<(), AllocError>
        ensures printed { OnOk result (self.new ≡ self.old ++ piece_text piece) }
        ensures nothing { OnErr result (self.new ≡ self.old) }
    {
        self.rest.reserve(1)?;
        self.rest.push_reserved(piece);
        Ok(())
    }

    // Appends what two pieces print, or nothing.
    fn put_both(&mut self, piece: Piece, other: Piece) -> Result<(), AllocError>
        ensures printed { OnOk result (self.new ≡ self.old ++ (piece_text piece ++ piece_text other)) }
        ensures nothing { OnErr result (self.new ≡ self.old) }
    {
        self.rest.reserve(2)?;
        self.rest.push_reserved(piece);
        self.rest.push_reserved(other);
        Ok(())
    }

    // Appends the printouts of jobs that have ended, in order, or nothing.
    pub(crate) fn put_ends(&mut self, ends: Vec<JobEnd>) -> Result<(), AllocError>
        ensures printed { OnOk result (self.new ≡ self.old ++ flat_map printout ends.items) }
        ensures nothing { OnErr result (self.new ≡ self.old) }
    {
        if ends.is_empty() {
            return Ok(());
        }
        self.put_piece(Piece::Ends(ends))
    }

    // Appends the printouts of jobs that have ended, in order, and a text, or nothing.
    pub(crate) fn put_ends_and_text(
        &mut self,
        ends: Vec<JobEnd>,
        text: Vec<u8>,
    ) -> Result<(), AllocError>
        ensures printed { OnOk result (self.new ≡ self.old ++ (flat_map printout ends.items ++ text.items)) }
        ensures nothing { OnErr result (self.new ≡ self.old) }
    {
        if ends.is_empty() {
            return self.put(&text);
        }
        self.put_both(Piece::Ends(ends), Piece::Text(text))
    }

    // Appends the printouts of jobs that have ended, in order, and the data sets, or nothing.
    pub(crate) fn put_ends_and_sets(
        &mut self,
        ends: Vec<JobEnd>,
        sets: Rc<Catalogue>,
    ) -> Result<(), AllocError>
        ensures printed { OnOk result (self.new ≡ self.old ++ (flat_map printout ends.items ++ given_back sets.value)) }
        ensures nothing { OnErr result (self.new ≡ self.old) }
    {
        self.put_both(Piece::Ends(ends), Piece::Sets(sets))
    }
}

impl Printed {
    /// Makes a text of it where a listing shows data sets, and there is memory for that: so they need not be copied before they change.
    /// Where what is printed is written before more is, there is no need for it.
    pub fn let_go(&mut self)
        ensures { self.new ≡ self.old }
    {
        if self.shows_sets() {
            let mut text = Vec::new(*self.text.allocator());
            if self.put_text(&mut text).is_ok() {
                self.text = text;
                self.rest.clear();
            }
        }
    }

    fn shows_sets(&self) -> bool {
        for piece in &self.rest {
            if let Piece::Listed(..) = piece {
                return true;
            }
        }
        false
    }

    // Appends it to a text.
    fn put_text(&self, out: &mut Vec<u8>) -> Result<(), AllocError>
        ensures { OnOk result (out.new.items ≡ out.old.items ++ self.now) }
    {
        let mut sink = TextSink::new(out);
        self.print(&mut sink);
        sink.settle()
    }

    /// Puts it to a sink. It takes no memory.
    pub fn print<S: Sink>(&self, sink: &mut S)
        ensures { Puts (S.standing sink.old) (S.standing sink.new) self.now }
    {
        sink.put(&self.text);
        print_pieces(&self.rest, sink);
    }
}

// Puts what pieces print, in order.
fn print_pieces<S: Sink>(pieces: &[Piece], sink: &mut S)
    ensures { Puts (S.standing sink.old) (S.standing sink.new) (pieces_text pieces.now) }
{
    for piece in pieces {
        print_piece(piece, sink);
    }
}

// Puts what a piece prints.
fn print_piece<S: Sink>(piece: &Piece, sink: &mut S)
    ensures { Puts (S.standing sink.old) (S.standing sink.new) (piece_text piece.now) }
{
    match piece {
        Piece::Text(text) => sink.put(text),
        Piece::End(end) => print_end(end, sink),
        Piece::Ends(ends) => print_ends(ends, sink),
        Piece::Listed(sets, account, name) => print_listing(sets, account, name, sink),
        Piece::Sets(sets) => print_sets(sets, sink),
    }
}

// Puts the printouts of jobs that have ended, in order.
fn print_ends<S: Sink>(ends: &[JobEnd], sink: &mut S)
    ensures { Puts (S.standing sink.old) (S.standing sink.new) (flat_map printout ends.now) }
{
    for end in ends {
        print_end(end, sink);
    }
}

// Gives the data sets back.
fn print_sets<S: Sink>(sets: &Catalogue, sink: &mut S)
    ensures { Puts (S.standing sink.old) (S.standing sink.new) (given_back sets.now) }
{
    sink.put(b"$CATALOGUE 2\n");
    sets.print(sink);
}
