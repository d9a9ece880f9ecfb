//! What is told of a job: its source listing, and then what is wrong with it.

use crate::column::word_column;
use crate::refusals::all_refusals;
use crate::reporter::{Detail, NO_COLUMN, NO_STATEMENT, Reporter, SourceSpan};
use deck_lines::UnitError;
use deck_syntax::{JobDeck, UnitCard};
use load_refusal::LoadError;
use mon_device::{Sink, TextSink, print_number, print_word};
use program_advice::{
    Around, cause_of, instead_of_function, instead_of_keyword, instead_of_label,
    instead_of_variable,
};
use program_listing::{LooseKind, LooseName, Source, loose_names, put_rows, read_source};
use sno_syntax::{Place, SyntaxCode, SyntaxError};
use std::alloc::{AllocError, Global};

/// Where the cards of a job stand.
#[derive(Drop)]
pub struct JobCards {
    /// The line of its card, and the card.
    pub line: u64,
    pub card: Vec<u8>,
    /// Whether the card was good.
    pub is_good: bool,
    /// The lines of its unit cards.
    pub tie_lines: Vec<u64>,
    /// The line of the first card of its program, where there is one.
    pub first_line: Option<u64>,
}

impl JobCards {
    /// Of a job whose card alone was read.
    pub fn new(line: u64, card: Vec<u8>, is_good: bool) -> JobCards {
        JobCards {
            line,
            tie_lines: Vec::new(*card.allocator()),
            card,
            is_good,
            first_line: None,
        }
    }
}

/// A job whose lines are all there, and where its cards stand.
#[derive(Drop)]
pub struct JobCase {
    pub deck: JobDeck,
    pub cards: JobCards,
}

impl Reporter {
    /// Tells of a job what it is, as far as that is told, and what is wrong with it.
    pub fn tell_job(&mut self, case: &JobCase) -> Result<(), AllocError> {
        let source = read_source(self.alloc, case.deck.lines.as_slice())?;
        let refusals = all_refusals(self.alloc, &self.accounts, &case.deck)?;
        match self.detail {
            Detail::Mistakes => {}
            Detail::Jobs => case.put_outcome(refusals.is_empty(), &mut self.out)?,
            Detail::Listing => case.put_listing(&source, &mut self.out)?,
        }
        self.tell_refusals(case, &source, refusals.as_slice())?;
        self.tell_refusals(case, &source, &source.further)?;
        if !self.is_submission {
            self.tell_missing_sets(case)?;
        }
        self.tell_loose(case, &source)
    }

    // Tells why the job is not loaded.
    fn tell_refusals(
        &mut self,
        case: &JobCase,
        source: &Source,
        refusals: &[LoadError],
    ) -> Result<(), AllocError> {
        let mut from = 0;
        for refusal in refusals {
            from = self.tell_refusal(case, source, *refusal, from)?;
        }
        Ok(())
    }

    // Tells why a job is not loaded. Unit cards before an index were told of; it answers the index before which they now are.
    fn tell_refusal(
        &mut self,
        case: &JobCase,
        source: &Source,
        refusal: LoadError,
        from: usize,
    ) -> Result<usize, AllocError> {
        match refusal {
            LoadError::NoAccount if case.cards.is_good => {
                self.no_account(case.cards.line, &case.cards.card)?;
            }
            LoadError::NoSlot | LoadError::NoAccount => {}
            LoadError::Cards(error) => {
                let index = refused_tie(case.deck.ties.as_slice(), error, from);
                self.tell_tie(case, error, index)?;
                return Ok(index.saturating_add(1));
            }
            LoadError::Syntax(error) => self.tell_syntax(case, source, error)?,
        }
        Ok(from)
    }

    fn tell_tie(
        &mut self,
        case: &JobCase,
        error: UnitError,
        index: usize,
    ) -> Result<(), AllocError> {
        let mut what = Vec::new(self.alloc);
        let mut sink = TextSink::new(&mut what);
        match error {
            UnitError::UnitRange(unit) => {
                sink.put(b"U2 UNIT");
                print_number(unit, &mut sink);
                sink.put(b": units are 1 to 99");
            }
            UnitError::UnitTwice(unit) => {
                sink.put(b"U1 UNIT");
                print_number(unit, &mut sink);
                sink.put(b": a card before it ties the unit");
            }
        }
        sink.settle()?;
        let text = case.tie_text(self.alloc, index)?;
        self.mistake(case.tie_spot(index, &text, 1), &[what.as_slice()])
    }

    fn tell_syntax(
        &mut self,
        case: &JobCase,
        source: &Source,
        error: SyntaxError,
    ) -> Result<(), AllocError> {
        // A card that is refused is a part of no statement.
        let statement = match error.code {
            SyntaxCode::NoEndLine
            | SyntaxCode::NothingToContinue
            | SyntaxCode::UnknownControlCard => NO_STATEMENT,
            _ => source.statement_at(error.place),
        };
        let spot = case.program_spot(error.place, statement);
        let index = spot.column.saturating_sub(1) as usize;
        let around = match (spot.text.get(..index), spot.text.get(index..)) {
            (Some(before), Some(from_here)) => Around::of(before, from_here),
            _ => Around::of(spot.text, b""),
        };
        let cause = cause_of(error.code, around).text();
        let code = error.code.text();
        self.mistake(spot, &[code.as_bytes(), b": ".as_slice(), cause.as_bytes()])
    }

    // Tells which data sets the unit cards name that the catalogue doesn't have.
    fn tell_missing_sets(&mut self, case: &JobCase) -> Result<(), AllocError> {
        let what = b"NO DATA SET: the catalogue has none of that name, but a command may make it";
        for (index, tie) in case.deck.ties.as_slice().iter().enumerate() {
            if !self.sets.contains(&tie.set) {
                let text = case.tie_text(self.alloc, index)?;
                self.warning(case.tie_spot(index, &text, 2), &[what.as_slice()])?;
            }
        }
        Ok(())
    }

    // Tells which names in the program lead nowhere.
    fn tell_loose(&mut self, case: &JobCase, source: &Source) -> Result<(), AllocError> {
        let Some(cards) = &source.cards else {
            return Ok(());
        };
        let names = loose_names(self.alloc, cards)?;
        for name in &names {
            let statement = source.statement_at(name.place);
            self.tell_name(case.program_spot(name.place, statement), name)?;
        }
        Ok(())
    }

    // Tells of a name that leads nowhere what to write instead, where other systems have it.
    fn tell_name(&mut self, spot: SourceSpan<'_>, name: &LooseName) -> Result<(), AllocError> {
        let capitals = name.name.as_bytes().to_ascii_uppercase(self.alloc)?;
        let (before, otherwise) = said_of(name.kind);
        let instead = match name.kind {
            LooseKind::Label => instead_of_label(&capitals),
            LooseKind::Function => instead_of_function(&capitals),
            LooseKind::Keyword => instead_of_keyword(&capitals),
            LooseKind::Variable => instead_of_variable(&capitals),
            _ => None,
        };
        let cause = match instead {
            Some(instead) => instead.text(),
            None => otherwise,
        };
        let mut what = Vec::new(self.alloc);
        let mut sink = TextSink::new(&mut what);
        sink.put(before.as_bytes());
        sink.put(name.name.as_bytes());
        sink.put(b": ");
        sink.put(cause.as_bytes());
        sink.settle()?;
        match name.kind {
            LooseKind::Label => self.mistake(spot, &[what.as_slice()]),
            _ => self.warning(spot, &[what.as_slice()]),
        }
    }
}

impl JobCase {
    // Appends the listing.
    fn put_listing(&self, source: &Source, out: &mut Vec<u8>) -> Result<(), AllocError> {
        let limits = self.deck.limits.get();
        let mut sink = TextSink::new(out);
        self.print_name(&mut sink);
        sink.put(b" STATEMENTS");
        print_number(limits.statements, &mut sink);
        sink.put(b" STEPS");
        print_number(limits.steps, &mut sink);
        sink.put(b"\n");
        for tie in self.deck.ties.as_slice() {
            print_tie(tie, &mut sink);
            sink.put(b"\n");
        }
        sink.settle()?;
        let lines = self.deck.lines.as_slice();
        put_rows(self.first_line(), lines, source, out)
    }

    // Appends whether the job is loaded, where a slot is free.
    fn put_outcome(&self, loads: bool, out: &mut Vec<u8>) -> Result<(), AllocError> {
        let mut sink = TextSink::new(out);
        self.print_name(&mut sink);
        sink.put(if loads {
            b" LOADS\n"
        } else {
            b" DOES NOT LOAD\n"
        });
        sink.settle()
    }

    // Puts which job it is.
    fn print_name<S: Sink>(&self, sink: &mut S) {
        sink.put(b"JOB");
        print_number(self.deck.number, sink);
        print_word(self.deck.account.as_bytes(), sink);
        sink.put(b" LINE");
        print_number(self.cards.line, sink);
    }

    // The line of the first card of its program; of the job's card, where there is none.
    fn first_line(&self) -> u64 {
        self.cards.first_line.unwrap_or(self.cards.line)
    }

    // A unit card with one blank between its words.
    fn tie_text(&self, alloc: Global, index: usize) -> Result<Vec<u8>, AllocError> {
        let mut text = Vec::new(alloc);
        let mut sink = TextSink::new(&mut text);
        if let Some(tie) = self.deck.ties.as_slice().get(index) {
            print_tie(tie, &mut sink);
        }
        sink.settle()?;
        Ok(text)
    }

    // Where a word of a unit card stands, whose text this is.
    fn tie_spot<'a>(&self, index: usize, text: &'a [u8], word: usize) -> SourceSpan<'a> {
        let known = self.cards.tie_lines.get(index).copied();
        let line = known.unwrap_or(self.cards.line);
        SourceSpan::on_line(line, text, word_column(text, word))
    }

    // A place in the program, whose cards are counted from 1, and in a statement. Behind the last card there is no text.
    fn program_spot(&self, place: Place, statement: u64) -> SourceSpan<'_> {
        let index = place.card.saturating_sub(1);
        let (text, column) = match self.deck.lines.as_slice().get(index as usize) {
            Some(text) => (text.as_bytes(), place.column),
            None => (b"".as_slice(), NO_COLUMN),
        };
        SourceSpan {
            line: self.first_line().saturating_add(index),
            statement,
            text,
            column,
        }
    }
}

fn print_tie<S: Sink>(tie: &UnitCard, sink: &mut S) {
    sink.put(b"$UNIT");
    print_number(tie.unit, sink);
    print_word(tie.set.as_bytes(), sink);
}

// The index of the next unit card that is refused for this: one that ties a unit twice has another before it.
fn refused_tie(ties: &[UnitCard], error: UnitError, from: usize) -> usize {
    let (refused, mut is_due) = match error {
        UnitError::UnitRange(unit) => (unit, true),
        UnitError::UnitTwice(unit) => (unit, false),
    };
    for (index, tie) in ties.iter().enumerate() {
        if tie.unit == refused {
            if is_due && index >= from {
                return index;
            }
            is_due = true;
        }
    }
    ties.len()
}

// What is said before a name that leads nowhere, and behind it where no other system has the name.
fn said_of(kind: LooseKind) -> (&'static str, &'static str) {
    match kind {
        LooseKind::Label => ("NO LABEL ", "no statement has it"),
        LooseKind::Function => ("NO FUNCTION ", "no literal of DEFINE has it"),
        LooseKind::SmallLetters => ("SMALL LETTERS ", "the language's name is in capitals"),
        LooseKind::NoTable => ("NO TABLE ", "no statement calls TABLE"),
        LooseKind::Keyword => ("NO KEYWORD &", "there is none of that name"),
        LooseKind::Variable => ("NO OUTPUT BY ", "it is a variable like others"),
        LooseKind::NotCalled => (
            "NOT CALLED ",
            "*V is the value of a variable: P = F(X), and then *P, or call F behind the match",
        ),
        LooseKind::File => (
            "NO FILE ",
            "a card ties the unit to a data set, as $UNIT 8 SET: here a length stands, for OUTPUT as (80A1), or nothing",
        ),
        LooseKind::LaterArgument => (
            "TOO LATE ",
            "it needs the value at once: match up to it in one statement, and write LEN(N) in the next",
        ),
        LooseKind::Statements => ("OUT OF RANGE &", "ST= on the $JOB card raises the limit"),
        LooseKind::Characters => ("OUT OF RANGE &", "it is 0 to 100,000"),
    }
}
