//! Names in a program that lead nowhere: labels that a goto names and no statement has, functions that are called and that
//! nobody defines, keywords and variables that other systems have, names of the language in small letters, items where there is no
//! table, and functions that look called and are not; and names that the language has, used so that the statement fails.

use crate::misuse::{literal_at, misuse_at};
use crate::rows::place_at;
use crate::usage::{Usage, defined_by, is_named, name_at};
use mon_text::{Line, Stop};
use program_advice::instead_of_variable;
use sno_lexer::Token;
use sno_syntax::{Labels, Place, ProgramCards, StatementText, Tokens, label_in, lex};
use sno_text::Seed;
use std::alloc::{AllocError, Global};

/// What a name that leads nowhere names.
#[derive(Clone, Copy)]
pub enum LooseKind {
    /// A label that no statement has.
    Label,
    /// A function that is neither there without a program nor given to DEFINE as a literal.
    Function,
    /// A name with small letters, where the language has that name in capitals.
    SmallLetters,
    /// What an item is of, where no statement calls TABLE. It is told once of a variable.
    NoTable,
    /// A keyword that there is not.
    Keyword,
    /// A variable that reads or writes on other systems, and here does neither.
    Variable,
    /// A function's name as a variable that is evaluated later, and a parenthesis behind a blank: no call of it.
    NotCalled,
    /// A literal that names a file, as it seems, where INPUT and OUTPUT take a length.
    File,
    /// A function that is given `*V`, and needs its value.
    LaterArgument,
    /// `&STLIMIT`, set to less than 0.
    Statements,
    /// `&MAXLNGTH`, set to what is out of its range.
    Characters,
}

/// A name that leads nowhere, and where it stands.
#[derive(Drop)]
pub struct LooseName {
    pub kind: LooseKind,
    pub name: Line,
    pub place: Place,
}

/// The names in a program's statements that lead nowhere, in their order. A statement whose tokens can't be read has none.
///
/// # Errors
///
/// Where a growth was refused.
pub fn loose_names(alloc: Global, cards: &ProgramCards) -> Result<Vec<LooseName>, AllocError> {
    let mut known = Known {
        alloc,
        labels: Labels::new(alloc, Seed::fixed()),
        functions: Labels::new(alloc, Seed::fixed()),
        has_tables: false,
        untabled: Labels::new(alloc, Seed::fixed()),
    };
    for (index, text) in cards.statements().iter().enumerate() {
        known.note_statement(text, index)?;
    }
    known.loose_in(cards.statements())
}

// The names that a program gives a meaning.
#[derive(Drop)]
struct Known {
    alloc: Global,
    labels: Labels,
    functions: Labels,
    /// Whether a statement calls TABLE.
    has_tables: bool,
    /// The variables of which it was told that there is no table.
    untabled: Labels,
}

impl Known {
    // Notes the label of a statement, whether it calls TABLE, and the functions that it gives to DEFINE as literals.
    fn note_statement(&mut self, text: &StatementText, index: usize) -> Result<(), AllocError> {
        self.labels
            .insert(self.alloc, label_in(text.as_bytes()), index)?;
        if let Some(read) = tokens_of(self.alloc, text)? {
            for at in 0..read.tokens().len() {
                self.note_call(read.tokens(), at, index)?;
            }
        }
        Ok(())
    }

    fn note_call(
        &mut self,
        tokens: &[Token<'_>],
        at: usize,
        index: usize,
    ) -> Result<(), AllocError> {
        let Some((word, Usage::Call)) = name_at(tokens, at) else {
            return Ok(());
        };
        let name = word.line(self.alloc)?;
        if name.as_bytes() == b"TABLE".as_slice() {
            self.has_tables = true;
        } else if name.as_bytes() == b"DEFINE".as_slice() {
            if let Some(prototype) = literal_at(tokens, at.saturating_add(2)) {
                let function = defined_by(self.alloc, prototype.as_bytes())?;
                self.functions.insert(self.alloc, &function, index)?;
            }
        }
        Ok(())
    }

    // The names in the statements that lead nowhere.
    fn loose_in(&mut self, texts: &[StatementText]) -> Result<Vec<LooseName>, AllocError> {
        let mut loose = Vec::new(self.alloc);
        for text in texts {
            self.put_loose(text, &mut loose)?;
        }
        Ok(loose)
    }

    // Puts the names in a statement that lead nowhere last.
    fn put_loose(
        &mut self,
        text: &StatementText,
        loose: &mut Vec<LooseName>,
    ) -> Result<(), AllocError> {
        if let Some(read) = tokens_of(self.alloc, text)? {
            for at in 0..read.tokens().len() {
                if let Some(name) = self.loose_at(text, &read, at)? {
                    loose.push(name)?;
                }
            }
        }
        Ok(())
    }

    // The name that the token at an index is, if it leads nowhere, or is one of the language and misused.
    fn loose_at(
        &mut self,
        text: &StatementText,
        read: &Tokens<'_>,
        at: usize,
    ) -> Result<Option<LooseName>, AllocError> {
        let tokens = read.tokens();
        let Some((word, usage)) = name_at(tokens, at) else {
            return Ok(None);
        };
        let name = word.line(self.alloc)?;
        let found = match self.loose_kind(name.as_bytes(), usage)? {
            None if self.functions.find(name.as_bytes()).is_none() => {
                misuse_at(tokens, at, name.as_bytes(), usage)
            }
            None => None,
            Some(kind) => Some((kind, at)),
        };
        let Some((kind, index)) = found else {
            return Ok(None);
        };
        if matches!(kind, LooseKind::NoTable) {
            self.untabled.insert(self.alloc, name.as_bytes(), at)?;
        }
        let name = match (kind, literal_at(tokens, index)) {
            (LooseKind::File, Some(file)) => file.copy(self.alloc)?,
            _ => name,
        };
        let offset = read.offsets().get(index).copied().unwrap_or(usize::MAX);
        let place = place_at(text, offset);
        Ok(Some(LooseName { kind, name, place }))
    }

    // How a name that is used so leads nowhere, if it means nothing of what the language or the program says.
    fn loose_kind(&self, name: &[u8], usage: Usage) -> Result<Option<LooseKind>, AllocError> {
        let is_function = is_named(name, Usage::Call) || self.functions.find(name).is_some();
        let (kind, is_known) = match usage {
            Usage::Goto => {
                let is_kept = matches!(name, b"END" | b"RETURN" | b"FRETURN");
                (
                    LooseKind::Label,
                    is_kept || self.labels.find(name).is_some(),
                )
            }
            Usage::Call => (LooseKind::Function, is_function),
            Usage::Later => (LooseKind::NotCalled, !is_function),
            Usage::Item => {
                let is_told = self.untabled.find(name).is_some();
                (LooseKind::NoTable, self.has_tables || is_told)
            }
            Usage::Keyword => (LooseKind::Keyword, is_named(name, usage)),
            Usage::Variable => (LooseKind::Variable, is_named(name, usage)),
        };
        if is_known {
            return Ok(None);
        }
        let capitals = name.to_ascii_uppercase(self.alloc)?;
        if is_named(&capitals, usage) {
            return Ok(Some(LooseKind::SmallLetters));
        }
        match kind {
            LooseKind::Variable if instead_of_variable(name).is_none() => Ok(None),
            _ => Ok(Some(kind)),
        }
    }
}

// The tokens of a statement, where they can be read.
fn tokens_of(alloc: Global, text: &StatementText) -> Result<Option<Tokens<'_>>, AllocError> {
    match lex(alloc, text) {
        Ok(tokens) => Ok(Some(tokens)),
        Err(Stop::Refused(_)) => Ok(None),
        Err(Stop::Memory) => Err(AllocError),
    }
}
