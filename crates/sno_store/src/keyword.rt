//! Keywords.
ghost use Rattle.std.specs.Prelude.{◌≡◌, ◌<◌, ◌^◌, ◌+◌, nat_lt, ◌&&◌, not, pos, bytes_eq, if◌then◌else◌};
ghost use Rattle.std.specs.Ordering.{int_eq};
ghost use Rattle.sno_store.specs.Keywords.{first_keywords, keyword_named, keyword_value, with_keyword, is_settable};
ghost use Rattle.sno_store.specs.inner.Parts.{read_keyword_named};
ghost use Rattle.sno_store.specs.inner.Answers.{Answers};

use sno_text::{Fault, Text};
use std::marker::Model;

/// A keyword.
#[derive(Clone, Copy)]
pub enum Keyword {
    Anchor,
    FullScan,
    Trim,
    StatementLimit,
    MaximumLength,
    StatementCount,
    StatementNumber,
    FunctionLevel,
}

/// The most that `&MAXLNGTH` may be.
pub const MOST_CHARACTERS: u64 = 100_000;

fn is_word(name: &[u8], word: &[u8]) -> bool
    ensures { result ≡ bytes_eq name.now word.now }
{
    name == word
}

impl Keyword {
    /// The keyword of a name.
    pub fn named(name: &[u8]) -> Option<Keyword>
        ensures { result ≡ keyword_named name.now }
    {
        if is_word(name, b"ANCHOR") {
            Some(Keyword::Anchor)
        } else if is_word(name, b"FULLSCAN") {
            Some(Keyword::FullScan)
        } else if is_word(name, b"TRIM") {
            Some(Keyword::Trim)
        } else if is_word(name, b"STLIMIT") {
            Some(Keyword::StatementLimit)
        } else if is_word(name, b"MAXLNGTH") {
            Some(Keyword::MaximumLength)
        } else {
            Keyword::only_read(name)
        }
    }

    /// The keyword of a name, if it is only read.
    fn only_read(name: &[u8]) -> Option<Keyword>
        ensures { result ≡ read_keyword_named name.now }
    {
        if is_word(name, b"STCOUNT") {
            Some(Keyword::StatementCount)
        } else if is_word(name, b"STNO") {
            Some(Keyword::StatementNumber)
        } else if is_word(name, b"FNCLEVEL") {
            Some(Keyword::FunctionLevel)
        } else {
            None
        }
    }

    /// Whether a program may set it.
    pub fn is_settable(self) -> bool
        ensures { result ≡ is_settable self }
    {
        !matches!(
            self,
            Keyword::StatementCount | Keyword::StatementNumber | Keyword::FunctionLevel
        )
    }
}

/// The name of a keyword. Which keyword that is is settled once, where the name is read.
#[derive(Drop)]
pub struct KeywordName {
    name: Text,
    keyword: Option<Keyword>,
}

impl Model for KeywordName {
    ghost use Rattle.std.specs.Prelude.{◌≡◌, ℕ, List};
    ghost use Rattle.sno_store.specs.Keywords.{keyword_named};

    ghost Value = { List ℕ };

    ghost view = { λ k. k.name };

    ghost invariant = { λ k. k.keyword ≡ keyword_named k.name };
}

impl KeywordName {
    /// The keyword of a name. It takes no memory.
    pub fn new(name: Text) -> KeywordName
        ensures { result ≡ name }
    {
        let keyword = Keyword::named(name.as_bytes());
        KeywordName { name, keyword }
    }

    /// The keyword.
    pub fn keyword(&self) -> Option<Keyword>
        ensures { result ≡ keyword_named self.now }
    {
        self.keyword
    }
}

/// A number that keywords show, as that of a statement: below 2 ^ 63, so that a program can read it.
#[derive(Drop)]
pub struct KeywordNumber {
    number: u64,
}

impl Model for KeywordNumber {
    ghost use Rattle.std.specs.Prelude.{ℕ, ◌<◌, ◌^◌};

    ghost Value = { ℕ };

    ghost view = { λ s. s.number };

    ghost invariant = { λ s. s.number < 2 ^ 63 };
}

impl KeywordNumber {
    /// This number.
    pub fn new(number: u64) -> KeywordNumber
        requires { number < 2 ^ 63 }
        ensures { result ≡ number }
    {
        KeywordNumber { number }
    }

    /// The number.
    pub fn get(&self) -> u64
        ensures value { result ≡ self.now }
        ensures small { self.now < 2 ^ 63 }
    {
        self.number
    }

    /// The same number once more.
    pub fn copy(&self) -> KeywordNumber
        ensures { result ≡ self.now }
    {
        KeywordNumber {
            number: self.number,
        }
    }
}

/// What the keywords say.
#[derive(Drop)]
pub struct Keywords {
    anchor: i64,
    full_scan: i64,
    trim: i64,
    /// How many statements may begin.
    statement_limit: KeywordNumber,
    /// How many characters a string that is formed may have.
    maximum_length: KeywordNumber,
    /// How many statements were begun.
    begun: KeywordNumber,
    /// The statement at hand.
    statement: KeywordNumber,
}

impl Keywords {
    /// The keywords of a job that may begin so many statements, at first.
    pub fn new(limit: u64) -> Keywords
        requires { limit < 2 ^ 63 }
        ensures { result ≡ first_keywords limit }
    {
        Keywords {
            anchor: 0,
            full_scan: 0,
            trim: 0,
            statement_limit: KeywordNumber::new(limit),
            maximum_length: KeywordNumber::new(5000),
            begun: KeywordNumber::new(0),
            statement: KeywordNumber::new(0),
        }
    }

    /// The value of a keyword, so many calls deep.
    pub fn value(&self, keyword: Keyword, level: u64) -> i64
        requires { level < 2 ^ 63 }
        ensures { result ≡ keyword_value keyword level self.now }
    {
        match keyword {
            Keyword::Anchor => self.anchor,
            Keyword::FullScan => self.full_scan,
            Keyword::Trim => self.trim,
            Keyword::StatementLimit => self.statement_limit.get() as i64,
            Keyword::MaximumLength => self.maximum_length.get() as i64,
            Keyword::StatementCount => self.begun.get() as i64,
            Keyword::StatementNumber => self.statement.get() as i64,
            Keyword::FunctionLevel => level as i64,
        }
    }

    fn set_statement_limit(&mut self, number: i64) -> Result<(), Fault>
        ensures { Answers result self.old self.new (with_keyword Keyword.StatementLimit number self.old) }
    {
        match u64::try_from(number) {
            Ok(limit) => {
                self.statement_limit = KeywordNumber::new(limit);
                Ok(())
            }
            Err(_) => Err(Fault::Keyword),
        }
    }

    fn set_maximum_length(&mut self, number: i64) -> Result<(), Fault>
        ensures { Answers result self.old self.new (with_keyword Keyword.MaximumLength number self.old) }
    {
        match u64::try_from(number) {
            Ok(length) if length <= MOST_CHARACTERS => {
                self.maximum_length = KeywordNumber::new(length);
                Ok(())
            }
            _ => Err(Fault::Keyword),
        }
    }

    /// Sets a keyword to a number.
    ///
    /// # Errors
    ///
    /// `Keyword` where it is only read, or the number is out of its range; nothing has changed then.
    pub fn set(&mut self, keyword: Keyword, number: i64) -> Result<(), Fault>
        ensures { Answers result self.old self.new (with_keyword keyword number self.old) }
    {
        match keyword {
            Keyword::Anchor => {
                self.anchor = number;
                Ok(())
            }
            Keyword::FullScan => {
                self.full_scan = number;
                Ok(())
            }
            Keyword::Trim => {
                self.trim = number;
                Ok(())
            }
            Keyword::StatementLimit => self.set_statement_limit(number),
            Keyword::MaximumLength => self.set_maximum_length(number),
            _ => Err(Fault::Keyword),
        }
    }

    /// Whether blanks at the end of records are dropped.
    pub fn trims(&self) -> bool
        ensures { result ≡ not (int_eq self.now.trim (pos 0)) }
    {
        self.trim != 0
    }

    /// The statement at hand.
    pub fn statement(&self) -> KeywordNumber
        ensures { result ≡ self.now.statement }
    {
        self.statement.copy()
    }

    /// How many statements were begun.
    pub fn begun(&self) -> u64
        ensures { result ≡ self.now.begun }
    {
        self.begun.get()
    }

    /// The most characters of a string that is formed.
    pub fn maximum_length(&self) -> u64
        ensures { result ≡ self.now.maximum_length }
    {
        self.maximum_length.get()
    }

    /// Begins a statement, if one may begin in a job that may begin so many. It tells whether it did.
    pub fn begin(&mut self, statement: KeywordNumber, limit: u64) -> bool
        ensures begins { result ≡ (nat_lt self.old.begun self.old.statement_limit && nat_lt self.old.begun limit) }
        ensures begun { self.new ≡ (if result then record (self.old) { begun = self.old.begun + 1; statement = statement } else self.old) }
    {
        let begun = self.begun.get();
        if begun < self.statement_limit.get() && begun < limit {
            self.begun = KeywordNumber::new(begun + 1);
            self.statement = statement;
            true
        } else {
            false
        }
    }

    /// Goes back to a statement.
    pub fn go_back(&mut self, statement: KeywordNumber)
        ensures { self.new ≡ record (self.old) { statement = statement } }
    {
        self.statement = statement;
    }
}
