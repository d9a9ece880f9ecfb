//! Reading a deck up to its stream: the state of its front, and what the next line makes of that.
ghost use Rattle.std.specs.Prelude.{◌≡◌, ◌+◌, ◌<◌, ◌≤◌, ◌^◌, [], ◌∷◌, ℕ, List, true, false, IfOk, IfErr};
ghost use Rattle.mon_access.specs.declared.account.Account.{Account};
ghost use Rattle.mon_catalogue.specs.Progress.{SetDue};
ghost use Rattle.deck_lines.specs.inner.Stops.{IfRefused};
ghost use Rattle.deck_syntax.specs.declared.front_reader.FrontReader.TheVariants as reader;
ghost use Rattle.deck_syntax.specs.Sections.{refused_early};
ghost use Rattle.deck_syntax.specs.Reading.{deck_ahead, deck_behind, deck_opened, accounts_read, lines_read, MayOpen};

use crate::reading::{
    finish_catalogue, opens_accounts, put_account_line, put_catalogue_line, put_record_line,
};
use deck_lines::DeckError;
use mon_access::Accounts;
use mon_catalogue::{Catalogue, Loading, Version};
use mon_text::Stop;
use std::alloc::Global;
use std::mem;

/// How far the front of a deck was read: what the next line belongs to, and what was collected.
#[derive(Drop)]
pub enum FrontReader {
    /// `$ACCOUNTS` is due.
    Opening,
    /// An account, or `$CATALOGUE`.
    Accounts(Accounts),
    /// The catalogue's text, or `$STREAM`.
    Catalogue(Accounts, Loading),
}

/// What a stream begins over: the account table and the data sets.
#[derive(Drop)]
pub struct Front {
    pub accounts: Accounts,
    pub catalogue: Catalogue,
}

impl FrontReader {
    /// Takes a line: the front, where it is `$STREAM`, which ends it. Else the reader has gone on.
    ///
    /// # Errors
    ///
    /// The line's refusal; memory, after which the state says nothing.
    pub fn line(&mut self, alloc: Global, text: &[u8]) -> Result<Option<Front>, Stop<DeckError>>
        requires { lines_read self.old < 2 ^ 63 }
        ensures goes { IfOk result (λ front. (n : ℕ) (ls : List (List ℕ)) → deck_ahead self.old n (text.now ∷ ls) ≡ deck_behind self.new front (n + 1) ls) }
        ensures refused { IfErr result (IfRefused (λ code. (n : ℕ) (ls : List (List ℕ)) → deck_ahead self.old n (text.now ∷ ls) ≡ refused_early n code (accounts_read self.old))) }
        ensures within { lines_read self.new ≤ lines_read self.old + 1 }
    {
        match self {
            FrontReader::Opening => {
                if opens_accounts(alloc, text)? {
                    *self = FrontReader::Accounts(Accounts::new(alloc));
                }
                Ok(None)
            }
            FrontReader::Accounts(accounts) => match put_account_line(alloc, accounts, text)? {
                Some(version) => {
                    self.open_catalogue(alloc, version);
                    Ok(None)
                }
                None => Ok(None),
            },
            FrontReader::Catalogue(_, loading) => {
                if put_catalogue_line(alloc, loading, text)? {
                    return Ok(self.close());
                }
                Ok(None)
            }
        }
    }

    /// Takes a line that is one more record of a data set of the catalogue, as most lines of a long catalogue are: whether so it
    /// is. Otherwise nothing has changed, and the line is left to `line`.
    #[inline(always)]
    #[tactic(auto, using(crate::proofs::Following::record_goes))]
    pub fn take_record(&mut self, text: &[u8]) -> bool
        requires { lines_read self.old < 2 ^ 63 }
        ensures goes { result ≡ true → (n : ℕ) (ls : List (List ℕ)) → deck_ahead self.old n (text.now ∷ ls) ≡ deck_ahead self.new (n + 1) ls }
        ensures unchanged { result ≡ false → self.new ≡ self.old }
        ensures within { lines_read self.new ≤ lines_read self.old + 1 }
    {
        match self {
            FrontReader::Catalogue(_, loading) if loading.awaits_records() => {
                put_record_line(loading, text)
            }
            _ => false,
        }
    }

    // Behind the accounts the catalogue follows; any other state stays. It stays a call, since the room for a state is cleared
    // where this stands.
    #[inline(never)]
    fn open_catalogue(&mut self, alloc: Global, version: Version)
        ensures { (accounts : List Account) → self.old ≡ reader.Accounts accounts → self.new ≡ reader.Catalogue accounts (SetDue version 0 []) }
    {
        match mem::replace(self, FrontReader::Opening) {
            FrontReader::Accounts(accounts) => {
                *self = FrontReader::Catalogue(accounts, Loading::new(alloc, version));
            }
            other => *self = other,
        }
    }

    // The front that was read, where the catalogue is whole.
    #[inline(never)]
    fn close(&mut self) -> Option<Front>
        requires { MayOpen self.old }
        ensures front { (n : ℕ) (ls : List (List ℕ)) → deck_behind self.new result n ls ≡ deck_opened self.old n ls }
        ensures within { lines_read self.new ≡ 0 }
    {
        match mem::replace(self, FrontReader::Opening) {
            FrontReader::Catalogue(accounts, loading) => Some(Front {
                accounts,
                catalogue: finish_catalogue(loading),
            }),
            other => {
                *self = other;
                None
            }
        }
    }
}
