//! The account table of a site.
ghost use Rattle.std.specs.Prelude.{◌≡◌, Ok, Err, IfOk, IfErr, OnOk};
ghost use Rattle.std.specs.Str.Lines.{lines};
ghost use Rattle.mon_text.specs.Stops.{Gives};
ghost use Rattle.preflight.specs.Submissions.{IfStopped};
ghost use Rattle.site_plan.specs.Tables.{after_line, table_of, ended_lines};

use crate::lines::stop_at;
use deck_syntax::{DeckError, first_line, put_account_line, whole_lines};
use mon_access::Accounts;
use mon_text::Stop;
use std::alloc::{AllocError, Global};

/// Why a line of the account table is refused.
#[derive(Clone, Copy)]
pub enum TableFault {
    /// A deck would be refused at this line, with this code.
    Line(DeckError),
    /// The line would end the table of a deck.
    Heading,
    /// No line gives an account.
    NoAccount,
}

impl TableFault {
    /// What is wrong, in words.
    pub fn text(self) -> &'static str {
        match self {
            TableFault::Line(code) => code.text(),
            TableFault::Heading => "a card that ends the account table",
            TableFault::NoAccount => "no line gives an account",
        }
    }
}

/// The accounts of a table, one at the least: lines as those behind `$ACCOUNTS`.
///
/// # Errors
///
/// The number of the first line that is wrong, counted from 1, and why. Where no line gives an account it is the number behind the last
/// line. `Memory` where a growth was refused.
pub fn read_table(alloc: Global, text: &[u8]) -> Result<Accounts, Stop<(u64, TableFault)>>
    ensures { Gives (λ accounts. accounts) result (table_of text.now) }
{
    let mut accounts = Accounts::new(alloc);
    let mut number: u64 = 1;
    let mut rest = text;
    'lines: while !rest.is_empty() {
        let (line, behind) = first_line(rest);
        match take_line(alloc, &mut accounts, line) {
            Ok(()) => {}
            Err(stop) => return Err(stop_at(number, stop)),
        }
        number += 1;
        rest = behind;
    }
    if accounts.len() == 0 {
        return Err(Stop::Refused((number, TableFault::NoAccount)));
    }
    Ok(accounts)
}

/// The text of a table as it stands in a deck: each line ended by LF. The last one may have no line end, as in a deck.
///
/// # Errors
///
/// Where a growth was refused.
pub fn whole_table(alloc: Global, text: &[u8]) -> Result<Vec<u8>, AllocError>
    ensures { IfOk result (λ whole. whole.items ≡ ended_lines (lines text.now)) }
{
    whole_lines(alloc, text)
}

fn take_line(alloc: Global, accounts: &mut Accounts, line: &[u8]) -> Result<(), Stop<TableFault>>
    ensures taken { OnOk result (after_line accounts.old line.now ≡ Ok accounts.new) }
    ensures refused { IfErr result (IfStopped (λ why. after_line accounts.old line.now ≡ Err why)) }
{
    match put_account_line(alloc, accounts, line) {
        Ok(None) => Ok(()),
        Ok(Some(_)) => Err(Stop::Refused(TableFault::Heading)),
        Err(Stop::Refused(code)) => Err(Stop::Refused(TableFault::Line(code))),
        Err(Stop::Memory) => Err(Stop::Memory),
    }
}
