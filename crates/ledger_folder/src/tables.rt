//! What a site's tables say, and what is told where they are wrong.
ghost use Rattle.std.specs.Prelude.{◌≡◌, Ok, IfOk};
ghost use Rattle.ledger_tables.specs.Tables.{seen_texts, seen_tables, tables_of};

use crate::fault::{Fault, Wrong};
use ledger_tables::{LimitsFault, Tables, TablesFault, Texts, bound_name, read_tables};
use mon_text::Stop;
use site_plan::{TableFault, UsersFault};
use std::alloc::Global;

/// What these texts say.
///
/// # Errors
///
/// Where a growth was refused, or a line of them is wrong: which, and how.
pub fn tables_in(alloc: Global, texts: Texts<'_>) -> Result<Tables, Fault>
    ensures { IfOk result (λ tables. tables_of (seen_texts texts.entry) ≡ Ok (seen_tables tables)) }
{
    match read_tables(alloc, texts) {
        Ok(tables) => Ok(tables),
        Err(Stop::Refused((line, fault))) => Err(wrong_tables(alloc, line, fault)),
        Err(Stop::Memory) => Err(Fault::Memory),
    }
}

fn wrong_tables(alloc: Global, line: u64, fault: TablesFault) -> Fault {
    match fault {
        TablesFault::Accounts(fault) => Fault::wrong(
            alloc,
            "accounts",
            wrong_accounts(line, fault),
        ),
        TablesFault::Limits(fault) => Fault::wrong(alloc, "limits", wrong_limits(line, fault)),
        TablesFault::Users(fault) => Fault::wrong(alloc, "users", wrong_users(line, fault)),
    }
}

fn wrong_accounts(line: u64, fault: TableFault) -> Wrong {
    match fault {
        TableFault::NoAccount => Wrong::Words(fault.text()),
        _ => Wrong::Line(line, fault.text()),
    }
}

fn wrong_limits(line: u64, fault: LimitsFault) -> Wrong {
    match fault {
        LimitsFault::BadLine => Wrong::Line(line, "not a limit and a number"),
        LimitsFault::WrongDays => Wrong::Line(line, "days are 1 to 36,500"),
        LimitsFault::Twice => Wrong::Line(line, "a line before says this"),
        LimitsFault::Missing(bound) => Wrong::Missing(bound_name(bound)),
    }
}

fn wrong_users(line: u64, fault: UsersFault) -> Wrong {
    match fault {
        UsersFault::NoUser => Wrong::Words(fault.text()),
        _ => Wrong::Line(line, fault.text()),
    }
}
