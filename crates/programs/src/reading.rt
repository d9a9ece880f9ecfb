//! Programs that are read.
//!
//! Three folders have the cases, each beside a list of their names. Of a case `cards` has the cards, and `wanted` what
//! must come out:
//!
//! - `verdicts`: `parsed`, or where the program is refused, as `REFUSED P2 CARD 1 COLUMN 8`;
//! - `trees`: the program's statements, a line for each, and where a run of it begins;
//! - `statements`: each card is a program of its own, with an END line. It has one line, its statement or its refusal.
//!
//! The line of a statement has its label, subject, pattern, object and goto. Whatever it has not is a `-`.
//!
//! | Written | Stands for |
//! |---|---|
//! | `A`, `7` | an identifier, an integer |
//! | `'it'` | a literal, whatever its quotes were |
//! | `&TRIM`, `*F` | a keyword, an unevaluated variable |
//! | `(group X)` | what stands in parentheses |
//! | `(call F X null Y)` | a call; the second argument is empty |
//! | `(item T X)` | an item of a table, by its key |
//! | `(unary- X)` | a unary operator and its operand |
//! | `(* X Y)`, `(cat X Y)` | a binary operator and its operands; `cat` is concatenation |
//! | `(=)`, `(= X)` | the object: the null string, a value |
//! | `(: L)`, `(:S L)`, `(:F M)`, `(:S L :F M)` | the goto; a computed target is `(unary$ X)` |
//! | `start 1`, `start END` | a run begins at the second statement, at the END line |

mod answer;
mod case;
mod expression;
mod statement;

use crate::lists::list_of;
use anyhow::Result;
use case::{Form, holds};
use mon_device::Tally;
use std::fs::Files;

/// Reads the cases of all three folders, and prints a line for each: whether it is read as wanted.
pub fn read_all<R: Files + Print + AllocGlobal>(rt: &R, tally: &mut Tally) -> Result<()> {
    for form in [Form::Verdicts, Form::Trees, Form::Statements] {
        let list = format!(in rt.alloc(); "{}.txt", form.folder())?;
        let names = list_of(rt, list.as_str())?;
        for name in names.lines() {
            tally.note(holds(rt, form, name)?);
        }
    }
    Ok(())
}
