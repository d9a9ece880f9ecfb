//! Lines of statements: each goes on over the cards that continue it.
ghost use Rattle.std.specs.Prelude.{◌≡◌, ◌+◌, ◌<◌, ◌++◌, ◌^◌, length, filter, IfOk, OnOk};
ghost use Rattle.sno_cards.specs.Statements.{placed_on, without_mark, numbered, continued, statements_in};
ghost use Rattle.sno_cards.specs.inner.Parts.{is_statement_card};
ghost use Rattle.sno_cards.specs.inner.Cuts.{cut_of, fed};

use crate::card::{is_continuation, is_start, kind_of};
use crate::cutting::Cutting;
use crate::text::StatementText;
use mon_text::Line;
use std::alloc::{AllocError, Global};

// Goes on with a continuation, its mark read as a blank.
fn feed_continuation(
    alloc: Global,
    cutting: &mut Cutting,
    card: u64,
    text: &[u8],
) -> Result<(), AllocError>
    ensures { OnOk result (cut_of cutting.new ≡ fed (cut_of cutting.old) (placed_on card 1 (without_mark text.now))) }
{
    match text {
        [] => Ok(()),
        [_, rest @ ..] => {
            cutting.feed(alloc, card, 1, b" ")?;
            cutting.feed(alloc, card, 2, rest)
        }
    }
}

/// Appends the statements of the line that begins on a card and goes on over the cards after it that continue it.
///
/// # Errors
///
/// Where a growth was refused.
pub(crate) fn cut_line(
    alloc: Global,
    card: u64,
    text: &[u8],
    later: &[Line],
    statements: Vec<StatementText>,
) -> Result<Vec<StatementText>, AllocError>
    requires { card + length later.now < 2 ^ 64 }
    ensures { IfOk result (λ all. all.items
        ≡ statements.items ++ statements_in (placed_on card 1 text.now ++ continued (filter is_statement_card (numbered (card + 1) later.now)))) }
{
    let mut cutting = Cutting::new(alloc, statements);
    cutting.feed(alloc, card, 1, text)?;
    for (index, next) in later.iter().enumerate() {
        let more = next.as_bytes();
        let kind = kind_of(more);
        if is_start(kind) {
            return cutting.end();
        }
        if is_continuation(kind) {
            feed_continuation(alloc, &mut cutting, card + 1 + index as u64, more)?;
        }
    }
    cutting.end()
}
