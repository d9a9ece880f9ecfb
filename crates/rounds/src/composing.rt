//! Composing the deck of a round.
ghost use Rattle.std.specs.Prelude.{◌≡◌, ◌++◌, codes, IfOk, OnOk};
ghost use Rattle.std.specs.List.{flat_map};
ghost use Rattle.mon_catalogue.specs.Text.{catalogue_text};
ghost use Rattle.mon_monitor.specs.Printed.{given_back};
ghost use Rattle.rounds.specs.Compositions.{with_fence, head_text, round_text};

use mon_catalogue::Catalogue;
use mon_device::{Sink, TextSink};
use preflight::Submission;
use std::alloc::{AllocError, Global};

/// The deck of a round: the accounts, the data sets, each text with a `$DRAIN` card behind it, and `$STOP`. The table has a line for
/// each account, each ended by LF.
///
/// # Errors
///
/// Where a growth was refused.
pub fn compose(
    alloc: Global,
    table: &[u8],
    catalogue: &Catalogue,
    texts: &[Submission],
) -> Result<Vec<u8>, AllocError>
    ensures { IfOk result (λ deck. deck.items ≡ round_text (head_text table.now catalogue.now) texts.now) }
{
    let mut deck = compose_head(alloc, table, catalogue)?;
    put_texts(&mut deck, texts)?;
    put_stop(&mut deck)?;
    Ok(deck)
}

/// The deck of a round up to the card behind which the texts stand.
///
/// # Errors
///
/// Where a growth was refused.
pub fn compose_head(
    alloc: Global,
    table: &[u8],
    catalogue: &Catalogue,
) -> Result<Vec<u8>, AllocError>
    ensures { IfOk result (λ head. head.items ≡ head_text table.now catalogue.now) }
{
    let mut head = Vec::from_slice(alloc, b"$ACCOUNTS\n")?;
    head.extend_from_slice(table)?;
    put_catalogue(&mut head, catalogue)?;
    head.extend_from_slice(b"$STREAM\n")?;
    Ok(head)
}

// Appends the data sets as a round gives them back.
fn put_catalogue(out: &mut Vec<u8>, catalogue: &Catalogue) -> Result<(), AllocError>
    ensures { OnOk result (out.new.items ≡ out.old.items ++ given_back catalogue.now) }
{
    out.extend_from_slice(b"$CATALOGUE 2\n")?;
    put_sets(out, catalogue)
}

// Appends the text of the data sets.
fn put_sets(out: &mut Vec<u8>, catalogue: &Catalogue) -> Result<(), AllocError>
    ensures { OnOk result (out.new.items ≡ out.old.items ++ catalogue_text catalogue.now) }
{
    let mut sink = TextSink::new(out);
    catalogue.print(&mut sink);
    sink.settle()
}

// Appends texts, each with its fence.
fn put_texts(out: &mut Vec<u8>, texts: &[Submission]) -> Result<(), AllocError>
    ensures { OnOk result (out.new.items ≡ out.old.items ++ flat_map with_fence texts.now) }
{
    for text in texts {
        put_text(out, text)?;
    }
    Ok(())
}

// Appends a text with a `$DRAIN` card behind it.
fn put_text(out: &mut Vec<u8>, text: &Submission) -> Result<(), AllocError>
    ensures { OnOk result (out.new.items ≡ out.old.items ++ with_fence text.now) }
{
    out.extend_from_slice(&text.text)?;
    out.extend_from_slice(b"$DRAIN\n")
}

// Appends the end of a deck.
fn put_stop(out: &mut Vec<u8>) -> Result<(), AllocError>
    ensures { OnOk result (out.new.items ≡ out.old.items ++ codes "$STOP\n") }
{
    out.extend_from_slice(b"$STOP\n")
}
