//! From a job's deck to what its slot holds.
ghost use Rattle.std.specs.Prelude.{◌≡◌, ℕ, List, drop, option_map, Some, None, Ok, IfOk, IfErr, IsOk, IsErrOf, OnOk};
ghost use Rattle.mon_access.specs.Accounts.{find_account};
ghost use Rattle.sno_cards.specs.Answers.{IfRefused};
ghost use Rattle.sno_cards.specs.Statements.{statements_of};
ghost use Rattle.sno_syntax.specs.Refusals.{syntax_refusal};
ghost use Rattle.sno_syntax.specs.Programs.{program_of, IsProgram};
ghost use Rattle.mon_unit.specs.Tying.{new_units};
ghost use Rattle.scheduler.specs.Abstraction.{slot_of};
ghost use Rattle.load_refusal.specs.Loads.{program_refusal};
ghost use Rattle.scheduler.specs.Loads.{first_units, with_ties, ties_refusal, program_in, deck_refusal, slot_in};
ghost use Rattle.scheduler.specs.inner.Parts.{slot_by};
ghost use Rattle.scheduler.specs.Memory.{DeckMayGrow};
ghost use Rattle.scheduler.specs.inner.Spelling.{IsSpelled};

use crate::card_reserve::CardReserve;
use crate::slot::Slot;
use deck_lines::{UnitError, tie_refused};
use deck_syntax::{JobDeck, UnitCard, UnitCards};
use load_refusal::LoadError;
use mon_access::{Account, Accounts};
use mon_text::{Line, Stop};
use mon_unit::{Lines, Units};
use sno_run::Job;
use sno_syntax::{Program, ProgramCards, parse, statements};
use sno_text::Seed;
use std::alloc::{AllocError, Global};

// Why unit cards are refused, if they are: the first that ties a unit that there is not, or one that another tied. It takes no
// memory.
fn ties_refused(cards: &[UnitCard]) -> Option<UnitError>
    ensures { (lines : List (List ℕ)) → result ≡ ties_refusal cards.now (first_units lines) }
{
    let mut tied = [false; 100];
    for card in cards {
        if let Some(refusal) = tie_refused(&tied, card.unit) {
            return Some(refusal);
        }
        tied[card.unit as usize] = true;
    }
    None
}

// The account of a job whose unit cards are not refused. It takes no memory.
fn account_of<'a>(accounts: &'a Accounts, deck: &JobDeck) -> Result<&'a Account, LoadError>
    ensures account { IfOk result (λ account. find_account accounts.now deck.now.account ≡ Some account.now) }
    ensures clean { OnOk result (ties_refusal deck.now.ties (first_units deck.now.lines) ≡ None) }
    ensures refused { IfErr result (λ refusal. deck_refusal accounts.now deck.now ≡ Some refusal) }
{
    let Some(account) = accounts.find(&deck.account) else {
        return Err(LoadError::NoAccount);
    };
    match ties_refused(deck.ties.as_slice()) {
        Some(refusal) => Err(LoadError::Cards(refusal)),
        None => Ok(account),
    }
}

// The cards of the program. A refusal of theirs takes no memory.
fn cards_of(alloc: Global, lines: &Lines) -> Result<ProgramCards, Stop<LoadError>>
    ensures cards { IfOk result (λ cards. statements_of lines.now ≡ Ok cards) }
    ensures refused { IfErr result (IfRefused (λ refusal. program_refusal (statements_of lines.now) ≡ Some refusal)) }
    ensures memory { IsErrOf result Stop.Memory → IsOk (statements_of lines.now) }
{
    match statements(alloc, lines.as_slice()) {
        Ok(cards) => Ok(cards),
        Err(Stop::Refused(refusal)) => Err(Stop::Refused(LoadError::Syntax(refusal))),
        Err(Stop::Memory) => Err(Stop::Memory),
    }
}

fn copied(alloc: Global, lines: &[Line]) -> Result<Lines, AllocError>
    ensures { IfOk result (λ copied. copied ≡ lines.now) }
{
    let mut copied = Lines::new(alloc);
    for line in lines {
        let line = line.copy(alloc)?;
        copied.push(line)?;
    }
    Ok(copied)
}

// The lines from an index on.
fn copied_from(alloc: Global, lines: &[Line], from: usize) -> Result<Lines, AllocError>
    ensures { IfOk result (λ copied. copied ≡ drop from lines.now) }
{
    match lines.get(from..) {
        Some(rest) => copied(alloc, rest),
        None => Ok(Lines::new(alloc)),
    }
}

// Ties the units, card by card.
fn tie_all(units: &mut Units, cards: &[UnitCard])
    requires { ties_refusal cards.now units.old ≡ None }
    ensures { units.new ≡ with_ties cards.now units.old }
{
    for card in cards {
        units.tie(card.unit, card.set.copy()).unwrap();
    }
}

// The units that the cards tie.
fn tied(alloc: Global, lines: Lines, ties: &UnitCards) -> Result<Units, AllocError>
    requires { ties_refusal ties.now (new_units lines) ≡ None }
    ensures { IfOk result (λ units. units ≡ with_ties ties.now (new_units lines)) }
{
    let mut units = Units::new(alloc, lines)?;
    tie_all(&mut units, ties.as_slice());
    Ok(units)
}

// The units that the cards tie, over the lines from an index on.
fn units_of(
    alloc: Global,
    lines: &Lines,
    from: usize,
    ties: &UnitCards,
) -> Result<Units, AllocError>
    requires { ties_refusal ties.now (new_units (drop from lines.now)) ≡ None }
    ensures { IfOk result (λ units. units ≡ with_ties ties.now (new_units (drop from lines.now))) }
{
    let data = copied_from(alloc, lines.as_slice(), from)?;
    tied(alloc, data, ties)
}

// The program that the cards spell.
fn program_of(alloc: Global, seed: Seed, cards: &ProgramCards) -> Result<Program, Stop<LoadError>>
    ensures program { IfOk result (λ program. IsProgram cards.now (program_of program)) }
    ensures refused { IfErr result (IfRefused (λ refusal. option_map LoadError.Syntax (syntax_refusal cards.now) ≡ Some refusal)) }
{
    match parse(alloc, seed, cards) {
        Ok(program) => Ok(program),
        Err(Stop::Refused(refusal)) => Err(Stop::Refused(LoadError::Syntax(refusal))),
        Err(Stop::Memory) => Err(Stop::Memory),
    }
}

// A program, and the units of its job.
#[derive(Drop)]
struct Parts {
    units: Units,
    program: Program,
}

fn parts_of(
    alloc: Global,
    seed: Seed,
    lines: &Lines,
    ties: &UnitCards,
) -> Result<Parts, Stop<LoadError>>
    requires { ties_refusal ties.now (first_units lines.now) ≡ None }
    ensures units { IfOk result (λ parts. parts.units ≡ with_ties ties.now (first_units lines.now)) }
    ensures program { IfOk result (λ parts. IsSpelled (statements_of lines.now) (program_of parts.program)) }
    ensures refused { IfErr result (IfRefused (λ refusal. program_refusal (statements_of lines.now) ≡ Some refusal)) }
    ensures memory { IsErrOf result Stop.Memory → IsOk (statements_of lines.now) }
{
    let cards = cards_of(alloc, lines)?;
    let program = program_of(alloc, seed, &cards)?;
    let units = units_of(alloc, lines, cards.data_from(), ties)?;
    Ok(Parts { units, program })
}

// What a slot is to hold for a job of this account.
fn slot_of_account(
    alloc: Global,
    seed: Seed,
    account: &Account,
    deck: &JobDeck,
) -> Result<Slot, Stop<LoadError>>
    requires { ties_refusal deck.now.ties (first_units deck.now.lines) ≡ None }
    ensures slot { IfOk result (λ slot. slot_by deck.now (Some account.now) (program_in (statements_of deck.now.lines)) ≡ Some (slot_of slot)) }
    ensures clean { OnOk result (program_refusal (statements_of deck.now.lines) ≡ None) }
    ensures refused { IfErr result (IfRefused (λ refusal. program_refusal (statements_of deck.now.lines) ≡ Some refusal)) }
    ensures memory { IsErrOf result Stop.Memory → IsOk (statements_of deck.now.lines) }
{
    let Parts { units, program } = parts_of(alloc, seed, &deck.lines, &deck.ties)?;
    let account = account.copy(alloc)?;
    let job = Job::new(alloc, program, deck.limits.get())?;
    Ok(Slot {
        number: deck.number,
        account,
        job,
        units,
    })
}

// What a slot is to hold for the job, in the memory that there is.
fn slot_at_once(
    alloc: Global,
    seed: Seed,
    accounts: &Accounts,
    deck: &JobDeck,
) -> Result<Slot, Stop<LoadError>>
    ensures slot { IfOk result (λ slot. slot_in accounts.now deck.now ≡ Some (slot_of slot)) }
    ensures clean { OnOk result (deck_refusal accounts.now deck.now ≡ None) }
    ensures refused { IfErr result (IfRefused (λ refusal. deck_refusal accounts.now deck.now ≡ Some refusal)) }
    ensures memory { IsErrOf result Stop.Memory → DeckMayGrow accounts.now deck.now }
{
    match account_of(accounts, deck) {
        Ok(account) => slot_of_account(alloc, seed, account, deck),
        Err(refusal) => Err(Stop::Refused(refusal)),
    }
}

// What a slot is to hold for the job. Where a growth is refused, what is kept for cards gives way, and it is tried once more.
pub(crate) fn slot_for(
    alloc: Global,
    seed: Seed,
    accounts: &Accounts,
    deck: &JobDeck,
    kept: &mut CardReserve,
) -> Result<Slot, Stop<LoadError>>
    ensures slot { IfOk result (λ slot. slot_in accounts.now deck.now ≡ Some (slot_of slot)) }
    ensures clean { OnOk result (deck_refusal accounts.now deck.now ≡ None) }
    ensures refused { IfErr result (IfRefused (λ refusal. deck_refusal accounts.now deck.now ≡ Some refusal)) }
    ensures memory { IsErrOf result Stop.Memory → DeckMayGrow accounts.now deck.now }
    ensures kept { kept.new ≡ kept.old }
{
    let slot = slot_at_once(alloc, seed, accounts, deck);
    if let Err(Stop::Memory) = slot {
        if kept.give_way() {
            return slot_at_once(alloc, seed, accounts, deck);
        }
    }
    slot
}
