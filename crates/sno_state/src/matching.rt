//! A match within a statement.
ghost use Rattle.std.specs.Prelude.{◌≡◌, length, IfOk};
ghost use Rattle.interaction.specs.Interactions.{interpreted};
ghost use Rattle.interaction.specs.Asking.{Executes};
ghost use Rattle.sno_pattern.specs.Places.{MatchesWithin};
ghost use Rattle.sno_pattern.specs.Steps.{match_of};
ghost use Rattle.sno_state.specs.Matching.{looking, matched};
ghost use Rattle.sno_state.specs.inner.Parts.{is_anchored};

use crate::host::Host;
use interaction::Service;
use sno_pattern::{MatchEnd, Pat, matches};
use sno_store::{Keyword, Store};
use sno_text::{Fault, Text};
use sno_value::Value;
use std::alloc::{AllocError, Global};

fn is_anchored(state: &Store) -> bool
    ensures { result ≡ is_anchored state.now }
{
    state.keyword(Keyword::Anchor) != 0
}

/// Matches with the state of the job and its service for the host.
fn match_in<S: Service>(
    alloc: Global,
    pattern: &Pat,
    text: &Text,
    anchored: bool,
    steps: u64,
    state: &mut Store,
    service: &mut S,
) -> Result<MatchEnd, AllocError>
    requires { S.ready service.old }
    ensures runs { Executes S.answers (interpreted looking (match_of text.now pattern.now anchored steps) state.old) service.old result (λ end. (end, state.new)) service.new }
    ensures within { IfOk result (MatchesWithin (length text.now)) }
    ensures counted { state.new.keywords.begun ≡ state.old.keywords.begun }
    ensures ready { S.ready service.new }
{
    let mut host = Host {
        alloc,
        state,
        service,
    };
    match matches(alloc, pattern, text, anchored, steps, &mut host) {
        Ok(end) => Ok(end),
        Err(e) => Err(e),
    }
}

/// Matches a text by what a value stands for as a pattern, within so many steps: at its start alone where `&ANCHOR` is not 0,
/// and else at each place. Variables are used and assigned to meanwhile.
///
/// # Errors
///
/// Where a growth was refused; what the match asked so far stands then.
#[inline(never)]
#[tactic(auto, using(interaction::proofs::Held::talking))]
pub fn matched<S: Service>(
    alloc: Global,
    steps: u64,
    text: &Text,
    pattern: &Value,
    state: &mut Store,
    service: &mut S,
) -> Result<MatchEnd, AllocError>
    requires { S.ready service.old }
    ensures runs { Executes S.answers (matched steps text.now pattern.now state.old) service.old result (λ end. (end, state.new)) service.new }
    ensures within { IfOk result (MatchesWithin (length text.now)) }
    ensures counted { state.new.keywords.begun ≡ state.old.keywords.begun }
    ensures ready { S.ready service.new }
{
    let Some(pattern) = pattern.to_pattern(alloc)? else {
        return Ok(MatchEnd::Fault(Fault::WrongType));
    };
    let anchored = is_anchored(state);
    match match_in(alloc, &pattern, text, anchored, steps, state, service) {
        Ok(end) => Ok(end),
        Err(e) => Err(e),
    }
}
