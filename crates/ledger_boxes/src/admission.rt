//! What becomes of a claimed file.
ghost use Rattle.std.specs.Prelude.{◌≡◌, ◌++◌, ◌∷◌, option_map, IfOk};
ghost use Rattle.std.specs.Str.Lines.{lines};
ghost use Rattle.ledger_boxes.specs.Admission.{seen_decision, is_own, why_unread, refused, weighed_text, decided_by, IsDecidedOn, DecidesBy, text_for};
ghost use Rattle.preflight.specs.Examined.{Verdict, IsVerdict};

use crate::boxes::Boxes;
use crate::look::Look;
use crate::serving::is_file;
use crate::weighing::weigh;
use ledger_run::LedgerError;
use mon_text::{Name, Stop};
use preflight::{HandedIn, Quota, Submission, Tally, examine};
use site_plan::{Reason, reply};
use std::alloc::{AllocError, Global};

/// The user of a box, and what was handed in there.
#[derive(Drop)]
pub struct Owner {
    /// The account.
    pub account: Name,
    /// The user of the system who has it.
    pub uid: u64,
    /// What may be handed in.
    pub quota: Quota,
    /// What was.
    pub handed: HandedIn,
}

/// What becomes of a claimed file.
#[derive(Drop)]
pub enum Decision {
    /// Its text is taken, as the ledger has it: the account, and behind it the lines. It asks for so much.
    Takes(Vec<u8>, Tally),
    /// Its user is told this.
    Refuses(Vec<u8>),
}

/// Decides what becomes of the claimed file of this number, which had this name: it is taken if it is a regular file of the user alone,
/// within their limits, and its lines are whole cards of their account. Only such a file is opened, and none for another.
///
/// # Errors
///
/// Where a growth was refused, or the file can't be seen.
#[tactic(auto, using(crate::proofs::Deciding::at_once, crate::proofs::Deciding::by_bytes))]
pub fn decide<B: Boxes>(
    alloc: Global,
    boxes: &mut B,
    owner: &Owner,
    name: &[u8],
    number: u64,
) -> Result<Decision, LedgerError>
    ensures { IfOk result (λ made. DecidesBy B.seen owner.now name.now number (seen_decision made) boxes.old boxes.new) }
{
    let look = boxes.look(number)?;
    if let Some(why) = why_unread(owner, look) {
        let told = refused(alloc, owner, name, why, b"")?;
        return Ok(told);
    }
    let bytes = boxes.bytes(number, owner.quota.bytes)?;
    let made = decide_on(alloc, owner, name, &bytes)?;
    Ok(made)
}

// Why what stands there is not read.
fn why_unread(owner: &Owner, look: Option<Look>) -> Option<Reason>
    ensures { result ≡ why_unread owner.now look }
{
    match look {
        Some(look) if is_own(owner.uid, look) => {
            if look.size > owner.quota.bytes {
                Some(Reason::TooLong)
            } else {
                None
            }
        }
        _ => Some(Reason::NotOwn),
    }
}

fn is_own(uid: u64, look: Look) -> bool
    ensures { result ≡ is_own uid look }
{
    is_file(look.kind) && look.owner == uid && look.links == 1
}

// Its user is told why.
fn refused(
    alloc: Global,
    owner: &Owner,
    name: &[u8],
    why: Reason,
    bytes: &[u8],
) -> Result<Decision, AllocError>
    ensures { IfOk result (λ made. seen_decision made ≡ refused owner.now name.now bytes.now why) }
{
    let told = reply(alloc, name, &owner.account, why, bytes)?;
    Ok(Decision::Refuses(told))
}

// Of what was read.
#[tactic(auto, using(crate::proofs::Deciding::on_none, crate::proofs::Deciding::on_long, crate::proofs::Deciding::on_bytes))]
fn decide_on(
    alloc: Global,
    owner: &Owner,
    name: &[u8],
    bytes: &Option<Vec<u8>>,
) -> Result<Decision, AllocError>
    ensures { IfOk result (λ made. IsDecidedOn owner.now name.now (option_map (λ read. read.items) bytes.now) (seen_decision made)) }
{
    match bytes {
        None => refused(alloc, owner, name, Reason::NotReadable, b""),
        Some(bytes) if bytes.len() as u64 > owner.quota.bytes => {
            refused(alloc, owner, name, Reason::TooLong, b"")
        }
        Some(bytes) => decide_text(alloc, owner, name, bytes),
    }
}

// Of a text that is no longer than it may be.
fn decide_text(
    alloc: Global,
    owner: &Owner,
    name: &[u8],
    bytes: &[u8],
) -> Result<Decision, AllocError>
    ensures { IfOk result (λ made. (verdict : Verdict) × IsVerdict owner.now.account (lines bytes.now) verdict
        × (seen_decision made ≡ decided_by owner.now name.now bytes.now verdict)) }
{
    match examine(alloc, &owner.account, bytes) {
        Ok(submission) => decide_submission(alloc, owner, name, bytes, &submission),
        Err(Stop::Refused(refusal)) => refused(alloc, owner, name, Reason::Line(refusal), bytes),
        Err(Stop::Memory) => Err(AllocError),
    }
}

// Of a text that its account may hand in, unless it is too much.
fn decide_submission(
    alloc: Global,
    owner: &Owner,
    name: &[u8],
    bytes: &[u8],
    submission: &Submission,
) -> Result<Decision, AllocError>
    requires { text_for owner.now.account (lines bytes.now) ≡ owner.now.account ++ 10 ∷ submission.now.text.items }
    ensures { IfOk result (λ made. seen_decision made ≡ weighed_text owner.now name.now bytes.now submission.now.tally) }
{
    match weigh(&owner.quota, &owner.handed, &submission.tally) {
        Some(why) => refused(alloc, owner, name, why, bytes),
        None => {
            let text = text_for(alloc, &owner.account, &submission.text)?;
            Ok(Decision::Takes(text, submission.tally))
        }
    }
}

// The text as the ledger has it.
fn text_for(alloc: Global, account: &Name, text: &[u8]) -> Result<Vec<u8>, AllocError>
    ensures { IfOk result (λ whole. whole.items ≡ account.now ++ 10 ∷ text.now) }
{
    let mut whole = Vec::from_slice(alloc, account.as_bytes())?;
    whole.push(b'\n')?;
    whole.extend_from_slice(text)?;
    Ok(whole)
}
