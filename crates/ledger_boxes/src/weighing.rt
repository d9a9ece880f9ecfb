//! Which limit an account would break by a text.
ghost use Rattle.std.specs.Prelude.{◌≡◌};
ghost use Rattle.site_plan.specs.Weighing.{stopped_by, is_of_owned, amount, allowed, weighed};

use preflight::{HandedIn, Limit, Quota, Tally, within};
use site_plan::Reason;

// Why a text that asks for so much does not run, for a limit, where the account has handed in this before.
pub(crate) fn weigh(limits: &Quota, handed: &HandedIn, tally: &Tally) -> Option<Reason>
    ensures { result ≡ weighed limits.now handed.now tally.now }
{
    let after = handed.with_text(*tally);
    match stopped_by(limits, &after, tally) {
        None => None,
        Some(limit) => Some(Reason::Limit(limit, amount(limit, &after), allowed(limit, limits))),
    }
}

// The limit that stops a text, where the account has this handed in with it.
fn stopped_by(limits: &Quota, after: &HandedIn, tally: &Tally) -> Option<Limit>
    ensures { result ≡ stopped_by limits.now after.now tally.now }
{
    match within(limits, after) {
        None => None,
        Some(limit) => {
            if is_of_owned(limit) && tally.jobs == 0 && tally.creates == 0 {
                None
            } else {
                Some(limit)
            }
        }
    }
}

// Whether a limit is of what the account owned when the run started.
fn is_of_owned(limit: Limit) -> bool
    ensures { result ≡ is_of_owned limit }
{
    match limit {
        Limit::DataSets | Limit::Records => true,
        Limit::Texts
        | Limit::Bytes
        | Limit::Jobs
        | Limit::Statements
        | Limit::Largest
        | Limit::Work => false,
    }
}

// How much an account has of what a limit is about.
fn amount(limit: Limit, handed: &HandedIn) -> u128
    ensures { result ≡ amount limit handed.now }
{
    let tally = handed.tally;
    match limit {
        Limit::Texts => u128::from(handed.texts),
        Limit::Bytes => u128::from(tally.bytes),
        Limit::Jobs => u128::from(tally.jobs),
        Limit::Statements => tally.statements,
        Limit::Largest => u128::from(tally.largest),
        Limit::Work => tally.work,
        Limit::DataSets => u128::from(handed.data_sets) + u128::from(tally.creates),
        Limit::Records => u128::from(handed.records),
    }
}

// How much an account may have of it.
fn allowed(limit: Limit, limits: &Quota) -> u64
    ensures { result ≡ allowed limit limits.now }
{
    match limit {
        Limit::Texts => limits.texts,
        Limit::Bytes => limits.bytes,
        Limit::Jobs => limits.jobs,
        Limit::Statements => limits.statements,
        Limit::Largest => limits.largest,
        Limit::Work => limits.work,
        Limit::DataSets => limits.data_sets,
        Limit::Records => limits.records,
    }
}
