//! A worked case, as its text says.
ghost use Rattle.std.specs.Prelude.{IfSome};
ghost use Rattle.sno_cards.specs.Limits.{IsLimit, AreLimits};

use mon_text::read_count;
use sno_run::Limits;

/// What stands before the name of a case.
pub const HEAD: &str = "\n$CASE ";

/// The most that a job may be allowed.
const MOST: u64 = 10_000_000;

/// What a job is allowed where its case does not say.
const USUAL: Limits = Limits {
    statements: 50_000,
    steps: 1_000_000,
};

/// The parts of a case, each as its text.
#[derive(Drop)]
pub struct Case<'a> {
    pub name: &'a str,
    pub limits: Limits,
    /// The cards of the program.
    pub program: &'a str,
    /// What the service answers, a line for each answer.
    pub answers: &'a str,
    /// What is to be seen.
    pub wanted: &'a str,
}

impl<'a> Case<'a> {
    /// Takes the text behind `$CASE ` apart.
    pub fn read(text: &'a str) -> Option<Case<'a>>
        ensures { IfSome result (λ case. AreLimits case.limits) }
    {
        let (head, rest) = text.split_once('\n')?;
        let (program, rest) = rest.split_once("$ANSWERS\n")?;
        let (answers, wanted) = rest.split_once("$WANTED\n")?;
        let (name, words) = head.split_once(' ').unwrap_or((head, ""));
        Some(Case {
            name,
            limits: limits_of(words)?,
            program,
            answers,
            wanted,
        })
    }
}

// The limits that the words behind a name give: `ST=` and `MATCH=`, each with a number.
fn limits_of(words: &str) -> Option<Limits>
    ensures { IfSome result (λ limits. AreLimits limits) }
{
    let mut limits = USUAL;
    for word in words.split_whitespace() {
        if let Some(number) = word.strip_prefix("ST=") {
            limits.statements = limit_of(number)?;
        } else {
            limits.steps = limit_of(word.strip_prefix("MATCH=")?)?;
        }
    }
    Some(limits)
}

fn limit_of(number: &str) -> Option<u64>
    ensures { IfSome result (λ limit. IsLimit limit) }
{
    match read_count(number.as_bytes()) {
        Ok(limit) if limit >= 1 && limit <= MOST => Some(limit),
        _ => None,
    }
}
