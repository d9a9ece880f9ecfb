//! What keeps values from becoming parts of a pattern: a table stands for none, and a pattern may be too deep. It is found out
//! before any memory is taken.
ghost use Rattle.std.specs.Prelude.{◌≡◌, true, None, IfSome};
ghost use Rattle.sno_text.specs.Patterns.{Cat, Alt, Arbno};
ghost use Rattle.sno_value.specs.Values.{pattern_of};
ghost use Rattle.sno_value.specs.Outcomes.{pattern_with, pattern_with_both};
ghost use Rattle.sno_value.specs.Memory.{is_given};
ghost use Rattle.sno_value.specs.declared.outcome.Outcome.TheVariants.{Faults};

use crate::value::Value;
use sno_text::Fault;

/// Why ARBNO makes no pattern of a value, if it makes none.
#[tactic(auto, using(crate::proofs::Refusing::none_repeated, crate::proofs::Refusing::repeated_deep, crate::proofs::Refusing::repeated))]
pub(crate) fn refusal(value: &Value) -> Option<Fault>
    ensures refused { IfSome result (λ fault. pattern_with Arbno (pattern_of value.now) ≡ Faults fault) }
    ensures given { result ≡ None → is_given (pattern_with Arbno (pattern_of value.now)) ≡ true }
{
    if !value.has_pattern() {
        return Some(Fault::WrongType);
    }
    if value.is_full() {
        return Some(Fault::Depth);
    }
    None
}

/// Why two values are no pattern together, one after the other or one or else the other, if they are none. That one stands for
/// none is told before that one is too deep.
#[tactic(auto, using(crate::proofs::Refusing::none_left, crate::proofs::Refusing::none_right, crate::proofs::Refusing::joined_deep_left, crate::proofs::Refusing::joined_deep_right, crate::proofs::Refusing::joined, crate::proofs::Refusing::chosen_deep_left, crate::proofs::Refusing::chosen_deep_right, crate::proofs::Refusing::chosen))]
pub(crate) fn refusal_of_two(left: &Value, right: &Value) -> Option<Fault>
    ensures joined { IfSome result (λ fault. pattern_with_both Cat (pattern_of left.now) (pattern_of right.now) ≡ Faults fault) }
    ensures chosen { IfSome result (λ fault. pattern_with_both Alt (pattern_of left.now) (pattern_of right.now) ≡ Faults fault) }
    ensures joined_given { result ≡ None → is_given (pattern_with_both Cat (pattern_of left.now) (pattern_of right.now)) ≡ true }
    ensures chosen_given { result ≡ None → is_given (pattern_with_both Alt (pattern_of left.now) (pattern_of right.now)) ≡ true }
{
    if !left.has_pattern() {
        return Some(Fault::WrongType);
    }
    if !right.has_pattern() {
        return Some(Fault::WrongType);
    }
    if left.is_full() {
        return Some(Fault::Depth);
    }
    if right.is_full() {
        return Some(Fault::Depth);
    }
    None
}
