//! Keywords in programs.
ghost use Rattle.std.specs.Prelude.{◌≡◌};
ghost use Rattle.sno_state.specs.Keywords.{keyword, keyword_set};

use sno_semantics::{Evaluated, Halt};
use sno_store::{KeywordName, Store};
use sno_text::Fault;
use sno_value::{Outcome, Value};

/// The value of the keyword of a name, or the fault `Keyword`. It takes no memory.
pub fn keyword(name: &KeywordName, state: &Store) -> Outcome
    ensures { result ≡ keyword name.now state.now }
{
    match name.keyword() {
        Some(keyword) => Outcome::Gives(Value::Integer(state.keyword(keyword))),
        None => Outcome::Faults(Fault::Keyword),
    }
}

/// Assigns a value to the keyword of a name, and gives null. It takes no memory.
///
/// There is the fault `Keyword` where a program may set none of that name, then `WrongType` where the value has no number,
/// then `Keyword` where the number is out of range. Nothing has changed then.
pub fn set_keyword(name: &KeywordName, value: &Value, state: &mut Store) -> Evaluated
    ensures set { (result, state.new) ≡ keyword_set name.now value.now state.old }
    ensures counted { state.new.keywords.begun ≡ state.old.keywords.begun }
{
    match name.keyword() {
        Some(keyword) => match state.set_keyword(keyword, value) {
            Ok(()) => Evaluated::Gives(Value::null()),
            Err(fault) => Evaluated::Halts(Halt::Fault(fault)),
        },
        None => Evaluated::Halts(Halt::Fault(Fault::Keyword)),
    }
}
