//! Functions as DEFINE says them.
ghost use Rattle.std.specs.Prelude.{◌≡◌, true, IfOk, IsSome, IsErrOf};
ghost use Rattle.mon_text.specs.Stops.{Gives};
ghost use Rattle.sno_value.specs.Values.{text_of};
ghost use Rattle.sno_declarations.specs.Definitions.{prototype_in, entry_in, definition_in};
ghost use Rattle.sno_declarations.specs.Prototypes.{names_of, are_different};

use crate::argument::text_in;
use crate::prototype::{Prototype, read_prototype};
use mon_text::Stop;
use sno_text::{Fault, Named, Text};
use sno_value::Value;
use std::alloc::{AllocError, Global};
use std::marker::Model;
use std::rc::Rc;

/// What DEFINE says of a function.
#[derive(Drop)]
pub struct Definition {
    pub prototype: Prototype,
    /// The label of the statement with which a call begins.
    pub entry: Text,
}

/// A definition that is shared, so that a call goes on with the one that it began with.
#[derive(Drop)]
pub struct Function {
    definition: Rc<Definition>,
}

impl Model for Function {
    ghost use Rattle.std.specs.Prelude.{◌≡◌, true};
    ghost use Rattle.sno_declarations.specs.Prototypes.{names_of, are_different};
    ghost use Rattle.sno_declarations.specs.declared.definition.Definition.{Definition};

    ghost Value = { Definition };

    ghost view = { λ f. f.definition.value };

    ghost invariant = { λ f. are_different (names_of f.definition.value.prototype) ≡ true };
}

impl Function {
    /// A function that is defined so, whose variables have different names.
    ///
    /// # Errors
    ///
    /// Where a growth was refused.
    pub fn new(alloc: Global, definition: Definition) -> Result<Function, AllocError>
        requires { are_different (names_of definition.prototype) ≡ true }
        ensures { IfOk result (λ f. f ≡ definition) }
    {
        let definition = Rc::new(alloc, definition)?;
        Ok(Function { definition })
    }

    /// What was said of it. Its variables have different names.
    pub fn definition(&self) -> &Definition
        ensures same { result.now ≡ self.now }
        ensures different { are_different (names_of result.now.prototype) ≡ true }
    {
        self.definition.as_ref()
    }

    /// The same function once more. It takes no memory.
    ///
    /// # Errors
    ///
    /// Where as many share it as can be counted.
    pub fn copy(&self) -> Result<Function, AllocError>
        ensures { IfOk result (λ f. f ≡ self.now) }
    {
        let definition = self.definition.clone()?;
        Ok(Function { definition })
    }
}

fn prototype_in(alloc: Global, value: &Value) -> Result<Prototype, Stop<Fault>>
    ensures prototype { Gives (λ prototype. prototype) result (prototype_in value.now) }
    ensures memory { IsErrOf result Stop.Memory → IsSome (text_of value.now) }
{
    let text = text_in(alloc, value)?;
    match read_prototype(alloc, text.as_bytes())? {
        Some(prototype) => Ok(prototype),
        None => Err(Stop::Refused(Fault::Prototype)),
    }
}

fn entry_in(alloc: Global, name: &Named, value: &Value) -> Result<Text, Stop<Fault>>
    ensures { Gives (λ entry. entry) result (entry_in name.now value.now) }
{
    let text = text_in(alloc, value)?;
    if text.is_null() {
        let name = name.text().copy()?;
        Ok(name)
    } else {
        Ok(text)
    }
}

/// What DEFINE says of a function. A prototype that has no text takes no memory.
///
/// # Errors
///
/// `WrongType` or `Prototype` for the prototype, then `WrongType` for the entry; `Memory` where a growth was refused.
pub fn definition_in(
    alloc: Global,
    prototype: &Value,
    entry: &Value,
) -> Result<Definition, Stop<Fault>>
    ensures definition { Gives (λ definition. definition) result (definition_in prototype.now entry.now) }
    ensures memory { IsErrOf result Stop.Memory → IsSome (text_of prototype.now) }
{
    let prototype = prototype_in(alloc, prototype)?;
    let entry = entry_in(alloc, &prototype.name, entry)?;
    Ok(Definition { prototype, entry })
}
