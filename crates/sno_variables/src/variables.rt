//! The variables of a job by their names.
ghost use Rattle.std.specs.Prelude.{◌≡◌, ◌∷◌, ◌++◌, ◌≤◌, [], true, false, length, drop, if◌then◌else◌, None, Some, position, slice_get, unwrap_or, OnOk, OnErr, IfOk, IfErr, IfSome};
ghost use Rattle.std.specs.Borrow.{sem};
ghost use Rattle.std.specs.Option.{option_copied, option_copied_mut, MatchOption};
ghost use Rattle.std.specs.Map.{lookup, keys_of};
ghost use Rattle.std.specs.Prelude.{nat_eq};
ghost use Rattle.std.specs.Cmp.Lexicographic.{pointwise};
ghost use Rattle.sno_variables.specs.Variables.{variable_of, value_of, use_of, seen, is_named, put, given, reading, writing, detached, noted};
ghost use Rattle.sno_variables.specs.inner.Lending.{LendsVariable};
ghost use Rattle.sno_value.specs.Values.{null};
ghost use Rattle.sno_declarations.specs.Prototypes.{names_of, are_different};
ghost use Rattle.sno_variables.specs.Bindings.{paired};
ghost use Rattle.sno_variables.specs.Bindings.{assigned};
ghost use Rattle.sno_variables.specs.inner.Exchanging.{values_now};

use crate::exchanging::{exchange_known, take_back};
use crate::lookup::{assign_all, place_of, place_of_text};
use crate::recent::Recent;
use crate::variable::{Found, Variable};
use indexmap::IndexMap;
use sno_declarations::{Bindings, Input, Output, Prototype};
use sno_text::{Name, Named, Seed, Text};
use sno_value::Value;
use std::alloc::{AllocError, Global};
use std::marker::Model;
use std::mem;

/// Variables in the order in which they were first named, no two of one name. None is ever taken out, so that a place stays.
#[derive(Drop)]
pub struct Variables {
    variables: IndexMap<Name, Variable, Seed>,
    recent: Recent,
}

impl Model for Variables {
    ghost use Rattle.std.specs.Prelude.{ℕ, List};
    ghost use Rattle.std.specs.Coded.{codes};
    ghost use Rattle.sno_text.specs.inner.Codes.{pattern_code};
    ghost use Rattle.sno_variables.specs.declared.variable.Variable.{Variable};
    ghost use Rattle.sno_variables.specs.inner.Places.{AreDistinct};

    ghost Value = { List (List ℕ × Variable) };

    ghost coded = { Prim.hlevel (codes, pattern_code) };

    ghost view = { λ v. v.variables.entries };

    ghost invariant = { λ v. AreDistinct v.variables.entries };
}

impl Variables {
    /// No variables, with room for so many. They are found by a hash of this seed.
    ///
    /// # Errors
    ///
    /// Where a growth was refused.
    pub fn with_room(alloc: Global, seed: Seed, room: usize) -> Result<Variables, AllocError>
        ensures { IfOk result (λ variables. variables ≡ []) }
    {
        let variables = IndexMap::with_capacity_and_hasher(alloc, room, seed)?;
        Ok(Variables {
            variables,
            recent: Recent::new(),
        })
    }

    /// The variable of a name, which is told its place, and so are names like it that will be formed.
    #[inline(never)]
    fn find_told(&self, name: &Named) -> Option<&Variable>
        ensures { option_copied result ≡ lookup (pointwise nat_eq name.now) self.now }
    {
        match self.variables.get_full(name.name()) {
            Some((place, _, variable)) => {
                name.stands_at(place);
                self.recent.found_at(name.text().as_bytes(), place);
                Some(variable)
            }
            None => None,
        }
    }

    /// The variable of a name, which is looked for where one like it was found last.
    #[inline(never)]
    fn find_named(&self, name: &Named) -> Option<&Variable>
        ensures { option_copied result ≡ lookup (pointwise nat_eq name.now) self.now }
    {
        let hint = self.recent.place(name.text().as_bytes());
        match self.variables.get_index(hint) {
            Some((key, variable)) => {
                if key == name.name() {
                    name.stands_at(hint);
                    Some(variable)
                } else {
                    self.find_told(name)
                }
            }
            None => self.find_told(name),
        }
    }

    /// The variable of a name, which is looked for at its place first.
    #[inline(always)]
    fn find(&self, name: &Named) -> Option<&Variable>
        ensures { option_copied result ≡ lookup (pointwise nat_eq name.now) self.now }
    {
        match self.variables.get_index(name.place()) {
            Some((key, variable)) => {
                if key == name.name() {
                    Some(variable)
                } else {
                    self.find_named(name)
                }
            }
            None => self.find_named(name),
        }
    }

    /// What using a variable meets.
    #[inline(always)]
    pub fn found(&self, name: &Named) -> Found<'_>
        ensures { seen result ≡ use_of (variable_of name.now self.now) }
    {
        match self.find(name) {
            Some(variable) => match variable.input {
                Some(input) => Found::Reads(input),
                None => Found::Plain(&variable.value),
            },
            None => Found::Null,
        }
    }

    /// The value of a variable once more.
    ///
    /// # Errors
    ///
    /// Where as many share it as can be counted.
    pub fn value(&self, name: &Named) -> Result<Value, AllocError>
        ensures { IfOk result (λ v. v ≡ value_of name.now self.now) }
    {
        match self.find(name) {
            Some(variable) => variable.value.copy(),
            None => Ok(Value::null()),
        }
    }

    /// A variable that was named before, to be changed. It takes no memory.
    #[inline(always)]
    #[tactic(auto, using(crate::proofs::Places::lending))]
    fn find_mut(&mut self, name: &Named) -> Option<&mut Variable>
        ensures* lends { sem 𝓛 (LendsVariable self.entry name.now result) }
        ensures found { option_copied_mut result ≡ lookup (pointwise nat_eq name.now) self.old }
    {
        let place = place_of(&self.variables, &self.recent, name)?;
        self.variables.get_index_mut(place)
    }

    /// The same by a text, which tells no place. It takes no memory.
    #[tactic(auto, using(crate::proofs::Places::lending))]
    fn named_mut(&mut self, name: &Text) -> Option<&mut Variable>
        ensures* lends { sem 𝓛 (LendsVariable self.entry name.now result) }
        ensures found { option_copied_mut result ≡ lookup (pointwise nat_eq name.now) self.old }
    {
        let place = place_of_text(&self.variables, name)?;
        self.variables.get_index_mut(place)
    }

    fn put(&mut self, name: &Text, variable: Variable) -> Result<(), AllocError>
        ensures put { OnOk result (self.new ≡ put name.now variable self.old) }
        ensures unchanged { OnErr result (self.new ≡ self.old) }
    {
        let text = name.copy()?;
        match self.variables.insert(Name::new(text), variable) {
            Ok(_) => Ok(()),
            Err(_) => Err(AllocError),
        }
    }

    /// Gives a variable a value, and tells where that is to be written. One that was named before takes no memory.
    ///
    /// # Errors
    ///
    /// Where a growth was refused; nothing has changed then.
    #[inline(always)]
    #[tactic(auto, using(crate::proofs::Changing::giving))]
    pub fn give(&mut self, name: &Named, value: Value) -> Result<Option<Output>, AllocError>
        ensures given { OnOk result (self.new ≡ given name.now value self.old) }
        ensures output { IfOk result (λ output. output ≡ (variable_of name.now self.old).output) }
        ensures unchanged { OnErr result (self.new ≡ self.old) }
        ensures memory { OnErr result (is_named name.now self.old ≡ false) }
    {
        if let Some(variable) = self.find_mut(name) {
            variable.value = value;
            return Ok(variable.output);
        }
        self.put(name.text(), Variable::holding(value))?;
        Ok(None)
    }

    /// Exchanges the value of a variable for another, where it was named before and is written nowhere, and tells whether so it is.
    /// Otherwise nothing has changed. It takes no memory.
    #[inline(always)]
    #[tactic(auto, using(crate::proofs::Changing::exchanging))]
    pub fn replace(&mut self, name: &Named, value: &mut Value) -> bool
        ensures given { result ≡ true → self.new ≡ given name.now value.old self.old }
        ensures quiet { result ≡ true → (variable_of name.now self.old).output ≡ None }
        ensures unchanged { result ≡ false → (self.new ≡ self.old) × (value.new ≡ value.old) }
    {
        match self.find_mut(name) {
            Some(variable) => match variable.output {
                Some(_) => false,
                None => {
                    mem::swap(&mut variable.value, value);
                    true
                }
            },
            None => false,
        }
    }

    /// The value of a variable, and where it is to be written, if so it is.
    #[inline(always)]
    #[tactic(auto, using(crate::proofs::Changing::giving))]
    pub fn written(&self, name: &Named) -> Option<(&Value, Output)>
        ensures output { MatchOption result ((variable_of name.now self.now).output ≡ None) (λ pair. (variable_of name.now self.now).output ≡ Some pair.1) }
        ensures value { IfSome result (λ pair. pair.0.now ≡ value_of name.now self.now) }
    {
        match self.find(name) {
            Some(variable) => match variable.output {
                Some(output) => Some((&variable.value, output)),
                None => None,
            },
            None => None,
        }
    }

    /// Associates a variable with the records of a unit that its uses read. One that was named before takes no memory.
    ///
    /// # Errors
    ///
    /// Where a growth was refused; nothing has changed then.
    #[tactic(auto, using(crate::proofs::Changing::associating))]
    pub fn read_from(&mut self, name: &Text, input: Input) -> Result<(), AllocError>
        ensures reading { OnOk result (self.new ≡ reading name.now input self.old) }
        ensures unchanged { OnErr result (self.new ≡ self.old) }
        ensures memory { OnErr result (is_named name.now self.old ≡ false) }
    {
        if let Some(variable) = self.named_mut(name) {
            variable.input = Some(input);
            return Ok(());
        }
        let variable = Variable {
            value: Value::null(),
            input: Some(input),
            output: None,
        };
        self.put(name, variable)
    }

    /// Associates a variable with the unit that assignments to it write to. One that was named before takes no memory.
    ///
    /// # Errors
    ///
    /// Where a growth was refused; nothing has changed then.
    #[tactic(auto, using(crate::proofs::Changing::associating))]
    pub fn write_to(&mut self, name: &Text, output: Output) -> Result<(), AllocError>
        ensures writing { OnOk result (self.new ≡ writing name.now output self.old) }
        ensures unchanged { OnErr result (self.new ≡ self.old) }
        ensures memory { OnErr result (is_named name.now self.old ≡ false) }
    {
        if let Some(variable) = self.named_mut(name) {
            variable.output = Some(output);
            return Ok(());
        }
        let variable = Variable {
            value: Value::null(),
            input: None,
            output: Some(output),
        };
        self.put(name, variable)
    }

    /// Takes both associations of a variable away. One that was named before takes no memory.
    ///
    /// # Errors
    ///
    /// Where a growth was refused; nothing has changed then.
    #[tactic(auto, using(crate::proofs::Changing::associating))]
    pub fn detach(&mut self, name: &Text) -> Result<(), AllocError>
        ensures detached { OnOk result (self.new ≡ detached name.now self.old) }
        ensures unchanged { OnErr result (self.new ≡ self.old) }
        ensures memory { OnErr result (is_named name.now self.old ≡ false) }
    {
        if let Some(variable) = self.named_mut(name) {
            variable.input = None;
            variable.output = None;
            return Ok(());
        }
        self.put(name, Variable::holding(Value::null()))
    }

    /// Names a variable, and tells its place. One that was named before takes no memory.
    ///
    /// # Errors
    ///
    /// Where a growth was refused; nothing has changed then.
    #[tactic(auto, using(crate::proofs::Changing::naming))]
    pub fn note(&mut self, name: Text) -> Result<Named, AllocError>
        ensures name { IfOk result (λ named. named ≡ name) }
        ensures noted { OnOk result (self.new ≡ noted name self.old) }
        ensures unchanged { OnErr result (self.new ≡ self.old) }
        ensures memory { OnErr result (is_named name self.old ≡ false) }
    {
        let named = Named::new(name, self.variables.len());
        if let Some(place) = self.variables.get_index_of(named.name()) {
            named.stands_at(place);
            return Ok(named);
        }
        self.put(named.text(), Variable::holding(Value::null()))?;
        Ok(named)
    }

    fn add_value(&self, name: &Named, values: &mut Vec<Value>) -> Result<(), AllocError>
        ensures { OnOk result (values.new.items ≡ values.old.items ++ value_of name.now self.now ∷ []) }
    {
        let value = self.value(name)?;
        values.push(value)?;
        Ok(())
    }

    /// Puts the values of names behind others.
    #[tactic(auto, using(crate::proofs::Exchanged::adding))]
    fn add_values(&self, names: &[Named], values: &mut Vec<Value>) -> Result<(), AllocError>
        ensures { OnOk result (values.new.items ≡ values.old.items ++ values_now names.now self.now) }
    {
        let mut at = 0;
        while at < names.len() {
            self.add_value(&names[at], values)?;
            at += 1;
        }
        Ok(())
    }

    /// The values that a function's variables have.
    #[tactic(auto, using(crate::proofs::Exchanged::three_more))]
    fn values_now(&self, alloc: Global, prototype: &Prototype) -> Result<Vec<Value>, AllocError>
        ensures { IfOk result (λ values. values.items ≡ values_now (names_of prototype.now) self.now) }
    {
        let mut values = Vec::new(alloc);
        self.add_value(&prototype.name, &mut values)?;
        self.add_values(prototype.parameters.as_slice(), &mut values)?;
        self.add_values(prototype.locals.as_slice(), &mut values)?;
        Ok(values)
    }

    /// Gives each variable its value.
    ///
    /// # Errors
    ///
    /// The values, where a growth was refused; nothing has changed then.
    pub fn assign(&mut self, bindings: Bindings) -> Result<(), Bindings>
        ensures assigned { OnOk result (self.new ≡ assigned bindings self.old) }
        ensures unchanged { OnErr result (self.new ≡ self.old) }
        ensures given_back { IfErr result (λ back. back ≡ bindings) }
    {
        match self.variables.reserve(bindings.len()) {
            Ok(()) => {
                assign_all(&mut self.variables, &self.recent, bindings);
                Ok(())
            }
            Err(_) => Err(bindings),
        }
    }

    /// Exchanges the values of a function's variables for others, if all are named, and tells whether they are.
    #[tactic(auto, using(crate::proofs::Exchanged::taken_now))]
    fn exchange_named(&mut self, prototype: &Prototype, values: &mut Vec<Value>) -> bool
        requires different { are_different (names_of prototype.now) ≡ true }
        requires as_many { length values.old.items ≡ length (names_of prototype.now) }
        ensures assigned { self.new ≡ (if result then assigned (paired (names_of prototype.now) values.old.items) self.old else self.old) }
        ensures taken { values.new.items ≡ (if result then values_now (names_of prototype.now) self.old else values.old.items) }
    {
        let known = exchange_known(&mut self.variables, &self.recent, prototype, values);
        if known == values.len() {
            return true;
        }
        take_back(&mut self.variables, &self.recent, prototype, values, known);
        false
    }

    /// The same where one of them may not be named yet: names and values are copied.
    #[inline(never)]
    fn exchange_any(
        &mut self,
        alloc: Global,
        prototype: &Prototype,
        values: &mut Vec<Value>,
    ) -> Result<(), AllocError>
        requires as_many { length values.old.items ≡ length (names_of prototype.now) }
        ensures assigned { OnOk result (self.new ≡ assigned (paired (names_of prototype.now) values.old.items) self.old) }
        ensures taken { OnOk result (values.new.items ≡ values_now (names_of prototype.now) self.old) }
        ensures unchanged { OnErr result ((self.new ≡ self.old) × (values.new.items ≡ values.old.items)) }
    {
        let taken = self.values_now(alloc, prototype)?;
        let bindings = bindings_of(alloc, prototype, values.as_slice())?;
        match self.assign(bindings) {
            Ok(()) => {
                *values = taken;
                Ok(())
            }
            Err(_) => Err(AllocError),
        }
    }

    /// Exchanges the values of a function's variables for others, one for each. No value is copied where all are named, as they
    /// are after a first call.
    ///
    /// # Errors
    ///
    /// Where a growth was refused; nothing has changed then.
    pub fn exchange(
        &mut self,
        alloc: Global,
        prototype: &Prototype,
        values: &mut Vec<Value>,
    ) -> Result<(), AllocError>
        requires different { are_different (names_of prototype.now) ≡ true }
        requires as_many { length values.old.items ≡ length (names_of prototype.now) }
        ensures assigned { OnOk result (self.new ≡ assigned (paired (names_of prototype.now) values.old.items) self.old) }
        ensures taken { OnOk result (values.new.items ≡ values_now (names_of prototype.now) self.old) }
        ensures unchanged { OnErr result ((self.new ≡ self.old) × (values.new.items ≡ values.old.items)) }
    {
        if self.exchange_named(prototype, values) {
            return Ok(());
        }
        self.exchange_any(alloc, prototype, values)
    }
}

fn bind_one(name: &Named, value: Value, bindings: &mut Bindings) -> Result<(), AllocError>
    ensures { OnOk result (bindings.new ≡ (name.now, value) ∷ bindings.old) }
{
    let name = copy_of(name)?;
    bindings.push(name, value)
}

/// Puts names with the values for them before others.
#[tactic(auto, using(crate::proofs::Binding::paired_before, crate::proofs::Binding::none_paired))]
fn bind(names: &[Named], values: &[Value], bindings: &mut Bindings) -> Result<(), AllocError>
    ensures { OnOk result (bindings.new ≡ paired names.now values.now ++ bindings.old) }
{
    let mut left = names.len();
    while left > 0 {
        left -= 1;
        let value = value_at(values, left)?;
        bind_one(&names[left], value, bindings)?;
    }
    Ok(())
}

// The values behind so many.
fn behind(values: &[Value], count: usize) -> &[Value]
    requires { count ≤ length values.now }
    ensures { result.now ≡ drop count values.now }
{
    &values[count..]
}

/// The names of a function's variables with values.
#[tactic(auto, using(crate::proofs::Exchanged::binding))]
fn bindings_of(
    alloc: Global,
    prototype: &Prototype,
    values: &[Value],
) -> Result<Bindings, AllocError>
    requires { length values.now ≡ length (names_of prototype.now) }
    ensures { IfOk result (λ b. b ≡ paired (names_of prototype.now) values.now) }
{
    let mut bindings = Bindings::new(alloc);
    let parameters = prototype.parameters.as_slice();
    let further = behind(values, 1 + parameters.len());
    bind(prototype.locals.as_slice(), further, &mut bindings)?;
    bind(parameters, behind(values, 1), &mut bindings)?;
    let value = value_at(values, 0)?;
    bind_one(&prototype.name, value, &mut bindings)?;
    Ok(bindings)
}

/// The same name once more.
///
/// # Errors
///
/// Where as many share it as can be counted.
fn copy_of(name: &Named) -> Result<Named, AllocError>
    ensures { IfOk result (λ copy. copy ≡ name.now) }
{
    let text = name.text().copy()?;
    Ok(Named::new(text, name.place()))
}

/// The value at a place, and the null string where there is none.
///
/// # Errors
///
/// Where as many share it as can be counted.
pub fn value_at(values: &[Value], place: usize) -> Result<Value, AllocError>
    ensures { IfOk result (λ v. v ≡ unwrap_or (slice_get values.now place) null) }
{
    match values.get(place) {
        Some(value) => value.copy(),
        None => Ok(Value::null()),
    }
}
