//! Prototypes of functions.
ghost use Rattle.std.specs.Prelude.{◌≡◌, ◌==◌, position, ◌∷◌, ◌++◌, ◌<◌, [], length, ⊤, if◌then◌else◌, IfOk, IfSome, MatchOption};
ghost use Rattle.std.specs.List.{list_all, slice_split};
ghost use Rattle.std.specs.Option.{option_map};
ghost use Rattle.mon_text.specs.Lines.{is_blank_line};
ghost use Rattle.sno_declarations.specs.Prototypes.{is_identifier, trimmed, cut_at, names_of, are_different, prototype_with, prototype_of};
ghost use Rattle.sno_declarations.specs.inner.Reading.{told, listed, items_from, both_listed, Meets};
ghost use Rattle.mon_text.specs.Characters.{is_identifier_character, is_comma, is_blank};
ghost use Rattle.mon_text.specs.Beginnings.{without_leading};

use mon_text::Listed;
use sno_text::{Named, Text, without_trailing_blanks};
use std::alloc::{AllocError, Global};
use std::collections::BTreeSet;

/// Names in order.
pub type Names = Listed<Named>;

/// What a prototype says of a function.
#[derive(Drop)]
pub struct Prototype {
    /// Its name.
    pub name: Named,
    /// The names of its parameters.
    pub parameters: Names,
    /// The names of its other variables.
    pub locals: Names,
}

fn is_identifier_character(code: u8) -> bool
    ensures { result ≡ is_identifier_character code }
{
    code.is_ascii_alphabetic() || code.is_ascii_digit() || code == b'.' || code == b'_'
}

fn are_identifier_characters(text: &[u8]) -> bool
    ensures { result ≡ list_all is_identifier_character text.now }
{
    text.iter().all(|code| is_identifier_character(*code))
}

fn is_identifier(text: &[u8]) -> bool
    ensures { result ≡ is_identifier text.now }
{
    match text.split_first() {
        None => false,
        Some((first, rest)) => first.is_ascii_alphabetic() && are_identifier_characters(rest),
    }
}

fn is_blank_line(text: &[u8]) -> bool
    ensures { result ≡ is_blank_line text.now }
{
    text.iter().all(|code| *code == b' ')
}

fn without_leading_blanks(text: &[u8]) -> &[u8]
    ensures { result.now ≡ without_leading is_blank text.now }
{
    let mut from = 0;
    while from < text.len() && text[from] == b' ' {
        from += 1;
    }
    &text[from..]
}

fn trimmed(text: &[u8]) -> &[u8]
    ensures { result.now ≡ trimmed text.now }
{
    without_trailing_blanks(without_leading_blanks(text))
}

/// The first place of a character.
fn place_of(text: &[u8], at: u8) -> Option<usize>
    ensures place { result ≡ position (λ code. code == at) text.now }
    ensures within { IfSome result (λ place. place < length text.now) }
{
    text.iter().position(|code| *code == at)
}

/// What stands before a character's first place, and behind it.
fn cut_at(text: &[u8], at: u8) -> Option<(&[u8], &[u8])>
    ensures cut { option_map told result ≡ cut_at at text.now }
    ensures shorter { IfSome result (λ parts. length parts.1.now < length text.now) }
{
    match place_of(text, at) {
        Some(place) => Some((&text[..place], &text[place + 1..])),
        None => None,
    }
}

/// The first item of a list, and what stands behind its comma.
fn next_item(text: &[u8]) -> (&[u8], Option<&[u8]>)
    ensures split { slice_split is_comma text.now ≡ result.0.now ∷ items_from result.1 }
    ensures shorter { MatchOption result.1 ⊤ (λ rest. length rest.now < length text.now) }
{
    match cut_at(text, b',') {
        Some((item, rest)) => (item, Some(rest)),
        None => (text, None),
    }
}

/// Adds an item, if it is an identifier.
fn add_item(alloc: Global, names: &mut Names, item: &[u8]) -> Result<bool, AllocError>
    ensures is { IfOk result (λ is. is ≡ is_identifier (trimmed item.now)) }
    ensures added { IfOk result (λ is. names.new ≡ (if is then names.old ++ trimmed item.now ∷ [] else names.old)) }
{
    let name = trimmed(item);
    if !is_identifier(name) {
        return Ok(false);
    }
    let name = Text::of_slice(alloc, name)?;
    names.push(Named::new(name, 0))?;
    Ok(true)
}

/// The items of a list, if they are identifiers.
fn read_items(alloc: Global, text: &[u8]) -> Result<Option<Names>, AllocError>
    ensures { IfOk result (λ names. names ≡ listed text.now) }
{
    let mut names = Names::new(alloc);
    if is_blank_line(text) {
        return Ok(Some(names));
    }
    let mut left = Some(text);
    while let Some(text) = left {
        let (item, rest) = next_item(text);
        if !add_item(alloc, &mut names, item)? {
            return Ok(None);
        }
        left = rest;
    }
    Ok(Some(names))
}

/// The items of two lists, if they are identifiers.
fn read_lists(
    alloc: Global,
    parameters: &[u8],
    locals: &[u8],
) -> Result<Option<(Names, Names)>, AllocError>
    ensures { IfOk result (λ lists. lists ≡ both_listed (listed parameters.now) (listed locals.now)) }
{
    let parameters = read_items(alloc, parameters)?;
    let locals = read_items(alloc, locals)?;
    match (parameters, locals) {
        (Some(parameters), Some(locals)) => Ok(Some((parameters, locals))),
        _ => Ok(None),
    }
}

/// Puts a name among others, unless it is one of them.
fn meet(met: &mut BTreeSet<Text>, name: &Named) -> Result<bool, AllocError>
    ensures { IfOk result (λ new. Meets new met.old met.new (name.now ∷ [])) }
{
    let name = name.text().copy()?;
    let new = met.insert(name)?;
    Ok(new)
}

/// Puts names among others, from the last on, as far as each is new.
fn meet_all(met: &mut BTreeSet<Text>, names: &[Named]) -> Result<bool, AllocError>
    ensures { IfOk result (λ new. Meets new met.old met.new names.now) }
{
    let mut left = names.len();
    while left > 0 {
        left -= 1;
        if !meet(met, &names[left])? {
            return Ok(false);
        }
    }
    Ok(true)
}

/// Whether all names of a function's variables are different.
fn are_different(alloc: Global, prototype: &Prototype) -> Result<bool, AllocError>
    ensures { IfOk result (λ is. is ≡ are_different (names_of prototype.now)) }
{
    let mut met = BTreeSet::new(alloc);
    if !meet_all(&mut met, prototype.locals.as_slice())? {
        return Ok(false);
    }
    if !meet_all(&mut met, prototype.parameters.as_slice())? {
        return Ok(false);
    }
    meet(&mut met, &prototype.name)
}

/// The prototype that a name and two lists make.
fn read_parts(
    alloc: Global,
    name: &[u8],
    parameters: &[u8],
    locals: &[u8],
) -> Result<Option<Prototype>, AllocError>
    ensures { IfOk result (λ prototype. prototype ≡ prototype_with name.now (parameters.now, locals.now)) }
{
    let name = trimmed(name);
    if !is_identifier(name) {
        return Ok(None);
    }
    let Some((parameters, locals)) = read_lists(alloc, parameters, locals)? else {
        return Ok(None);
    };
    let name = Text::of_slice(alloc, name)?;
    let prototype = Prototype {
        name: Named::new(name, 0),
        parameters,
        locals,
    };
    if are_different(alloc, &prototype)? {
        Ok(Some(prototype))
    } else {
        Ok(None)
    }
}

/// Reads a prototype, as `F(A,B)L1,L2`: a name, and the names of parameters and of other variables, all identifiers
/// and all different. Blanks may stand round each.
///
/// # Errors
///
/// Where a growth was refused.
pub fn read_prototype(alloc: Global, text: &[u8]) -> Result<Option<Prototype>, AllocError>
    ensures { IfOk result (λ prototype. prototype ≡ prototype_of text.now) }
{
    let Some((name, rest)) = cut_at(text, b'(') else {
        return Ok(None);
    };
    let Some((parameters, locals)) = cut_at(rest, b')') else {
        return Ok(None);
    };
    read_parts(alloc, name, parameters, locals)
}
