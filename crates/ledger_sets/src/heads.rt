//! What stands before the records of a data set, and whether two have the same.
ghost use Rattle.std.specs.Prelude.{◌≡◌, [], ◌∷◌, ◌++◌, nat_eq, codes, decimal, length, IfOk, OnOk};
ghost use Rattle.std.specs.Cmp.Lexicographic.{pointwise};
ghost use Rattle.acl_text.specs.Printing.{short_form};
ghost use Rattle.mon_catalogue.specs.Modes.{mode_word};
ghost use Rattle.ledger_sets.specs.Changes.{head_text, same_head};

use acl_text::put_short;
use mon_acl::Acl;
use mon_catalogue::DataSet;
use mon_text::{Name, put_number};
use std::alloc::{AllocError, Global};

// What stands before its records in a catalogue's text.
pub(crate) fn head_text(alloc: Global, name: &Name, set: &DataSet) -> Result<Vec<u8>, AllocError>
    ensures { IfOk result (λ text. text.items ≡ head_text (name.now, set.now)) }
{
    let mut text = Vec::new(alloc);
    put_names(name, set, &mut text)?;
    put_rest(set, &mut text)?;
    Ok(text)
}

fn put_names(name: &Name, set: &DataSet, out: &mut Vec<u8>) -> Result<(), AllocError>
    ensures { OnOk result (out.new.items ≡ out.old.items ++ codes "$SET " ++ name.now ++ codes " " ++ set.now.owner ++ codes " " ++ set.now.group) }
{
    out.extend_from_slice(b"$SET ")?;
    out.extend_from_slice(name.as_bytes())?;
    put_word(set.owner.as_bytes(), out)?;
    put_word(set.group.as_bytes(), out)?;
    Ok(())
}

fn put_rest(set: &DataSet, out: &mut Vec<u8>) -> Result<(), AllocError>
    ensures { OnOk result (out.new.items ≡ out.old.items ++ codes " " ++ mode_word set.now.mode ++ codes " " ++ decimal (length set.now.records)
        ++ 10 ∷ (short_form set.now.acl ++ 10 ∷ [])) }
{
    put_word(set.mode.word(), out)?;
    out.push(b' ')?;
    put_number(set.records.len(), out)?;
    put_list(&set.acl, out)?;
    Ok(())
}

// Puts a word behind another.
fn put_word(word: &[u8], out: &mut Vec<u8>) -> Result<(), AllocError>
    ensures { OnOk result (out.new.items ≡ out.old.items ++ codes " " ++ word.now) }
{
    out.push(b' ')?;
    out.extend_from_slice(word)?;
    Ok(())
}

// Puts the line of a list behind another line.
fn put_list(acl: &Acl, out: &mut Vec<u8>) -> Result<(), AllocError>
    ensures { OnOk result (out.new.items ≡ out.old.items ++ 10 ∷ (short_form acl.now ++ 10 ∷ [])) }
{
    out.push(b'\n')?;
    put_short(acl, out)?;
    out.push(b'\n')?;
    Ok(())
}

// Whether two data sets are the same but for their records.
pub(crate) fn same_head(alloc: Global, was: &DataSet, is: &DataSet) -> Result<bool, AllocError>
    ensures { IfOk result (λ same. same ≡ same_head was.now is.now) }
{
    if was.owner != is.owner {
        return Ok(false);
    }
    if was.group != is.group {
        return Ok(false);
    }
    if was.mode.word() != is.mode.word() {
        return Ok(false);
    }
    same_list(alloc, &was.acl, &is.acl)
}

fn same_list(alloc: Global, was: &Acl, is: &Acl) -> Result<bool, AllocError>
    ensures { IfOk result (λ same. same ≡ pointwise nat_eq (short_form was.now) (short_form is.now)) }
{
    let mut one = Vec::new(alloc);
    let mut other = Vec::new(alloc);
    put_short(was, &mut one)?;
    put_short(is, &mut other)?;
    Ok(one.as_slice() == other.as_slice())
}
