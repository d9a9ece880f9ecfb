//! Who may do what: each account of a table on each data set of a catalogue.
ghost use Rattle.std.specs.Prelude.{◌≡◌, ◌++◌, OnOk};
ghost use Rattle.access_report.specs.Access.{rest_of_heading, heading, account_part, set_part, title, access_text};

use crate::answers::{put_csv_lines, put_line};
use crate::question::{Form, Question, is_asked};
use acl_text::put_short;
use mon_access::{Account, Accounts, compile};
use mon_catalogue::{Catalogue, DataSet};
use mon_text::{Name, put_number};
use std::alloc::AllocError;

/// Appends what each account of a table may do with each data set of a catalogue, as far as these are asked about: what the
/// access check answers, set by set and account by account in their orders, and none left out.
///
/// # Errors
///
/// Where a growth was refused; `out` may then hold a part of the text.
pub fn put_access(
    accounts: &Accounts,
    catalogue: &Catalogue,
    question: &Question,
    out: &mut Vec<u8>,
) -> Result<(), AllocError>
    ensures { OnOk result (out.new.items ≡ out.old.items ++ access_text question.now accounts.now catalogue.now) }
{
    put_title(question.form, out)?;
    for index in 0..catalogue.len() {
        if let Some((name, set)) = catalogue.at(index) {
            put_set_part(accounts, name, set, question, out)?;
        }
    }
    Ok(())
}

// Appends the names of the fields, where the lines have fields.
fn put_title(form: Form, out: &mut Vec<u8>) -> Result<(), AllocError>
    ensures { OnOk result (out.new.items ≡ out.old.items ++ title form) }
{
    match form {
        Form::Page => Ok(()),
        Form::Csv => out.extend_from_slice(b"account,set,permission,answer,entry\n"),
    }
}

// Appends what is told of a data set, if it is asked about.
fn put_set_part(
    accounts: &Accounts,
    name: &Name,
    set: &DataSet,
    question: &Question,
    out: &mut Vec<u8>,
) -> Result<(), AllocError>
    ensures { OnOk result (out.new.items ≡ out.old.items ++ set_part question.now accounts.now (name.now, set.now)) }
{
    if !is_asked(&question.set, name) {
        return Ok(());
    }
    put_heading(name, set, question.form, out)?;
    for index in 0..accounts.len() {
        if let Some(account) = accounts.at(index) {
            put_account_part(account, name, set, question, out)?;
        }
    }
    Ok(())
}

// Appends what is told of an account on a data set, if it is asked about.
fn put_account_part(
    account: &Account,
    name: &Name,
    set: &DataSet,
    question: &Question,
    out: &mut Vec<u8>,
) -> Result<(), AllocError>
    ensures { OnOk result (out.new.items ≡ out.old.items ++ account_part question.now (name.now, set.now) account.now) }
{
    if !is_asked(&question.account, &account.name) {
        return Ok(());
    }
    let ready = compile(account, &set.owner, &set.group, &set.acl);
    match question.form {
        Form::Page => put_line(&account.name, &set.acl, &ready, out),
        Form::Csv => put_csv_lines(name, &account.name, &set.acl, &ready, out),
    }
}

// Appends what stands before the lines of a data set's accounts.
fn put_heading(name: &Name, set: &DataSet, form: Form, out: &mut Vec<u8>) -> Result<(), AllocError>
    ensures { OnOk result (out.new.items ≡ out.old.items ++ heading form (name.now, set.now)) }
{
    match form {
        Form::Csv => return Ok(()),
        Form::Page => {}
    }
    out.extend_from_slice(b"SET ")?;
    out.extend_from_slice(name.as_bytes())?;
    out.extend_from_slice(b" OWNER ")?;
    out.extend_from_slice(set.owner.as_bytes())?;
    put_rest_of_heading(set, out)?;
    out.extend_from_slice(b"\nLIST ")?;
    put_short(&set.acl, out)?;
    out.push(b'\n')?;
    Ok(())
}

// Appends the heading's first line from the group on, without its end.
fn put_rest_of_heading(set: &DataSet, out: &mut Vec<u8>) -> Result<(), AllocError>
    ensures { OnOk result (out.new.items ≡ out.old.items ++ rest_of_heading set.now) }
{
    out.extend_from_slice(b" GROUP ")?;
    out.extend_from_slice(set.group.as_bytes())?;
    out.extend_from_slice(b" MODE ")?;
    out.extend_from_slice(set.mode.word())?;
    out.extend_from_slice(b" RECORDS ")?;
    put_number(set.records.len(), out)
}
