//! What is asked about: which accounts, which data sets, and how it is to be told.
ghost use Rattle.std.specs.Prelude.{◌≡◌};
ghost use Rattle.access_report.specs.Access.{is_asked};

use mon_text::Name;

/// How it is told who may do what.
#[derive(Clone, Copy)]
pub enum Form {
    /// For each data set its owner and its list, and a line an account.
    Page,
    /// A line for each data set, account and permission, with commas between its fields.
    Csv,
}

/// Who is asked about, with which data sets, and how it is to be told.
#[derive(Drop)]
pub struct Question {
    /// The one account that is asked about; all, where none is named.
    pub account: Option<Name>,
    /// The one data set that is asked about; all, where none is named.
    pub set: Option<Name>,
    /// How it is to be told.
    pub form: Form,
}

// Whether a name is asked about: it is the one that is named, or none is.
pub(crate) fn is_asked(asked: &Option<Name>, name: &Name) -> bool
    ensures { result ≡ is_asked asked.now name.now }
{
    match asked {
        Some(one) => one == name,
        None => true,
    }
}
