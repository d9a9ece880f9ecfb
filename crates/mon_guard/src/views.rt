//! What the guard lends of a data set.
use mon_acl::Acl;
use mon_text::Name;
use std::marker::Model;

/// Who owns a data set, its group and its permission list: all of the set but its records.
#[derive(Drop)]
pub struct AclView<'a> {
    pub owner: &'a Name,
    pub group: &'a Name,
    pub acl: &'a Acl,
}

impl<'a> Model for AclView<'a> {
    ghost use Rattle.mon_guard.specs.Views.{AclPart};

    ghost Value = { AclPart };

    ghost view = { λ s. record { owner = s.owner.now; group = s.group.now; acl = s.acl.now } };
}

/// The name of a data set, who owns it, its group, and how many records it has.
#[derive(Drop)]
pub struct NameView<'a> {
    pub name: &'a Name,
    pub owner: &'a Name,
    pub group: &'a Name,
    pub records: u64,
}

impl<'a> Model for NameView<'a> {
    ghost use Rattle.mon_guard.specs.Views.{NamePart};

    ghost Value = { NamePart };

    ghost view = { λ s. record { name = s.name.now; owner = s.owner.now; group = s.group.now; records = s.records } };
}
