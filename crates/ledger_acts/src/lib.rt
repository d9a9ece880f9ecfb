//! What the operator of a site does: it is made, data sets are put or put back, users come and go.
#![tactic(auto)]

pub mod archiving;
pub mod making;
pub mod moment;
pub mod operating;

pub use archiving::{Kept, archive};
pub use making::{Init, Sources, make_site};
pub use moment::{Moment, read_moment};
pub use operating::{
    NewGroups, NewUser, Put, Restore, accounts_of, add_user, catalogue_of, deck_of, del_user,
    limits_of, put_file, restore_set, set_groups, set_limits,
};
