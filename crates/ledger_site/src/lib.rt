//! What a site's operator and its runs do to the ledger, over any disk, any boxes and any machine: acts that change the data sets or the
//! tables, files that are taken up, submissions that are run and answered, and what the commits said at an earlier time.
#![tactic(auto)]

pub mod acts;
pub mod claiming;
pub mod owners;
pub mod past;
pub mod serving;
pub mod stretch;
pub mod taking;
pub mod verifying;

pub use acts::{Act, edit, found};
pub use claiming::{Claimed, claim_all};
pub use owners::owners_of;
pub use past::{Said, change_in, count_behind, read_said, state_behind};
pub use serving::{Came, try_some};
pub use stretch::{Stretch, stretch_of};
pub use taking::{Held, take_each};
pub use verifying::{first_broken, first_other};
