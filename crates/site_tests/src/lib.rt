//! Tests of a site's crates, in a crate above them: its machine, its checkpoints, and what is done with these. They stand apart from the
//! crate `tests`, which so stands on no crate of a site. What a site's programs do is tried by `tools/tests/test_ledger_*.py`.
#![tactic(auto)]

#[cfg(test)]
mod bounds;
#[cfg(test)]
mod checkpoints;
#[cfg(test)]
mod life;
