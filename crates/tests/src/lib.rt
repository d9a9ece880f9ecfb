//! Tests of all layers but a site's, in a crate above them, so that no other is proved again for its tests. What a deck or a program
//! brings about is a case of the programs `rows` and `programs`; a site's crates have their tests in `site_tests`.
#![tactic(auto)]

#[cfg(test)]
mod access;
#[cfg(test)]
mod acl;
#[cfg(test)]
mod calls;
#[cfg(test)]
mod catalogue;
#[cfg(test)]
mod device;
#[cfg(test)]
mod errors;
#[cfg(test)]
mod feeding;
#[cfg(test)]
mod guard;
#[cfg(test)]
mod matching;
#[cfg(test)]
mod monitor;
#[cfg(test)]
mod options;
#[cfg(test)]
mod syntax;
#[cfg(test)]
mod values;
