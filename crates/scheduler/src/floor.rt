//! What turns are given over.
ghost use Rattle.mon_guard.specs.Cache.{CacheFits};

use mon_catalogue::Catalogue;
use mon_guard::Guard;
use std::alloc::Global;

/// The data sets and their guard, and an audit, to which what is asked in turns and that a job has ended is put, a line each.
///
/// What the guard keeps of its decisions fits the data sets.
#[derive(Drop)]
pub struct Floor<'a, 'b, 'c, S> {
    pub alloc: Global,
    pub guard: &'a mut Guard,
    pub catalogue: &'b mut Catalogue,
    pub audit: &'c mut S,
    ghost fit: { CacheFits guard.now catalogue.now },
}
