//! Memory that is kept aside, so that one job that takes all the memory there is leaves some to others.
//!
//! Nothing touches it, so no page of it is used. Under a limit of the address space it is in nobody's hands until it is given up.
ghost use Rattle.std.specs.Prelude.{◌≡◌, ◌⊎◌, ◌<◌, ◌≤◌, ◌/◌, ◌==◌, not, nat_le, true, false, max, vec_len, vec_capacity};

use std::alloc::Global;

// What is kept at most. The C library gives back at once a block of more than 32 MB, and of a smaller one it learns to keep as large
// ones in its heap from then on, among what others take.
const WHOLE: u32 = 33 << 20;

// What is kept for a moment. It is so little that the C library takes it from its heap, without a call of the system.
const LITTLE: usize = 96 << 10;

// How often less is tried, each time half of it.
const HALVINGS: u32 = 6;

// So many bytes that are kept, or fewer, or none.
#[derive(Drop)]
pub(crate) struct Reserve {
    size: u32,
    block: Vec<u8>,
    ghost untouched: { vec_len block ≡ 0 },
}

impl Reserve {
    // One for so many bytes, of which none is kept.
    fn of(alloc: Global, size: u32) -> Reserve
        ensures size { result.size ≡ size }
        ensures none { vec_capacity result.block ≡ 0 }
    {
        Reserve {
            size,
            block: Vec::new(alloc),
        }
    }

    // One for a quarter of what there is, at most, which is kept.
    pub(crate) fn new(alloc: Global) -> Reserve {
        let mut reserve = Reserve::of(alloc, quarter(alloc));
        reserve.take(alloc);
        reserve
    }

    // One for as many bytes, of which none is kept.
    pub(crate) fn another(&self, alloc: Global) -> Reserve
        ensures size { result.size ≡ self.now.size }
        ensures none { vec_capacity result.block ≡ 0 }
    {
        Reserve::of(alloc, self.size)
    }

    // Keeps so many bytes, if they can be had. It stays a call: a compiler that saw that nothing reads them would not take them.
    #[inline(never)]
    fn keep(&mut self, alloc: Global, bytes: usize) -> bool
        ensures kept { result ≡ true → vec_capacity self.new.block ≡ bytes }
        ensures left { result ≡ false → self.new ≡ self.old }
        ensures size { self.new.size ≡ self.old.size }
    {
        match Vec::with_capacity(alloc, bytes) {
            Ok(block) => {
                self.block = block;
                true
            }
            Err(_) => false,
        }
    }

    // Whether all of it is kept.
    fn is_whole(&self) -> bool
        ensures { result ≡ nat_le self.now.size (vec_capacity self.now.block) }
    {
        self.size as usize <= self.block.capacity()
    }

    // Keeps what can be had: all, or half of it, and so on. Where all is kept, it stays.
    pub(crate) fn take(&mut self, alloc: Global) {
        if self.is_whole() {
            return;
        }
        for halvings in 0..HALVINGS {
            if self.keep(alloc, (self.size >> halvings) as usize) {
                return;
            }
        }
    }

    // Keeps a little, if it can be had. What is kept already stays.
    pub(crate) fn take_little(&mut self, alloc: Global)
        ensures at_most { vec_capacity self.new.block ≤ max (vec_capacity self.old.block) 98304 }
        ensures stays { vec_capacity self.old.block ≤ vec_capacity self.new.block }
        ensures size { self.new.size ≡ self.old.size }
    {
        if self.block.capacity() < LITTLE {
            self.keep(alloc, LITTLE);
        }
    }

    // Keeps all of it from now on, if all is kept and a little can be had beside it; else gives up all.
    pub(crate) fn stay(&mut self, alloc: Global)
        ensures stays { (self.new ≡ self.old) ⊎ (vec_capacity self.new.block ≡ 0) }
        ensures whole { vec_capacity self.old.block < self.old.size → vec_capacity self.new.block ≡ 0 }
        ensures size { self.new.size ≡ self.old.size }
    {
        if !self.is_whole() || !Reserve::of(alloc, 0).keep(alloc, LITTLE) {
            self.give_up();
        }
    }

    // Gives up all: whether there was any.
    pub(crate) fn give_way(&mut self) -> bool
        ensures told { result ≡ not (vec_capacity self.old.block == 0) }
        ensures none { vec_capacity self.new.block ≡ 0 }
        ensures size { self.new.size ≡ self.old.size }
    {
        if self.block.capacity() == 0 {
            return false;
        }
        self.give_up();
        true
    }

    // Keeps all again, where there is room for twice as much, so that others are left as much.
    pub(crate) fn fill(&mut self, alloc: Global)
        ensures at_most { vec_capacity self.new.block ≤ max (vec_capacity self.old.block) self.old.size }
        ensures size { self.new.size ≡ self.old.size }
    {
        let size = self.size;
        if self.block.capacity() < size as usize && there_is(alloc, size, 2) {
            self.give_up();
            self.keep(alloc, size as usize);
        }
    }

    // Gives up half of what is kept.
    pub(crate) fn halve(&mut self)
        ensures at_most { vec_capacity self.new.block ≤ vec_capacity self.old.block }
        ensures half { vec_capacity self.old.block / 2 ≤ vec_capacity self.new.block }
        ensures size { self.new.size ≡ self.old.size }
    {
        self.block.shrink_to(self.block.capacity() / 2);
    }

    // Gives up all.
    pub(crate) fn give_up(&mut self)
        ensures none { vec_capacity self.new.block ≡ 0 }
        ensures size { self.new.size ≡ self.old.size }
    {
        self.block.shrink_to(0);
    }
}

// A quarter of what there is, or less.
fn quarter(alloc: Global) -> u32 {
    for halvings in 0..HALVINGS {
        let size = WHOLE >> halvings;
        if there_is(alloc, size, 4) {
            return size;
        }
    }
    0
}

// Whether there is room for so many times this size.
fn there_is(alloc: Global, size: u32, times: usize) -> bool
    requires { times ≤ 4 }
{
    Reserve::of(alloc, 0).keep(alloc, size as usize * times)
}
