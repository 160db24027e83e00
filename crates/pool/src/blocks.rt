// Blocks: taken, freed, and exchanged for one of another class. Of the numbers that are handed on together: see the head of steps.rt.
ghost use Rattle.std.specs.Prelude.{◌≡◌, ◌≤◌, true, ◌+◌, length};
ghost use Rattle.sizes.specs.Class.{size_of};
ghost use Rattle.pool.specs.Numbers.{needs_block};
ghost use Rattle.pool.specs.Blocks as blocks;
ghost use Rattle.pool.specs.Steps.{CanAlloc, CanFree, CanRealloc, CanResize, Takes, freed};

use super::{ListPool, numbers};
use sizes::SizeClass;

impl ListPool {
    // Takes a block of the class c, and returns where it starts: the first of its chain, or a fresh one at the end of the used words, which the
    // reserved value fills.
    fn alloc(&mut self, pool: &mut [u32], c: u32) -> usize
        requires { CanAlloc self.old (length pool.old) c }
        ensures { Takes (length pool.old) (blocks.alloc self.old pool.old c) (size_of c) result self.new pool.new }
    {
        let i = c as usize;
        let head = self.heads[i] as usize;
        if head == 0 {
            let block = self.used as usize;
            let n = SizeClass::size(c);
            words::fill(pool, block, n, u32::MAX);
            self.used = (block + n) as u32;
            return block;
        }
        self.heads[i] = pool[head];
        head - 1
    }

    // Frees a block of the class c: it becomes the first of its chain.
    pub(super) fn free(&mut self, pool: &mut [u32], block: usize, c: u32)
        requires { CanFree (length pool.old) block c }
        ensures { freed self.new pool.new ≡ blocks.free self.old pool.old block c }
    {
        let i = c as usize;
        pool[block] = 0;
        pool[block + 1] = self.heads[i];
        self.heads[i] = (block + 1) as u32;
    }

    // Takes a block of the class to, copies the first n words there, frees the old block, of the class from, and returns where the new one starts.
    fn realloc(&mut self, pool: &mut [u32], block: usize, from: u32, to: u32, n: usize) -> usize
        requires { CanRealloc self.old (length pool.old) block from to n }
        ensures { Takes (length pool.old) (blocks.realloc self.old pool.old block from to n) (size_of to) result self.new pool.new }
    {
        let at = self.alloc(pool, to);
        words::copy(pool, block, at, n);
        self.free(pool, block, from);
        at
    }

    // Takes the block for the new length of the list at the handle h, which has the old one; it is called where another block is needed.
    fn moved_away(&mut self, pool: &mut [u32], h: u32, old: u32, new: u32) -> usize
        requires { (CanResize self.old (length pool.old) h old new) × (needs_block old new ≡ true) }
        ensures { Takes (length pool.old)
            (blocks.moved self.old pool.old h old new)
            (new + 1) result self.new pool.new }
    {
        let to = SizeClass::for_length(new);
        if old == 0 {
            return self.alloc(pool, to);
        }
        let from = SizeClass::for_length(old);
        self.realloc(pool, h as usize - 1, from, to, old.min(new) as usize + 1)
    }

    // Returns where the block starts that the list at the handle h, of the old length, lies in with the new one: its own, or another that is taken where
    // one is needed.
    #[inline(always)]
    pub(super) fn moved(&mut self, pool: &mut [u32], h: u32, old: u32, new: u32) -> usize
        requires { (CanResize self.old (length pool.old) h old new) × (1 ≤ new) }
        ensures { Takes (length pool.old)
            (blocks.moved self.old pool.old h old new)
            (new + 1) result self.new pool.new }
    {
        if numbers::needs_block(old, new) {
            self.moved_away(pool, h, old, new)
        } else {
            h as usize - 1
        }
    }
}
