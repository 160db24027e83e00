// The calls that make a list shorter or empty, and the pool's clear. Why pool, table and slot stand apart: see the head of steps.rt.
ghost use Rattle.std.specs.Prelude.{◌≡◌, ◌-◌, min};
ghost use Rattle.pool.specs.Rules as rules;
ghost use Rattle.pool.specs.Rules.{answer, called, len_of, outcome};
ghost use Rattle.pool.specs.Steps.{HasAt, Ready};

use super::{Answer, ListPool, Refusal, checks, numbers};

impl ListPool {
    // Does a `remove`: shifts the elements behind the position down by one, and gives up the last place.
    fn remove_done(&mut self, pool: &mut [u32], handles: &mut [u32], slot: usize, position: usize)
        requires { (HasAt pool.old handles.old slot position)
            × (Ready self.old pool.old handles.old slot (len_of pool.old handles.old slot - 1)) }
        ensures { outcome (answer 0 0 self.new) pool.new handles.new
            ≡ rules.remove_done self.old pool.old handles.old slot position }
    {
        let h = handles[slot];
        let old = numbers::length_at(pool, h);
        let at = h as usize + position;
        words::copy(pool, at + 1, at, old as usize - (position + 1));
        self.resize(pool, handles, slot, h, old, old - 1);
    }

    // Does a `swap_remove`: exchanges the element with the last, and gives up the last place.
    fn swap_remove_done(
        &mut self,
        pool: &mut [u32],
        handles: &mut [u32],
        slot: usize,
        position: usize,
    )
        requires { (HasAt pool.old handles.old slot position)
            × (Ready self.old pool.old handles.old slot (len_of pool.old handles.old slot - 1)) }
        ensures { outcome (answer 0 0 self.new) pool.new handles.new
            ≡ rules.swap_remove_done self.old pool.old handles.old slot position }
    {
        let h = handles[slot];
        let old = numbers::length_at(pool, h);
        let first = h as usize;
        pool.swap(first + position, first + (old as usize - 1));
        self.resize(pool, handles, slot, h, old, old - 1);
    }

    // Does a `truncate`: nothing where the new length is the old one or more, else it gives the list the new length; to 0 it clears.
    fn truncate_done(&mut self, pool: &mut [u32], handles: &mut [u32], slot: usize, new: usize)
        requires { Ready self.old pool.old handles.old slot (min (len_of pool.old handles.old slot) new) }
        ensures { outcome (answer 0 0 self.new) pool.new handles.new
            ≡ rules.truncate_done self.old pool.old handles.old slot new }
    {
        let h = handles[slot];
        let old = numbers::length_at(pool, h);
        if new < old as usize {
            self.resize(pool, handles, slot, h, old, new as u32);
        }
    }

    // Removes all elements from the list in a slot, and gives its block back. Why it answers once: see the head of answers.rt.
    pub fn clear(mut self, pool: &mut [u32], handles: &mut [u32], slot: usize) -> Answer
        ensures { outcome result pool.new handles.new
            ≡ called (rules.clear slot) self pool.old handles.old }
    {
        let number = match self.check_entry(pool, handles, slot) {
            Ok(()) => {
                let h = handles[slot];
                if h != 0 {
                    let len = numbers::length_at(pool, h);
                    self.release(pool, handles, slot, h, len);
                }
                0
            }
            Err(refusal) => u32::from(refusal),
        };
        Answer {
            number,
            ..self.done(0)
        }
    }

    // Removes the element at a position of the list in a slot; those behind it shift down.
    pub fn remove(
        mut self,
        pool: &mut [u32],
        handles: &mut [u32],
        slot: usize,
        position: usize,
    ) -> Answer
        ensures { outcome result pool.new handles.new
            ≡ called (rules.remove slot position) self pool.old handles.old }
    {
        match self.check_remove(pool, handles, slot, position) {
            Ok(()) => {
                self.remove_done(pool, handles, slot, position);
                self.done(0)
            }
            Err(refusal) => self.refused(refusal),
        }
    }

    // Removes the element at a position of the list in a slot; the last takes its place.
    pub fn swap_remove(
        mut self,
        pool: &mut [u32],
        handles: &mut [u32],
        slot: usize,
        position: usize,
    ) -> Answer
        ensures { outcome result pool.new handles.new
            ≡ called (rules.swap_remove slot position) self pool.old handles.old }
    {
        match self.check_remove(pool, handles, slot, position) {
            Ok(()) => {
                self.swap_remove_done(pool, handles, slot, position);
                self.done(0)
            }
            Err(refusal) => self.refused(refusal),
        }
    }

    // Shortens the list in a slot to the new length; does nothing where it is no longer than that.
    pub fn truncate(
        mut self,
        pool: &mut [u32],
        handles: &mut [u32],
        slot: usize,
        new: usize,
    ) -> Answer
        ensures { outcome result pool.new handles.new
            ≡ called (rules.truncate slot new) self pool.old handles.old }
    {
        match self.check_truncate(pool, handles, slot, new) {
            Ok(()) => {
                self.truncate_done(pool, handles, slot, new);
                self.done(0)
            }
            Err(refusal) => self.refused(refusal),
        }
    }

    // Clears the pool: nothing is used, no block is free, and every list is empty. No word of the pool is touched.
    pub fn clear_pool(self, pool: &[u32], handles: &mut [u32]) -> Answer
        ensures { outcome result pool.now handles.new
            ≡ called (rules.clear_pool) self pool.now handles.old }
    {
        if checks::too_long(pool.len(), handles.len()) {
            return self.refused(Refusal::OverLimit);
        }
        handles.fill(0);
        ListPool::default().done(0)
    }
}
