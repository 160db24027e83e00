// The calls that make a list longer. Why pool, table and slot stand apart: see the head of steps.rt.
ghost use Rattle.std.specs.Prelude.{◌≡◌, ◌+◌, ◌≤◌, length};
ghost use Rattle.pool.specs.Numbers.{handle_at};
ghost use Rattle.pool.specs.Rules as rules;
ghost use Rattle.pool.specs.Rules.{answer, called, outcome, len_of};
ghost use Rattle.pool.specs.Steps.{CanCopy, Meets, Ready};

use super::{Answer, ListPool, numbers, steps};

impl ListPool {
    // Does a `push`, and returns the old length: writes the element behind the others, in the list's own block or in another where one is needed, and
    // the length last.
    fn push_done(&mut self, pool: &mut [u32], handles: &mut [u32], slot: usize, element: u32) -> u32
        requires { Ready self.old pool.old handles.old slot (len_of pool.old handles.old slot + 1) }
        ensures { Meets (length pool.old)
            (rules.push_done self.old pool.old handles.old slot element)
            slot (len_of pool.old handles.old slot + 1) (answer 0 result self.new) pool.new handles.new }
    {
        let h = handles[slot];
        let old = numbers::length_at(pool, h);
        let new = old as usize + 1;
        let block = self.moved(pool, h, old, old + 1);
        pool[block + new] = element;
        steps::seat(pool, handles, slot, block, old + 1);
        old
    }

    // Does an `extend`: grows the list, and fills the places that opens at its end with the elements.
    pub(super) fn extend_done(
        &mut self,
        pool: &mut [u32],
        handles: &mut [u32],
        slot: usize,
        elements: &[u32],
    )
        requires { Ready self.old pool.old handles.old slot (len_of pool.old handles.old slot + length elements.now) }
        ensures { outcome (answer 0 0 self.new) pool.new handles.new
            ≡ rules.extend_done self.old pool.old handles.old slot elements.now }
    {
        let old = numbers::length_at(pool, handles[slot]) as usize;
        self.grow(pool, handles, slot, elements.len());
        let first = handles[slot] as usize;
        words::store(pool, first + old, elements);
    }

    // Opens a count of places in the list in a slot, and returns where they start in the pool: grows the list, and shifts the tail up from the position
    // on. It is made part of what it serves, for speed.
    #[inline(always)]
    fn opened(
        &mut self,
        pool: &mut [u32],
        handles: &mut [u32],
        slot: usize,
        position: usize,
        count: usize,
    ) -> usize
        requires { (position ≤ len_of pool.old handles.old slot)
            × (Ready self.old pool.old handles.old slot (len_of pool.old handles.old slot + count)) }
        ensures rule { outcome (answer 0 0 self.new) pool.new handles.new
            ≡ rules.opened self.old pool.old handles.old slot position count }
        ensures place { (result ≡ handle_at handles.new slot + position) × (result + count ≤ length pool.new) }
    {
        let old = numbers::length_at(pool, handles[slot]) as usize;
        self.grow(pool, handles, slot, count);
        let at = handles[slot] as usize + position;
        words::copy(pool, at, at + count, old - position);
        at
    }

    // Does a `copy_from`: opens places for the source's range, and copies it there. Start and end are those of the call.
    fn copy_from_done(
        &mut self,
        pool: &mut [u32],
        handles: &mut [u32],
        slot: usize,
        source: usize,
        start: usize,
        end: usize,
        position: usize,
    )
        requires { CanCopy self.old pool.old handles.old slot source start end position }
        ensures { outcome (answer 0 0 self.new) pool.new handles.new
            ≡ rules.copy_from_done self.old pool.old handles.old slot source start end position }
    {
        let from = handles[source] as usize + start;
        let count = end - start;
        let at = self.opened(pool, handles, slot, position, count);
        words::copy(pool, from, at, count);
    }

    // Does an `insert`, as its rule says: pushes the element, shifts the tail up by one, and writes the element at the position.
    fn insert_done(
        &mut self,
        pool: &mut [u32],
        handles: &mut [u32],
        slot: usize,
        position: usize,
        element: u32,
    )
        requires { (position ≤ len_of pool.old handles.old slot)
            × (Ready self.old pool.old handles.old slot (len_of pool.old handles.old slot + 1)) }
        ensures { outcome (answer 0 0 self.new) pool.new handles.new
            ≡ rules.insert_done self.old pool.old handles.old slot position element }
    {
        let old = self.push_done(pool, handles, slot, element) as usize;
        let at = handles[slot] as usize + position;
        words::copy(pool, at, at + 1, old - position);
        pool[at] = element;
    }

    // Appends an element to the list in a slot; the value is the old length.
    pub fn push(
        mut self,
        pool: &mut [u32],
        handles: &mut [u32],
        slot: usize,
        element: u32,
    ) -> Answer
        ensures { outcome result pool.new handles.new
            ≡ called (rules.push slot element) self pool.old handles.old }
    {
        match self.check_grow(pool, handles, slot, 1) {
            Ok(()) => {
                let old = self.push_done(pool, handles, slot, element);
                self.done(old)
            }
            Err(refusal) => self.refused(refusal),
        }
    }

    // Appends the elements to the list in a slot.
    pub fn extend(
        mut self,
        pool: &mut [u32],
        handles: &mut [u32],
        slot: usize,
        elements: &[u32],
    ) -> Answer
        ensures { outcome result pool.new handles.new
            ≡ called (rules.extend slot elements.now) self pool.old handles.old }
    {
        match self.check_grow(pool, handles, slot, elements.len()) {
            Ok(()) => {
                self.extend_done(pool, handles, slot, elements);
                self.done(0)
            }
            Err(refusal) => self.refused(refusal),
        }
    }

    // Copies the elements from start to end (paper 01 has these two, and no range) of the list in the slot `source` into the list in a slot, at a position.
    pub fn copy_from(
        mut self,
        pool: &mut [u32],
        handles: &mut [u32],
        slot: usize,
        source: usize,
        start: usize,
        end: usize,
        position: usize,
    ) -> Answer
        ensures { outcome result pool.new handles.new
            ≡ called (rules.copy_from slot source start end position) self pool.old handles.old }
    {
        match self.check_copy_from(pool, handles, slot, source, start, end, position) {
            Ok(()) => {
                self.copy_from_done(pool, handles, slot, source, start, end, position);
                self.done(0)
            }
            Err(refusal) => self.refused(refusal),
        }
    }

    // Puts an element at a position of the list in a slot; those from there on shift up.
    pub fn insert(
        mut self,
        pool: &mut [u32],
        handles: &mut [u32],
        slot: usize,
        position: usize,
        element: u32,
    ) -> Answer
        ensures { outcome result pool.new handles.new
            ≡ called (rules.insert slot position element) self pool.old handles.old }
    {
        match self.check_grow_at(pool, handles, slot, position, 1) {
            Ok(()) => {
                self.insert_done(pool, handles, slot, position, element);
                self.done(0)
            }
            Err(refusal) => self.refused(refusal),
        }
    }

    // Grows the list in a slot by a count at a position; the places that opens keep what stood there.
    pub fn grow_at(
        mut self,
        pool: &mut [u32],
        handles: &mut [u32],
        slot: usize,
        position: usize,
        count: usize,
    ) -> Answer
        ensures { outcome result pool.new handles.new
            ≡ called (rules.grow_at slot position count) self pool.old handles.old }
    {
        match self.check_grow_at(pool, handles, slot, position, count) {
            Ok(()) => {
                self.opened(pool, handles, slot, position, count);
                self.done(0)
            }
            Err(refusal) => self.refused(refusal),
        }
    }
}
