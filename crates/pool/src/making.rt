// The calls that put a list into an empty slot. Why pool, table and slot stand apart: see the head of steps.rt.
ghost use Rattle.std.specs.Prelude.{◌≡◌, ◌+◌, length};
ghost use Rattle.pool.specs.Rules as rules;
ghost use Rattle.pool.specs.Rules.{answer, called, len_of, outcome};
ghost use Rattle.pool.specs.Facts.{Entered};
ghost use Rattle.pool.specs.Steps.{Ready};

use super::{Answer, ListPool, numbers};

impl ListPool {
    // Does a `deep_clone`: grows the empty list to the length of the list in the slot, and copies that list's elements there.
    fn deep_clone_done(&mut self, pool: &mut [u32], handles: &mut [u32], slot: usize, to: usize)
        requires { (Entered self.old.used pool.old handles.old slot)
            × (Ready self.old pool.old handles.old to (len_of pool.old handles.old to + len_of pool.old handles.old slot)) }
        ensures { outcome (answer 0 0 self.new) pool.new handles.new
            ≡ rules.deep_clone_done self.old pool.old handles.old slot to }
    {
        let h = handles[slot];
        let len = numbers::length_at(pool, h) as usize;
        self.grow(pool, handles, to, len);
        let at = handles[to] as usize;
        words::copy(pool, h as usize, at, len);
    }

    // Puts a list of the elements into an empty slot: extends the empty list by them.
    pub fn from_slice(
        mut self,
        pool: &mut [u32],
        handles: &mut [u32],
        slot: usize,
        elements: &[u32],
    ) -> Answer
        ensures { outcome result pool.new handles.new
            ≡ called (rules.from_slice slot elements.now) self pool.old handles.old }
    {
        match self.check_from_slice(pool, handles, slot, elements.len()) {
            Ok(()) => {
                self.extend_done(pool, handles, slot, elements);
                self.done(0)
            }
            Err(refusal) => self.refused(refusal),
        }
    }

    // Puts a copy of the list in a slot into the empty slot `to`.
    pub fn deep_clone(
        mut self,
        pool: &mut [u32],
        handles: &mut [u32],
        slot: usize,
        to: usize,
    ) -> Answer
        ensures { outcome result pool.new handles.new
            ≡ called (rules.deep_clone slot to) self pool.old handles.old }
    {
        match self.check_deep_clone(pool, handles, slot, to) {
            Ok(()) => {
                self.deep_clone_done(pool, handles, slot, to);
                self.done(0)
            }
            Err(refusal) => self.refused(refusal),
        }
    }

    // Moves the list in a slot to the empty slot `to`. Why it answers once: see the head of answers.rt.
    pub fn take(self, pool: &[u32], handles: &mut [u32], slot: usize, to: usize) -> Answer
        ensures { outcome result pool.now handles.new
            ≡ called (rules.take slot to) self pool.now handles.old }
    {
        let number = match self.check_take(pool, handles, slot, to) {
            Ok(()) => {
                handles[to] = handles[slot];
                handles[slot] = 0;
                0
            }
            Err(refusal) => u32::from(refusal),
        };
        Answer {
            number,
            ..self.done(0)
        }
    }
}
