// The calls that write to a list's elements and leave its length. Why pool, table and slot stand apart: see the head of steps.rt.
ghost use Rattle.std.specs.Prelude.{◌≡◌};
ghost use Rattle.pool.specs.Rules as rules;
ghost use Rattle.pool.specs.Rules.{called, outcome};
ghost use Rattle.pool.specs.Parts.{LiesInMut};

use super::{Answer, ListPool, Part};

impl ListPool {
    // Returns the elements of the list in a slot, to be written: a part of the pool, empty where reading the list is refused. It stands beside `as_slice`
    // since no function is both of a `&` and of a `&mut`.
    pub fn as_mut_slice<'a>(
        self,
        pool: &'a mut [u32],
        handles: &[u32],
        slot: usize,
    ) -> &'a mut [u32]
        ensures { LiesInMut self handles.now slot pool.entry result }
    {
        let Part { start, end } = self.part(pool, handles, slot);
        &mut pool[start..end]
    }

    // Sets the element at a position of the list in a slot. Why it answers once: see the head of answers.rt.
    pub fn set(
        self,
        pool: &mut [u32],
        handles: &[u32],
        slot: usize,
        position: usize,
        element: u32,
    ) -> Answer
        ensures { outcome result pool.new handles.now
            ≡ called (rules.set_at slot position element) self pool.old handles.now }
    {
        let number = match self.check_at(pool, handles, slot, position) {
            Ok(()) => {
                pool[handles[slot] as usize + position] = element;
                0
            }
            Err(refusal) => u32::from(refusal),
        };
        Answer {
            number,
            ..self.done(0)
        }
    }
}
