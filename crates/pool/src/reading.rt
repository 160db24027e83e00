// The calls that read a list. Why pool, table and slot stand apart: see the head of steps.rt.
ghost use Rattle.std.specs.Prelude.{◌≡◌};
ghost use Rattle.pool.specs.Rules as rules;
ghost use Rattle.pool.specs.Rules.{called, outcome};
ghost use Rattle.pool.specs.Parts.{LiesIn, PartOf};

use super::{Answer, ListPool, Part, numbers};

impl ListPool {
    // Tells whether the list in a slot is empty: the value is 1 where it is, else 0.
    pub fn is_empty(self, pool: &[u32], handles: &[u32], slot: usize) -> Answer
        ensures { outcome result pool.now handles.now
            ≡ called (rules.is_empty slot) self pool.now handles.now }
    {
        match self.check_entry(pool, handles, slot) {
            Ok(()) => self.done(u32::from(handles[slot] == 0)),
            Err(refusal) => self.refused(refusal),
        }
    }

    // Gives the number of elements of the list in a slot.
    pub fn len(self, pool: &[u32], handles: &[u32], slot: usize) -> Answer
        ensures { outcome result pool.now handles.now
            ≡ called (rules.len slot) self pool.now handles.now }
    {
        match self.check_entry(pool, handles, slot) {
            Ok(()) => self.done(numbers::length_at(pool, handles[slot])),
            Err(refusal) => self.refused(refusal),
        }
    }

    // Tells whether the list in a slot is valid: the value is 1, and a handle that is not locally sound is refused.
    pub fn is_valid(self, pool: &[u32], handles: &[u32], slot: usize) -> Answer
        ensures { outcome result pool.now handles.now
            ≡ called (rules.is_valid slot) self pool.now handles.now }
    {
        match self.check_entry(pool, handles, slot) {
            Ok(()) => self.done(1),
            Err(refusal) => self.refused(refusal),
        }
    }

    // Returns where the elements of the list in a slot lie: from start to end of the pool, and nothing, at 0, where reading it is refused. An empty part, and
    // no `None`, is what paper 01 has for a refusal, here and in the slices.
    pub fn part(self, pool: &[u32], handles: &[u32], slot: usize) -> Part
        ensures { PartOf self pool.now handles.now slot result }
    {
        match self.check_entry(pool, handles, slot) {
            Ok(()) => {
                let h = handles[slot];
                let start = h as usize;
                Part {
                    start,
                    end: start + numbers::length_at(pool, h) as usize,
                }
            }
            Err(_) => Part::default(),
        }
    }

    // Returns the elements of the list in a slot, as a part of the pool: empty where reading it is refused.
    pub fn as_slice<'a>(self, pool: &'a [u32], handles: &[u32], slot: usize) -> &'a [u32]
        ensures { LiesIn self handles.now slot pool.entry result }
    {
        let Part { start, end } = self.part(pool, handles, slot);
        &pool[start..end]
    }

    // Gives the element at a position of the list in a slot.
    pub fn get(self, pool: &[u32], handles: &[u32], slot: usize, position: usize) -> Answer
        ensures { outcome result pool.now handles.now
            ≡ called (rules.get slot position) self pool.now handles.now }
    {
        match self.check_at(pool, handles, slot, position) {
            Ok(()) => self.done(pool[handles[slot] as usize + position]),
            Err(refusal) => self.refused(refusal),
        }
    }

    // Gives the first element of the list in a slot.
    pub fn first(self, pool: &[u32], handles: &[u32], slot: usize) -> Answer
        ensures { outcome result pool.now handles.now
            ≡ called (rules.first slot) self pool.now handles.now }
    {
        self.get(pool, handles, slot, 0)
    }
}
