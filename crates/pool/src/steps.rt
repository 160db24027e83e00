// The steps that calls share, once a call is not refused.
//
// Pool, table and slot are handed from function to function apart, as C hands them in: of a struct that holds the two `&mut`, each clause would have to say
// that its fields are still those that were lent. What is asked of them (`Ready`, a slot below the table's length) is asked in each contract for that reason. A
// list's handle, its length and the new one are three numbers, which `moved` and `resize` take apart as their rules do; a struct would be made for one call.
ghost use Rattle.std.specs.Prelude.{◌≡◌, ◌+◌, ◌≤◌, ◌<◌, length, set};
ghost use Rattle.pool.specs.Numbers.{pool_limit};
ghost use Rattle.pool.specs.Rules as rules;
ghost use Rattle.pool.specs.Rules.{outcome, answer, len_of};
ghost use Rattle.pool.specs.Steps.{CanResize, ListAt, Meets, Ready, resized};

use super::{ListPool, numbers};
use sizes::SizeClass;

// Seats a list of n elements in a block: writes its length there, and its handle into the slot.
pub fn seat(pool: &mut [u32], handles: &mut [u32], slot: usize, block: usize, n: u32)
    requires { (block < length pool.old) × (length pool.old ≤ pool_limit) × (slot < length handles.old) }
    ensures { (pool.new ≡ set pool.old block n)
        × (handles.new ≡ set handles.old slot (block + 1)) }
{
    pool[block] = n;
    handles[slot] = (block + 1) as u32;
}

impl ListPool {
    // Gives up the block of the list of n elements at the handle h, and leaves its slot empty.
    pub(super) fn release(
        &mut self,
        pool: &mut [u32],
        handles: &mut [u32],
        slot: usize,
        h: u32,
        n: u32,
    )
        requires { (ListAt (length pool.old) h n) × (1 ≤ h) × (length pool.old ≤ pool_limit) × (slot < length handles.old) }
        ensures { outcome (answer 0 0 self.new) pool.new handles.new
            ≡ rules.cleared self.old pool.old handles.old slot h n }
    {
        self.free(pool, h as usize - 1, SizeClass::for_length(n));
        handles[slot] = 0;
    }

    // Gives the list at the handle h, of the old length, the new one: none, so many in its own block, or so many in another where one is needed.
    pub(super) fn resize(
        &mut self,
        pool: &mut [u32],
        handles: &mut [u32],
        slot: usize,
        h: u32,
        old: u32,
        new: u32,
    )
        requires { (CanResize self.old (length pool.old) h old new) × (new ≡ 0 → 1 ≤ h) × (slot < length handles.old) }
        ensures { Meets (length pool.old)
            (resized self.old pool.old handles.old slot h old new)
            slot new (answer 0 0 self.new) pool.new handles.new }
    {
        if new == 0 {
            self.release(pool, handles, slot, h, old);
        } else {
            let block = self.moved(pool, h, old, new);
            seat(pool, handles, slot, block, new);
        }
    }

    // Grows the list in a slot by a count at its end; the places that opens keep what stood there.
    pub(super) fn grow(&mut self, pool: &mut [u32], handles: &mut [u32], slot: usize, count: usize)
        requires { Ready self.old pool.old handles.old slot (len_of pool.old handles.old slot + count) }
        ensures { Meets (length pool.old)
            (rules.grown self.old pool.old handles.old slot count)
            slot (len_of pool.old handles.old slot + count) (answer 0 0 self.new) pool.new handles.new }
    {
        let h = handles[slot];
        let old = numbers::length_at(pool, h);
        let new = old + count as u32;
        if new != 0 {
            self.resize(pool, handles, slot, h, old, new);
        }
    }
}
