// Which number a call is refused with: paper 01's table, judged on the state at entry. Nothing is changed here. State, pool and table are handed in apart,
// as each call has them: a struct of the three would be made anew in each call, for one check.
ghost use Rattle.std.specs.Prelude.{◌≡◌, ◌+◌, ◌≤◌, length};
ghost use Rattle.pool.specs.Numbers as numbers;
ghost use Rattle.pool.specs.Refusals.{check_number};
ghost use Rattle.sizes.specs.Class.{longest};
ghost use Rattle.pool.specs.Rules as rules;

use super::{ListPool, Refusal, checks};
use sizes::SizeClass;

// Returns the length that stands before a handle, 0 for the empty list.
pub fn length_at(pool: &[u32], h: u32) -> u32
    requires { h ≤ length pool.now }
    ensures { result ≡ numbers.length_at pool.now h }
{
    if h == 0 {
        return 0;
    }
    let at = h as usize;
    pool[at - 1]
}

// Returns whether a list of the old length needs another block for the new one.
pub fn needs_block(old: u32, new: u32) -> bool
    ensures { result ≡ numbers.needs_block old new }
{
    new != 0
        && (old == 0
            || new > SizeClass::LONGEST
            || SizeClass::for_length(old) != SizeClass::for_length(new))
}

impl ListPool {
    // Refuses with 1, 2 or 3 a call that names the list in a slot.
    pub(super) fn check_entry(
        &self,
        pool: &[u32],
        handles: &[u32],
        slot: usize,
    ) -> Result<(), Refusal>
        ensures { check_number result ≡ numbers.entry_number self.now.used pool.now handles.now slot }
    {
        if checks::over_limit(self.used, pool.len(), handles.len()) {
            return Err(Refusal::OverLimit);
        }
        if slot >= handles.len() {
            return Err(Refusal::NoSlot);
        }
        if !checks::sound_handle(self.used as usize, pool, handles[slot]) {
            return Err(Refusal::UnsoundHandle);
        }
        Ok(())
    }

    // Refuses with 1, 2 or 3 a call that names the lists in two slots. A function of its own beside `check_entry`: over a list of slots it would be two
    // loops, the slots before the handles, and its rule, `entry_number₂`, is another one too.
    pub(super) fn check_entries(
        &self,
        pool: &[u32],
        handles: &[u32],
        slot: usize,
        other: usize,
    ) -> Result<(), Refusal>
        ensures { check_number result ≡ numbers.entry_number₂ self.now.used pool.now handles.now slot other }
    {
        if checks::over_limit(self.used, pool.len(), handles.len()) {
            return Err(Refusal::OverLimit);
        }
        if slot >= handles.len() || other >= handles.len() {
            return Err(Refusal::NoSlot);
        }
        let used = self.used as usize;
        if !checks::sound_handle(used, pool, handles[slot])
            || !checks::sound_handle(used, pool, handles[other])
        {
            return Err(Refusal::UnsoundHandle);
        }
        Ok(())
    }

    // Refuses with 6 or 7 where a block is needed for n elements.
    fn check_room(&self, pool: &[u32], n: u32) -> Result<(), Refusal>
        ensures { check_number result ≡ numbers.room_number self.now pool.now n }
    {
        if n > SizeClass::LONGEST {
            return Err(Refusal::NoRoom);
        }
        let c = SizeClass::for_length(n);
        let h = self.heads[c as usize];
        if !checks::sound_head(self.used as usize, pool, c, h) {
            return Err(Refusal::UnsoundHead);
        }
        if h != 0 {
            return Ok(());
        }
        if self.used as usize + SizeClass::size(c) > pool.len() {
            return Err(Refusal::NoRoom);
        }
        Ok(())
    }

    // Refuses with 6 or 7 a list of the old length that gets the new one.
    fn check_need(&self, pool: &[u32], old: u32, new: u32) -> Result<(), Refusal>
        ensures { check_number result ≡ numbers.need_number self.now pool.now old new }
    {
        if needs_block(old, new) {
            return self.check_room(pool, new);
        }
        Ok(())
    }

    // Refuses with 6 or 7 a list of the old length that grows by a count, of any size.
    #[inline(always)]
    fn check_more(&self, pool: &[u32], old: u32, count: usize) -> Result<(), Refusal>
        requires { old ≤ longest }
        ensures { check_number result ≡ numbers.need_number self.now pool.now old (old + count) }
    {
        if count > SizeClass::LONGEST as usize {
            return Err(Refusal::NoRoom);
        }
        self.check_need(pool, old, old + count as u32)
    }

    // Refuses a `from_slice` of a count of elements.
    pub(super) fn check_from_slice(
        &self,
        pool: &[u32],
        handles: &[u32],
        slot: usize,
        count: usize,
    ) -> Result<(), Refusal>
        ensures { check_number result ≡ rules.from_slice_number self.now pool.now handles.now slot count }
    {
        self.check_entry(pool, handles, slot)?;
        if handles[slot] != 0 {
            return Err(Refusal::SlotsClash);
        }
        self.check_more(pool, 0, count)
    }

    // Refuses a call on the element at a position of the list in a slot.
    pub(super) fn check_at(
        &self,
        pool: &[u32],
        handles: &[u32],
        slot: usize,
        position: usize,
    ) -> Result<(), Refusal>
        ensures { check_number result ≡ rules.at_number self.now.used pool.now handles.now slot position }
    {
        self.check_entry(pool, handles, slot)?;
        if position >= length_at(pool, handles[slot]) as usize {
            return Err(Refusal::OutsideList);
        }
        Ok(())
    }

    // Refuses a `deep_clone`.
    pub(super) fn check_deep_clone(
        &self,
        pool: &[u32],
        handles: &[u32],
        slot: usize,
        to: usize,
    ) -> Result<(), Refusal>
        ensures { check_number result ≡ rules.deep_clone_number self.now pool.now handles.now slot to }
    {
        self.check_entries(pool, handles, slot, to)?;
        if handles[to] != 0 {
            return Err(Refusal::SlotsClash);
        }
        self.check_need(pool, 0, length_at(pool, handles[slot]))
    }

    // Refuses a `take`.
    pub(super) fn check_take(
        &self,
        pool: &[u32],
        handles: &[u32],
        slot: usize,
        to: usize,
    ) -> Result<(), Refusal>
        ensures { check_number result ≡ rules.take_number self.now.used pool.now handles.now slot to }
    {
        self.check_entries(pool, handles, slot, to)?;
        if slot == to || handles[to] != 0 {
            return Err(Refusal::SlotsClash);
        }
        Ok(())
    }

    // Refuses a `push`, where the count is 1, and an `extend` by a count of elements. It is made part of both, since a count of 1 needs no judging.
    #[inline(always)]
    pub(super) fn check_grow(
        &self,
        pool: &[u32],
        handles: &[u32],
        slot: usize,
        count: usize,
    ) -> Result<(), Refusal>
        ensures { check_number result ≡ rules.grow_number self.now pool.now handles.now slot count }
    {
        self.check_entry(pool, handles, slot)?;
        self.check_more(pool, length_at(pool, handles[slot]), count)
    }

    // Refuses a `copy_from`: of the range from start to end of the list in the slot source, to a position of the list in a slot.
    pub(super) fn check_copy_from(
        &self,
        pool: &[u32],
        handles: &[u32],
        slot: usize,
        source: usize,
        start: usize,
        end: usize,
        position: usize,
    ) -> Result<(), Refusal>
        ensures { check_number result ≡ rules.copy_from_number self.now pool.now handles.now slot source start end position }
    {
        self.check_entries(pool, handles, slot, source)?;
        let old = length_at(pool, handles[slot]);
        if position > old as usize
            || start > end
            || end > length_at(pool, handles[source]) as usize
        {
            return Err(Refusal::OutsideList);
        }
        if handles[slot] == handles[source] {
            return Err(Refusal::SlotsClash);
        }
        self.check_more(pool, old, end - start)
    }

    // Refuses an `insert`, where the count is 1, and a `grow_at` by a count. It is made part of both, since a count of 1 needs no judging.
    #[inline(always)]
    pub(super) fn check_grow_at(
        &self,
        pool: &[u32],
        handles: &[u32],
        slot: usize,
        position: usize,
        count: usize,
    ) -> Result<(), Refusal>
        ensures { check_number result ≡ rules.grow_at_number self.now pool.now handles.now slot position count }
    {
        self.check_entry(pool, handles, slot)?;
        let old = length_at(pool, handles[slot]);
        if position > old as usize {
            return Err(Refusal::OutsideList);
        }
        self.check_more(pool, old, count)
    }

    // Refuses a `remove` and a `swap_remove`.
    pub(super) fn check_remove(
        &self,
        pool: &[u32],
        handles: &[u32],
        slot: usize,
        position: usize,
    ) -> Result<(), Refusal>
        ensures { check_number result ≡ rules.remove_number self.now pool.now handles.now slot position }
    {
        self.check_at(pool, handles, slot, position)?;
        let old = length_at(pool, handles[slot]);
        self.check_need(pool, old, old - 1)
    }

    // Refuses a `truncate` to the new length.
    pub(super) fn check_truncate(
        &self,
        pool: &[u32],
        handles: &[u32],
        slot: usize,
        new: usize,
    ) -> Result<(), Refusal>
        ensures { check_number result ≡ rules.truncate_number self.now pool.now handles.now slot new }
    {
        self.check_entry(pool, handles, slot)?;
        let old = length_at(pool, handles[slot]);
        if new >= old as usize {
            return Ok(());
        }
        self.check_need(pool, old, new as u32)
    }
}
