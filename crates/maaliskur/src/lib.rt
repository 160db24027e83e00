// The interface for C, which include/maaliskur.h declares: a slice is there a pointer and then a length. Each function only forwards, and its contract
// is that of the call that it forwards to; `maaliskur_size` gives the size in 32 bits, by a contract of its own.
#![tactic(auto)]

ghost use Rattle.std.specs.Prelude.{◌≡◌};
ghost use Rattle.sizes.specs.Class.{ClassOf};
ghost use Rattle.pool.specs.Rules as rules;
ghost use Rattle.pool.specs.Rules.{called, outcome};
ghost use Rattle.pool.specs.Parts.{PartOf};
ghost use Rattle.audit.specs.Audit.{audit, audited};
ghost use Rattle.maaliskur.specs.Fits.{size_fits};

use pool::{Answer, ListPool, Part};
use sizes::SizeClass;

// Puts a list of the elements into an empty slot.
#[unsafe(no_mangle)]
pub extern "C" fn maaliskur_from_slice(
    state: ListPool,
    pool: &mut [u32],
    handles: &mut [u32],
    slot: usize,
    elements: &[u32],
) -> Answer
    ensures { outcome result pool.new handles.new
        ≡ called (rules.from_slice slot elements.now) state pool.old handles.old }
{
    state.from_slice(pool, handles, slot, elements)
}

// Tells whether the list in a slot is empty: the value is 1 where it is, else 0.
#[unsafe(no_mangle)]
pub extern "C" fn maaliskur_is_empty(
    state: ListPool,
    pool: &[u32],
    handles: &[u32],
    slot: usize,
) -> Answer
    ensures { outcome result pool.now handles.now
        ≡ called (rules.is_empty slot) state pool.now handles.now }
{
    state.is_empty(pool, handles, slot)
}

// Gives the number of elements of the list in a slot.
#[unsafe(no_mangle)]
pub extern "C" fn maaliskur_len(
    state: ListPool,
    pool: &[u32],
    handles: &[u32],
    slot: usize,
) -> Answer
    ensures { outcome result pool.now handles.now
        ≡ called (rules.len slot) state pool.now handles.now }
{
    state.len(pool, handles, slot)
}

// Tells whether the list in a slot is valid: the value is 1, and a handle that is not locally sound is refused.
#[unsafe(no_mangle)]
pub extern "C" fn maaliskur_is_valid(
    state: ListPool,
    pool: &[u32],
    handles: &[u32],
    slot: usize,
) -> Answer
    ensures { outcome result pool.now handles.now
        ≡ called (rules.is_valid slot) state pool.now handles.now }
{
    state.is_valid(pool, handles, slot)
}

// Returns where the elements of the list in a slot lie: C's form of `as_slice` and `as_mut_slice`.
#[unsafe(no_mangle)]
pub extern "C" fn maaliskur_part(
    state: ListPool,
    pool: &[u32],
    handles: &[u32],
    slot: usize,
) -> Part
    ensures { PartOf state pool.now handles.now slot result }
{
    state.part(pool, handles, slot)
}

// Gives the element at a position of the list in a slot.
#[unsafe(no_mangle)]
pub extern "C" fn maaliskur_get(
    state: ListPool,
    pool: &[u32],
    handles: &[u32],
    slot: usize,
    position: usize,
) -> Answer
    ensures { outcome result pool.now handles.now
        ≡ called (rules.get slot position) state pool.now handles.now }
{
    state.get(pool, handles, slot, position)
}

// Gives the first element of the list in a slot.
#[unsafe(no_mangle)]
pub extern "C" fn maaliskur_first(
    state: ListPool,
    pool: &[u32],
    handles: &[u32],
    slot: usize,
) -> Answer
    ensures { outcome result pool.now handles.now
        ≡ called (rules.first slot) state pool.now handles.now }
{
    state.first(pool, handles, slot)
}

// Sets the element at a position of the list in a slot.
#[unsafe(no_mangle)]
pub extern "C" fn maaliskur_set(
    state: ListPool,
    pool: &mut [u32],
    handles: &[u32],
    slot: usize,
    position: usize,
    element: u32,
) -> Answer
    ensures { outcome result pool.new handles.now
        ≡ called (rules.set_at slot position element) state pool.old handles.now }
{
    state.set(pool, handles, slot, position, element)
}

// Puts a copy of the list in a slot into the empty slot `to`.
#[unsafe(no_mangle)]
pub extern "C" fn maaliskur_deep_clone(
    state: ListPool,
    pool: &mut [u32],
    handles: &mut [u32],
    slot: usize,
    to: usize,
) -> Answer
    ensures { outcome result pool.new handles.new
        ≡ called (rules.deep_clone slot to) state pool.old handles.old }
{
    state.deep_clone(pool, handles, slot, to)
}

// Removes all elements from the list in a slot, and gives its block back.
#[unsafe(no_mangle)]
pub extern "C" fn maaliskur_clear(
    state: ListPool,
    pool: &mut [u32],
    handles: &mut [u32],
    slot: usize,
) -> Answer
    ensures { outcome result pool.new handles.new
        ≡ called (rules.clear slot) state pool.old handles.old }
{
    state.clear(pool, handles, slot)
}

// Moves the list in a slot to the empty slot `to`.
#[unsafe(no_mangle)]
pub extern "C" fn maaliskur_take(
    state: ListPool,
    pool: &[u32],
    handles: &mut [u32],
    slot: usize,
    to: usize,
) -> Answer
    ensures { outcome result pool.now handles.new
        ≡ called (rules.take slot to) state pool.now handles.old }
{
    state.take(pool, handles, slot, to)
}

// Appends an element to the list in a slot; the value is the old length.
#[unsafe(no_mangle)]
pub extern "C" fn maaliskur_push(
    state: ListPool,
    pool: &mut [u32],
    handles: &mut [u32],
    slot: usize,
    element: u32,
) -> Answer
    ensures { outcome result pool.new handles.new
        ≡ called (rules.push slot element) state pool.old handles.old }
{
    state.push(pool, handles, slot, element)
}

// Appends the elements to the list in a slot.
#[unsafe(no_mangle)]
pub extern "C" fn maaliskur_extend(
    state: ListPool,
    pool: &mut [u32],
    handles: &mut [u32],
    slot: usize,
    elements: &[u32],
) -> Answer
    ensures { outcome result pool.new handles.new
        ≡ called (rules.extend slot elements.now) state pool.old handles.old }
{
    state.extend(pool, handles, slot, elements)
}

// Copies the elements from start to end of the list in the slot `source` into the list in a slot, at a position.
#[unsafe(no_mangle)]
pub extern "C" fn maaliskur_copy_from(
    state: ListPool,
    pool: &mut [u32],
    handles: &mut [u32],
    slot: usize,
    source: usize,
    start: usize,
    end: usize,
    position: usize,
) -> Answer
    ensures { outcome result pool.new handles.new
        ≡ called (rules.copy_from slot source start end position) state pool.old handles.old }
{
    state.copy_from(pool, handles, slot, source, start, end, position)
}

// Puts an element at a position of the list in a slot; those from there on shift up.
#[unsafe(no_mangle)]
pub extern "C" fn maaliskur_insert(
    state: ListPool,
    pool: &mut [u32],
    handles: &mut [u32],
    slot: usize,
    position: usize,
    element: u32,
) -> Answer
    ensures { outcome result pool.new handles.new
        ≡ called (rules.insert slot position element) state pool.old handles.old }
{
    state.insert(pool, handles, slot, position, element)
}

// Removes the element at a position of the list in a slot; those behind it shift down.
#[unsafe(no_mangle)]
pub extern "C" fn maaliskur_remove(
    state: ListPool,
    pool: &mut [u32],
    handles: &mut [u32],
    slot: usize,
    position: usize,
) -> Answer
    ensures { outcome result pool.new handles.new
        ≡ called (rules.remove slot position) state pool.old handles.old }
{
    state.remove(pool, handles, slot, position)
}

// Removes the element at a position of the list in a slot; the last takes its place.
#[unsafe(no_mangle)]
pub extern "C" fn maaliskur_swap_remove(
    state: ListPool,
    pool: &mut [u32],
    handles: &mut [u32],
    slot: usize,
    position: usize,
) -> Answer
    ensures { outcome result pool.new handles.new
        ≡ called (rules.swap_remove slot position) state pool.old handles.old }
{
    state.swap_remove(pool, handles, slot, position)
}

// Shortens the list in a slot to a length; does nothing where it is no longer than that.
#[unsafe(no_mangle)]
pub extern "C" fn maaliskur_truncate(
    state: ListPool,
    pool: &mut [u32],
    handles: &mut [u32],
    slot: usize,
    length: usize,
) -> Answer
    ensures { outcome result pool.new handles.new
        ≡ called (rules.truncate slot length) state pool.old handles.old }
{
    state.truncate(pool, handles, slot, length)
}

// Grows the list in a slot by a count at a position; the places that opens keep what stood there.
#[unsafe(no_mangle)]
pub extern "C" fn maaliskur_grow_at(
    state: ListPool,
    pool: &mut [u32],
    handles: &mut [u32],
    slot: usize,
    position: usize,
    count: usize,
) -> Answer
    ensures { outcome result pool.new handles.new
        ≡ called (rules.grow_at slot position count) state pool.old handles.old }
{
    state.grow_at(pool, handles, slot, position, count)
}

// Clears the pool: nothing is used, no block is free, and every list is empty. No word of the pool is touched.
#[unsafe(no_mangle)]
pub extern "C" fn maaliskur_clear_pool(state: ListPool, pool: &[u32], handles: &mut [u32]) -> Answer
    ensures { outcome result pool.now handles.new
        ≡ called (rules.clear_pool) state pool.now handles.old }
{
    state.clear_pool(pool, handles)
}

// Audits a pool: answers 0 where it is sound, with a map of its blocks, and 9 where it is not.
#[unsafe(no_mangle)]
pub extern "C" fn maaliskur_audit(
    state: ListPool,
    pool: &[u32],
    handles: &[u32],
    map: &mut [u32],
) -> Answer
    ensures { audited result map.new ≡ audit state pool.now handles.now map.old }
{
    audit::audit(state, pool, handles, map)
}

// Returns the class of a list of a length.
#[unsafe(no_mangle)]
pub extern "C" fn maaliskur_class(length: u32) -> u32
    ensures { ClassOf length result }
{
    SizeClass::for_length(length)
}

// Returns how many words a block of a class has; 0 for a class whose size no 32-bit word holds.
#[unsafe(no_mangle)]
pub extern "C" fn maaliskur_size(class: u32) -> u32
    ensures { result ≡ size_fits class }
{
    u32::try_from(SizeClass::size(class)).unwrap_or(0)
}
