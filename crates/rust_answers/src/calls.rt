// The calls of the list.
use super::findings::Fault;
use pool::{Answer, ListPool};

// A call with its arguments.
#[derive(Clone, Copy, Debug, PartialEq, Eq)]
pub enum Call<'a> {
    // Other lengths are lent, and the pool is cleared; its words stay.
    NewPool { words: u32, slots: u32 },
    ClearPool,
    OnList { slot: u32, call: ListCall<'a> },
}

// A call on the list in a slot, with its other arguments, as the line has them. As `usize` each place would be cast where it is parsed: as many casts.
#[derive(Clone, Copy, Debug, PartialEq, Eq)]
pub enum ListCall<'a> {
    FromSlice(&'a [u32]),
    IsEmpty,
    Len,
    IsValid,
    // The elements that the Rust gave.
    AsSlice(&'a [u32]),
    Get {
        position: u32,
    },
    First,
    // The elements that are then written.
    AsMutSlice(&'a [u32]),
    Set {
        position: u32,
        element: u32,
    },
    DeepClone {
        to: u32,
    },
    Clear,
    Take {
        to: u32,
    },
    Push {
        element: u32,
    },
    Extend(&'a [u32]),
    CopyFrom {
        source: u32,
        start: u32,
        end: u32,
        position: u32,
    },
    Insert {
        position: u32,
        element: u32,
    },
    Remove {
        position: u32,
    },
    SwapRemove {
        position: u32,
    },
    Truncate {
        length: u32,
    },
    GrowAt {
        position: u32,
        count: u32,
    },
}

impl<'a> TryFrom<(u32, &'a [u32])> for Call<'a> {
    type Error = Fault;

    // Returns the call of a code with these arguments. A fault where there is none with this code, or it takes another count of arguments.
    fn try_from((code, arguments): (u32, &'a [u32])) -> Result<Call<'a>, Fault> {
        match (code, arguments) {
            (0, &[words, slots]) => Ok(Call::NewPool { words, slots }),
            (21, []) => Ok(Call::ClearPool),
            (_, [slot, others @ ..]) => Ok(Call::OnList {
                slot: *slot,
                call: ListCall::try_from((code, others))?,
            }),
            _ => Err(Fault::Call),
        }
    }
}

impl<'a> TryFrom<(u32, &'a [u32])> for ListCall<'a> {
    type Error = Fault;

    // Returns the call of a code with these arguments behind the slot, or a fault as above.
    fn try_from((code, others): (u32, &'a [u32])) -> Result<ListCall<'a>, Fault> {
        Ok(match (code, others) {
            (1, elements) => ListCall::FromSlice(elements),
            (2, []) => ListCall::IsEmpty,
            (3, []) => ListCall::Len,
            (4, []) => ListCall::IsValid,
            (5, elements) => ListCall::AsSlice(elements),
            (6, &[position]) => ListCall::Get { position },
            (7, []) => ListCall::First,
            (8, elements) => ListCall::AsMutSlice(elements),
            (9, &[position, element]) => ListCall::Set { position, element },
            (10, &[to]) => ListCall::DeepClone { to },
            (11, []) => ListCall::Clear,
            (12, &[to]) => ListCall::Take { to },
            (13, &[element]) => ListCall::Push { element },
            (14, elements) => ListCall::Extend(elements),
            (15, &[source, start, end, position]) => ListCall::CopyFrom {
                source,
                start,
                end,
                position,
            },
            (16, &[position, element]) => ListCall::Insert { position, element },
            (17, &[position]) => ListCall::Remove { position },
            (18, &[position]) => ListCall::SwapRemove { position },
            (19, &[length]) => ListCall::Truncate { length },
            (20, &[position, count]) => ListCall::GrowAt { position, count },
            _ => return Err(Fault::Call),
        })
    }
}

impl Call<'_> {
    // Makes the call. State, pool and table stand apart, as the library's calls take them.
    pub fn make(self, state: ListPool, pool: &mut [u32], handles: &mut [u32]) -> Answer {
        match self {
            Call::NewPool { .. } | Call::ClearPool => state.clear_pool(pool, handles),
            Call::OnList { slot, call } => call.make(state, pool, handles, slot as usize),
        }
    }
}

impl ListCall<'_> {
    // Makes the call on the list in a slot.
    fn make(self, state: ListPool, pool: &mut [u32], handles: &mut [u32], slot: usize) -> Answer {
        match self {
            ListCall::FromSlice(elements) => state.from_slice(pool, handles, slot, elements),
            ListCall::IsEmpty => state.is_empty(pool, handles, slot),
            ListCall::Len => state.len(pool, handles, slot),
            ListCall::IsValid => state.is_valid(pool, handles, slot),
            ListCall::AsSlice(elements) => {
                done(state, alike(state.as_slice(pool, handles, slot), elements))
            }
            ListCall::Get { position } => state.get(pool, handles, slot, position as usize),
            ListCall::First => state.first(pool, handles, slot),
            ListCall::AsMutSlice(elements) => {
                done(
                    state,
                    written(state.as_mut_slice(pool, handles, slot), elements),
                )
            }
            ListCall::Set { position, element } => state.set(
                pool,
                handles,
                slot,
                position as usize,
                element,
            ),
            ListCall::DeepClone { to } => state.deep_clone(pool, handles, slot, to as usize),
            ListCall::Clear => state.clear(pool, handles, slot),
            ListCall::Take { to } => state.take(pool, handles, slot, to as usize),
            ListCall::Push { element } => state.push(pool, handles, slot, element),
            ListCall::Extend(elements) => state.extend(pool, handles, slot, elements),
            ListCall::CopyFrom {
                source,
                start,
                end,
                position,
            } => state.copy_from(
                pool,
                handles,
                slot,
                source as usize,
                start as usize,
                end as usize,
                position as usize,
            ),
            ListCall::Insert { position, element } => state.insert(
                pool,
                handles,
                slot,
                position as usize,
                element,
            ),
            ListCall::Remove { position } => state.remove(pool, handles, slot, position as usize),
            ListCall::SwapRemove { position } => state.swap_remove(
                pool,
                handles,
                slot,
                position as usize,
            ),
            ListCall::Truncate { length } => state.truncate(pool, handles, slot, length as usize),
            ListCall::GrowAt { position, count } => state.grow_at(
                pool,
                handles,
                slot,
                position as usize,
                count as usize,
            ),
        }
    }
}

// Answers for a call that gives a part of the pool, of which n words are as they should be: done, with the state as it was.
fn done(state: ListPool, n: usize) -> Answer {
    state.done(u32::try_from(n).unwrap_or(u32::MAX))
}

// Returns, as the list has it in one number, how many elements a list has, where that is not as many as the Rust's; else how many there are before the
// first that differs.
fn alike(ours: &[u32], rust: &[u32]) -> usize {
    if ours.len() != rust.len() {
        return ours.len();
    }
    ours.iter().zip(rust).take_while(|(a, b)| a == b).count()
}

// Writes elements to a part of the pool, 0 where there are too few, and says how long it is.
fn written(part: &mut [u32], elements: &[u32]) -> usize {
    let n = part.len().min(elements.len());
    let (first, rest) = part.split_at_mut(n);
    first.copy_from_slice(&elements[..n]);
    rest.fill(0);
    part.len()
}
