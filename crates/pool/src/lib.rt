// Lists of 32-bit words in a lent pool.
//
// A list is named by its slot in a lent table of handles. Its block in the pool is
//
//     | length | elements .. | excess words .. |
//                ^ handle = block start + 1; handle 0 is the empty list
//
// and a free block, on the chain of its class, is
//
//     | 0 | next | anything .. |
//           ^ a head or next = block start + 1; 0 ends the chain
//
// So blocks name one another by index, and no list and no chain by 0: these words are the log that is dumped, and C lends them.
#![tactic(auto)]

use sizes::SizeClass;

mod answers;
mod blocks;
pub mod checks;
mod growing;
mod making;
mod numbers;
mod reading;
mod shrinking;
mod steps;
mod writing;

// The pool's state, a value that each call takes and hands back (paper 01; the words are lent beside it): how many words are used, and the head of each
// class's chain of free blocks.
// The default is the state of a cleared pool.
#[repr(C)]
#[derive(Clone, Copy, Debug, Default, PartialEq, Eq)]
pub struct ListPool {
    pub used: u32,
    pub heads: [u32; SizeClass::COUNT],
}

// What a call answers: the number (0 where it is done), the value, and the next state. Paper 01 has a number beside a value, and no `Result`, and C is handed
// it; the contract of each call is an equation with it.
#[repr(C)]
#[derive(Clone, Copy, Debug, Default, PartialEq, Eq)]
pub struct Answer {
    pub number: u32,
    pub value: u32,
    pub state: ListPool,
}

// Where the elements of a list lie in the pool: for C a start and an end, and no range.
#[repr(C)]
#[derive(Clone, Copy, Debug, Default, PartialEq, Eq)]
pub struct Part {
    pub start: usize,
    pub end: usize,
}

// Why a call is refused, with the number of each in paper 01's table.
#[derive(Clone, Copy, Debug, PartialEq, Eq)]
pub enum Refusal {
    OverLimit = 1,
    NoSlot = 2,
    UnsoundHandle = 3,
    OutsideList = 4,
    SlotsClash = 5,
    UnsoundHead = 6,
    NoRoom = 7,
    ShortMap = 8,
    NotSound = 9,
}
