// Replays the fixed list of the Rust's answers, which standard input has: each line's call is made on the library, and what comes back and what it
// leaves are compared with what the Rust gave and left. It says how many calls were as the Rust, or where and how the first one was not.
// The list's format is in docs/RUST-ANSWERS.md.
// No heap: arrays of fixed size on the stack, as the pool is fixed and lent.
#![tactic(auto)]

ghost use Rattle.std.specs.Prelude.{◌<◌, ◌≤◌, ◌^◌, length};

use pool::ListPool;
use pool::checks::POOL_LIMIT;
use std::io;
use std::io::Read;

mod calls;
mod compare;
mod findings;
mod text;

use calls::Call;
use compare::Cells;
use findings::{Fault, Finding, Stop};

// A list has fewer bytes than this.
const MOST_TEXT: usize = 524288;

// A line has at most so many numbers.
const MOST_NUMBERS: usize = 4096;

// A pool has at most so many slots.
const MOST_SLOTS: usize = 16;

// A line of the list: the call, what the Rust gave back, and what it changed.
#[derive(Clone, Copy, Debug, PartialEq, Eq)]
struct Line<'a> {
    call: Call<'a>,
    value: u32,
    changes: &'a [u32],
}

impl<'a> TryFrom<&'a [u32]> for Line<'a> {
    type Error = Fault;

    // Takes a line's numbers: the call's code, how many arguments, these, the value, and the changes.
    fn try_from(numbers: &'a [u32]) -> Result<Line<'a>, Fault> {
        let &[code, n, ref rest @ ..] = numbers else {
            return Err(Fault::Short);
        };
        let (arguments, rest) = rest.split_at_checked(n as usize).ok_or(Fault::Short)?;
        let (value, changes) = rest.split_first().ok_or(Fault::Short)?;
        Ok(Line {
            call: Call::try_from((code, arguments))?,
            value: *value,
            changes,
        })
    }
}

// What calls are made on: the pool's state, how many words and slots are lent, and of what; and the cells of what the Rust left.
// The lengths stand beside the arrays because a slice of what is lent would be no plainer: the next pool may be lent more of them again.
#[derive(Drop)]
struct Bench {
    state: ListPool,
    words: usize,
    slots: usize,
    pool: [u32; POOL_LIMIT],
    handles: [u32; MOST_SLOTS],
    cells: Cells,
}

impl Bench {
    // Returns a bench on which nothing is lent.
    fn new() -> Bench {
        Bench {
            state: ListPool::default(),
            words: 0,
            slots: 0,
            pool: [0; POOL_LIMIT],
            handles: [0; MOST_SLOTS],
            cells: Cells::new(),
        }
    }

    // Makes a line's call on the words and slots that are lent, and compares with the Rust.
    fn make(&mut self, line: Line<'_>) -> Result<(), Finding> {
        self.cells.change(line.changes)?;
        if let Call::NewPool { words, slots } = line.call {
            self.words = words as usize;
            self.slots = slots as usize;
        }
        let pool = self.pool.get_mut(..self.words).ok_or(Fault::Sizes)?;
        let handles = self.handles.get_mut(..self.slots).ok_or(Fault::Sizes)?;
        let answer = line.call.make(self.state, pool, handles);
        self.state = answer.state;
        self.cells.judge(answer, line.value, pool, handles)?;
        Ok(())
    }

    // Reads a line, and makes its call. It is called, and not made part of what calls it, so that its numbers are on the stack only where there is a line.
    #[inline(never)]
    fn step(&mut self, line: &[u8]) -> Result<(), Finding> {
        let mut numbers = [0; MOST_NUMBERS];
        let numbers = text::read_line(line, &mut numbers)?;
        self.make(Line::try_from(numbers)?)
    }
}

// Replays the lines of a text, up to the first in which something is found, and returns how many there are.
fn replay(text: &[u8]) -> Result<u64, Stop> {
    let mut bench = Bench::new();
    (1..)
        .zip(text.split_inclusive(|b| *b == b'\n'))
        .try_fold(0, |_, (number, line)| match bench.step(line) {
            Ok(()) => Ok(number),
            Err(found) => Err(Stop::InLine(number, found)),
        })
}

// Reads until the buffer is full, the input ends or a read fails, and returns what it read.
// A loop of its own: std's read_exact does not say how much came, read_to_end needs the heap, and io::copy goes on after an interrupted read.
fn read_full<'a>(input: &mut impl Read, buf: &'a mut [u8]) -> &'a [u8]
    ensures { length result.now ≤ length buf.old }
{
    let mut done = 0;
    while let Ok(n @ 1..) = input.read(&mut buf[done..]) {
        done += n;
    }
    &buf[..done]
}

// Reads a list of fewer than MOST bytes and replays it.
fn replay_input<const MOST: usize>(input: &mut impl Read) -> Result<u64, Stop>
    requires { MOST < 2 ^ 63 }
{
    let mut buf = [0u8; MOST];
    let text = read_full(input, &mut buf);
    if text.is_empty() {
        return Err(Stop::NothingRead);
    }
    if text.len() == MOST {
        return Err(Stop::TooMuch);
    }
    replay(text)
}

// Replays the list that standard input has.
fn main(rt: HostRuntime) -> io::Result<()> {
    match replay_input::<MOST_TEXT>(&mut rt.stdin()) {
        Ok(calls) => println!(rt; "{calls} calls, {calls} as the Rust"),
        Err(stop) => println!(rt; "{stop}"),
    }
}
