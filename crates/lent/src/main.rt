// Runs `as_mut_slice`, whose contract says where the part lies and what it holds, and nothing of the pool's other words. Each case lends a copy of its
// pool and of its table, reads the part or writes over it, and compares every word and handle once the loan has ended. A line for each group of cases,
// `ok`, or `wrong` where a part is another list than the case's, or a word or handle another than it should be.
// No heap: arrays of fixed size on the stack, as the pool is fixed and lent.
#![tactic(auto)]

use pool::ListPool;
use pool::checks::{POOL_LIMIT, TABLE_LIMIT};
use std::io;
use std::ops::Range;

// One word more than a pool may have.
const MOST_WORDS: usize = POOL_LIMIT + 1;

// One slot more than a table may have.
const MOST_SLOTS: usize = TABLE_LIMIT + 1;

// Returns the state with this used count and the heads that `fill` leaves.
fn state(used: u32) -> ListPool {
    let mut state = ListPool {
        used,
        ..ListPool::default()
    };
    state.heads[0] = 33;
    state
}

// Returns whether the words begin with these and every further word is 0.
// `Bench::holds` of the program `sheet` asks the same: a crate that the two would share, for these lines, would be no plainer.
fn holds(words: &[u32], first: &[u32]) -> bool {
    words
        .strip_prefix(first)
        .is_some_and(|rest| rest.iter().all(|word| *word == 0))
}

// Writes its place to each of the words from a place on, so that no two words that no call has written are equal.
fn places(words: &mut [u32], from: u32) {
    for (word, place) in words.iter_mut().zip(from..) {
        *word = place;
    }
}

// A pool and a table to lend copies of.
#[derive(Clone, Copy)]
struct Lent<'a> {
    pool: &'a [u32],
    handles: &'a [u32],
}

impl<'a> Lent<'a> {
    // Returns the pool and the table of these words.
    fn new(pool: &'a [u32], handles: &'a [u32]) -> Self {
        Lent { pool, handles }
    }

    // Lends the part of a slot's list in copies of the pool and the table, and returns whether it is this list and the copies are afterwards as they
    // were, what comes after the pool's words and the table's handles too. `touch`, which undoes itself, is called on each word of the part, and once the
    // loan has ended on each of the words from start on that must be the part. It is called, and not made part of what calls it, so that the copies are on
    // the stack only while it runs.
    #[inline(never)]
    fn lends<F: Fn(&mut u32)>(
        self,
        used: u32,
        slot: usize,
        start: usize,
        list: &[u32],
        touch: F,
    ) -> bool
        requires { F.IsAlwaysCallable touch }
    {
        let mut words = [0; MOST_WORDS];
        let mut slots = [0; MOST_SLOTS];
        let Some(pool) = words.get_mut(..self.pool.len()) else {
            return false;
        };
        let Some(handles) = slots.get_mut(..self.handles.len()) else {
            return false;
        };
        pool.copy_from_slice(self.pool);
        handles.copy_from_slice(self.handles);
        let part = state(used).as_mut_slice(pool, handles, slot);
        let listed = &*part == list;
        for word in part.iter_mut() {
            touch(word);
        }
        for word in words.iter_mut().skip(start).take(list.len()) {
            touch(word);
        }
        listed && holds(&words, self.pool) && holds(&slots, self.handles)
    }

    // Returns whether the part of each of these slots is empty.
    fn lends_none(self, used: u32, mut slots: Range<usize>) -> bool {
        slots.all(|slot| self.lends(used, slot, 0, &[], |_| ()))
    }

    // Returns whether the part of each slot of the table is empty at each of these used counts.
    fn lends_none_at(self, counts: &[u32]) -> bool {
        counts
            .iter()
            .all(|used| self.lends_none(*used, 0..self.handles.len()))
    }

    // Runs the lists of the table that `fill` leaves.
    fn lists<F: Fn(&mut u32)>(self, touch: F) -> bool
        requires { F.IsAlwaysCallable touch }
    {
        self.lends(36, 0, 1, &[7, 8, 9], &touch)
            && self.lends(36, 1, 5, &[11, 12, 13, 14], &touch)
            && self.lends(36, 3, 17, &[31, 32, 33, 34, 35, 36, 37, 8], &touch)
    }
}

// Runs the longest list, which takes all of the largest pool.
fn longest<F: Fn(&mut u32)>(touch: F) -> bool
    requires { F.IsAlwaysCallable touch }
{
    let mut pool = [0; POOL_LIMIT];
    let mut elements = [0; POOL_LIMIT - 1];
    places(&mut elements, 0);
    pool[0] = POOL_LIMIT as u32 - 1;
    pool[1..].copy_from_slice(&elements);
    Lent::new(&pool, &[1]).lends(POOL_LIMIT as u32, 0, 1, &elements, touch)
}

// The pool and the table of the groups.
#[derive(Drop)]
struct Groups {
    pool: [u32; 64],
    handles: [u32; 5],
}

impl Groups {
    // Returns the pool with its place in each word, and the empty table.
    fn new() -> Self {
        let mut pool = [0; 64];
        places(&mut pool, 0);
        Groups {
            pool,
            handles: [0; 5],
        }
    }

    // Fills the pool and the table: all five slots, and then slots 2 and 4 are cleared. Slots 0, 1 and 3 have lists, in the blocks at 0, 4 and 16; the
    // block at 32 is free, and the one at 12, which is next on its chain; the words from 36 on are not used.
    fn fill(&mut self) -> bool {
        let pool = &mut self.pool;
        let handles = &mut self.handles;
        let s = ListPool::default();
        let s = s.extend(pool, handles, 0, &[7, 8, 9]).state;
        let s = s.extend(pool, handles, 1, &[11, 12, 13, 14]).state;
        let s = s.push(pool, handles, 2, 21).state;
        let s = s
            .extend(pool, handles, 3, &[31, 32, 33, 34, 35, 36, 37, 8])
            .state;
        let s = s.push(pool, handles, 4, 41).state;
        let s = s.clear(pool, handles, 2).state;
        let s = s.clear(pool, handles, 4).state;
        s == state(36) && *handles == [1, 5, 0, 17, 0]
    }

    // Lends the pool and the table.
    fn lent(&self) -> Lent<'_> {
        self.with(&self.handles)
    }

    // Lends the pool with other handles.
    fn with<'a>(&'a self, handles: &'a [u32]) -> Lent<'a> {
        Lent::new(&self.pool, handles)
    }

    // Runs a pool that begins as this one and has one word more than it may have.
    fn over_pool(&self) -> bool {
        let mut over = [0; MOST_WORDS];
        let (first, rest) = over.split_at_mut(64);
        first.copy_from_slice(&self.pool);
        places(rest, 64);
        Lent::new(&over, &self.handles).lends_none(36, 0..5)
    }

    // Runs a table that begins as this one and has one slot more than it may have.
    fn over_table(&self) -> bool {
        let mut over = [0; MOST_SLOTS];
        over[..5].copy_from_slice(&self.handles);
        self.with(&over).lends_none(36, 0..5)
    }

    // Runs number 1: used above the pool's length, or not a multiple of 4; pool or table over its limit.
    fn refused_1(&self) -> bool {
        let counts = [65, 68, u32::MAX - 3, u32::MAX, 1, 2, 3, 33, 34, 35, 37];
        self.lent().lends_none_at(&counts) && self.over_pool() && self.over_table()
    }

    // Runs number 2: slots past the last, up to the largest; a table without slots, and a pool without words beside.
    fn refused_2(&self) -> bool {
        let max = u32::MAX as usize;
        self.lent().lends_none(36, 5..16)
            && self.lent().lends_none(36, max..max + 6)
            && self.lent().lends(36, usize::MAX, 0, &[], |_| ())
            && self.with(&[]).lends_none(36, 0..3)
            && Lent::new(&[], &[]).lends_none(0, 0..3)
    }

    // Runs number 3: handles that do not leave 1 on division by 4; that are not below used, in the pool and past it; that have the length 0 before them;
    // whose block ends past used, in the pool and past it. Then lists of the table where fewer words are used, and in a pool without words.
    fn refused_3(&self) -> bool {
        let max = u32::MAX;
        self.with(&[2, 3, 4, max - 3, max - 1, max])
            .lends_none(36, 0..6)
            && self
                .with(&[37, 61, 65, 65537, max - 2])
                .lends_none(36, 0..5)
            && self.with(&[13, 33, 25, 21, 29]).lends_none(36, 0..5)
            && self.lent().lends_none_at(&[0])
            && self.with(&[5, 17]).lends_none_at(&[4, 8])
            && Lent::new(&[], &[1, 5]).lends_none_at(&[0])
    }

    // Runs handle 0: the empty slots of the table; slots where no word is used, and where there is none.
    fn empty(&self) -> bool {
        self.lent().lends_none(36, 2..3)
            && self.lent().lends_none(36, 4..5)
            && self.with(&[0, 0, 0]).lends_none(0, 0..3)
            && Lent::new(&[], &[0, 0, 0]).lends_none(0, 0..3)
    }

    // Runs the lists of slots 0 and 1 where the used words end with their block, and lists that share words: two of one block, and one whose length is
    // the last element of these, so that its block lies over others.
    fn more_lists<F: Fn(&mut u32)>(&self, touch: F) -> bool
        requires { F.IsAlwaysCallable touch }
    {
        let list = [11, 12, 13, 14];
        let max = u32::MAX;
        let over = [max, max, max, 0, 0, max, max, 8, 31, 32, 33, 34, 35, 36];
        self.lent().lends(4, 0, 1, &[7, 8, 9], &touch)
            && self.lent().lends(12, 1, 5, &list, &touch)
            && self.with(&[5, 5]).lends(36, 0, 5, &list, &touch)
            && self.with(&[5, 5]).lends(36, 1, 5, &list, &touch)
            && self.with(&[9, 5]).lends(36, 0, 9, &over, &touch)
    }

    // Runs the lists of a pool and a table that begin as these and are as long as they may be.
    fn long<F: Fn(&mut u32)>(&self, touch: F) -> bool
        requires { F.IsAlwaysCallable touch }
    {
        let mut pool = [0; POOL_LIMIT];
        let mut handles = [0; TABLE_LIMIT];
        let (first, rest) = pool.split_at_mut(64);
        first.copy_from_slice(&self.pool);
        places(rest, 64);
        handles[..5].copy_from_slice(&self.handles);
        Lent::new(&pool, &handles).lists(touch)
    }

    // Runs the parts that have words, and calls `touch` on each of these.
    fn done<F: Fn(&mut u32)>(&self, touch: F) -> bool
        requires { F.IsAlwaysCallable touch }
    {
        self.lent().lists(&touch) && self.more_lists(&touch) && self.long(&touch) && longest(&touch)
    }
}

// Prints a group's line. The program `sheet` has a function such as this too: a crate that the two would share, for these two lines, would be no plainer.
fn say(rt: &impl Print, group: &str, ok: bool) -> io::Result<()> {
    let verdict = if ok { "ok" } else { "wrong" };
    println!(rt; "{group} {verdict}")
}

// Runs the groups in order, and prints the line of each before the next one is run. The parts that have words are first read, and then written over with
// other words.
fn main(rt: HostRuntime) -> io::Result<()> {
    let mut groups = Groups::new();
    say(&rt, "filled", groups.fill())?;
    say(&rt, "refused 1", groups.refused_1())?;
    say(&rt, "refused 2", groups.refused_2())?;
    say(&rt, "refused 3", groups.refused_3())?;
    say(&rt, "empty", groups.empty())?;
    say(&rt, "done", groups.done(|_| ()))?;
    say(&rt, "written", groups.done(|word| *word = !*word))
}
