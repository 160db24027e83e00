// Paper 01's bench sheet, run: a line for each row, `ok`, or `wrong` where a number, value, used count, head, word or handle is another than the
// row's. A pool is an array of 16,384 words, all 0 at start, whose first 16 are lent (12 for P6); the others must stay 0.
// No heap: arrays of fixed size on the stack, as the pool is fixed and lent.
#![tactic(auto)]

use audit::audit;
use pool::{Answer, ListPool};
use sizes::SizeClass;
use std::io;

// The sheet's M.
const M: u32 = u32::MAX;

// Returns whether every word is 0.
fn is_zero(words: &[u32]) -> bool {
    words.iter().all(|word| *word == 0)
}

// Returns the answer of this number and value that leaves this used count and these heads, the others 0.
fn answer(number: u32, value: u32, used: u32, heads: [u32; 2]) -> Answer {
    let mut state = ListPool {
        used,
        ..ListPool::default()
    };
    state.heads[..2].copy_from_slice(&heads);
    Answer {
        number,
        value,
        state,
    }
}

// A pool and its table: the pool's state, its words, in two parts of which the first is lent, and the handles.
#[derive(Drop)]
struct Bench<'a> {
    state: ListPool,
    lent: &'a mut [u32],
    rest: &'a mut [u32],
    handles: [u32; 3],
}

impl<'a> Bench<'a> {
    // Returns a cleared pool of the two parts' words.
    fn new((lent, rest): (&'a mut [u32], &'a mut [u32])) -> Self {
        Bench {
            state: ListPool::default(),
            lent,
            rest,
            handles: [0; 3],
        }
    }

    // Makes a call, keeps the state that it hands back, and returns its answer.
    fn call<F: FnOnce(ListPool, &mut [u32], &mut [u32]) -> Answer>(&mut self, f: F) -> Answer
        requires { F.IsAlwaysCallable f }
    {
        let answer = f(self.state, self.lent, &mut self.handles);
        self.state = answer.state;
        answer
    }

    // Audits the pool with these handles, and returns the answer and the map, whose words are M before.
    fn audit(&self, handles: &[u32]) -> (Answer, [u32; 4]) {
        let mut map = [M; 4];
        (audit(self.state, self.lent, handles, &mut map), map)
    }

    // Returns the list in a slot.
    fn list(&self, slot: usize) -> &[u32] {
        self.state.as_slice(self.lent, &self.handles, slot)
    }

    // Returns whether the pool begins with these words and every further word is 0, and the handles are these. `holds` of the program `lent` asks the
    // same of words: a crate that the two would share, for these lines, would be no plainer.
    fn holds(&self, words: &[u32], handles: [u32; 3]) -> bool {
        self.lent.strip_prefix(words).is_some_and(is_zero)
            && is_zero(self.rest)
            && self.handles == handles
    }

    // Runs P1, push 7 on slot 0: returns 0; words 1,7,M,M; handle 1; used 4.
    fn p1(&mut self) -> bool {
        let a = self.call(|s, pool, handles| s.push(pool, handles, 0, 7));
        a == answer(0, 0, 4, [0, 0]) && self.holds(&[1, 7, M, M], [1, 0, 0])
    }

    // Runs P2, push 8, 9: words 3,7,8,9.
    fn p2(&mut self) -> bool {
        let a = self.call(|s, pool, handles| s.push(pool, handles, 0, 8));
        let b = self.call(|s, pool, handles| s.push(pool, handles, 0, 9));
        a == answer(0, 1, 4, [0, 0])
            && b == answer(0, 2, 4, [0, 0])
            && self.holds(&[3, 7, 8, 9], [1, 0, 0])
    }

    // Runs P3, push 10: words 0,0,8,9,4,7,8,9,10,M,M,M; handle 5; head 0 is 1; used 12.
    fn p3(&mut self) -> bool {
        let a = self.call(|s, pool, handles| s.push(pool, handles, 0, 10));
        a == answer(0, 3, 12, [1, 0])
            && self.holds(&[0, 0, 8, 9, 4, 7, 8, 9, 10, M, M, M], [5, 0, 0])
    }

    // Runs P4, push 5 on slot 1: first words 1,5,8,9; handle 1; head 0 is 0.
    fn p4(&mut self) -> bool {
        let a = self.call(|s, pool, handles| s.push(pool, handles, 1, 5));
        a == answer(0, 0, 12, [0, 0])
            && self.holds(&[1, 5, 8, 9, 4, 7, 8, 9, 10, M, M, M], [5, 1, 0])
    }

    // Runs P5, remove position 0 of slot 0: words 1,5,8,9,0,0,9,10,10,M,M,M,3,8,9,10; handle 13; head 1 is 5; used 16.
    fn p5(&mut self) -> bool {
        let words = [1, 5, 8, 9, 0, 0, 9, 10, 10, M, M, M, 3, 8, 9, 10];
        let a = self.call(|s, pool, handles| s.remove(pool, handles, 0, 0));
        a == answer(0, 0, 16, [0, 5]) && self.holds(&words, [13, 1, 0])
    }

    // Runs P6, P1 to P5 in a 12-word pool: the remove answers 7, nothing moves.
    fn p6() -> bool {
        let mut words = [0; 16384];
        let mut bench = Bench::new(words.split_at_mut(12));
        let before = bench.p1() && bench.p2() && bench.p3() && bench.p4();
        let a = bench.call(|s, pool, handles| s.remove(pool, handles, 0, 0));
        before
            && a == answer(7, 0, 12, [0, 0])
            && bench.holds(&[1, 5, 8, 9, 4, 7, 8, 9, 10, M, M, M], [5, 1, 0])
    }

    // Runs P7, after P5, push on slot 2: 7, although 8 words are free in class 1.
    fn p7(&mut self) -> bool {
        let words = [1, 5, 8, 9, 0, 0, 9, 10, 10, M, M, M, 3, 8, 9, 10];
        let a = self.call(|s, pool, handles| s.push(pool, handles, 2, 1));
        a == answer(7, 0, 16, [0, 5]) && self.holds(&words, [13, 1, 0])
    }

    // Runs P8, after P5, extend slot 1 by 1,2,3: words 0,0,8,9,4,5,1,2,3,M,M,M,3,8,9,10; handles 13,5,0; head 0 is 1, head 1 is 0.
    // Audit map 2147483648,2,0,1.
    fn p8(&mut self) -> bool {
        let words = [0, 0, 8, 9, 4, 5, 1, 2, 3, M, M, M, 3, 8, 9, 10];
        let a = self.call(|s, pool, handles| s.extend(pool, handles, 1, &[1, 2, 3]));
        a == answer(0, 0, 16, [1, 0])
            && self.holds(&words, [13, 5, 0])
            && self.audit(&self.handles) == (answer(0, 0, 16, [1, 0]), [2147483648, 2, 0, 1])
    }

    // Runs P9, P8 with slot 2 set to 5: audit 9, and the map's words become 0. The table is a copy, so that P11 has P8's.
    fn p9(&self) -> bool {
        let mut handles = self.handles;
        handles[2] = 5;
        self.audit(&handles) == (answer(9, 0, 16, [1, 0]), [0; 4])
    }

    // Runs P10, lengths 1, 3, 4, 7, 8, 65,535: classes 0, 0, 1, 1, 2, 14.
    fn p10() -> bool {
        [1, 3, 4, 7, 8, 65535].map(SizeClass::for_length) == [0, 0, 1, 1, 2, 14]
    }

    // Runs P11, after P8, truncate slot 1 to 3: words 3,5,1,2,0,0,1,2,3,M,M,M,3,8,9,10; handle 1; head 0 is 0, head 1 is 5.
    fn p11(&mut self) -> bool {
        let words = [3, 5, 1, 2, 0, 0, 1, 2, 3, M, M, M, 3, 8, 9, 10];
        let a = self.call(|s, pool, handles| s.truncate(pool, handles, 1, 3));
        a == answer(0, 0, 16, [0, 5]) && self.holds(&words, [13, 1, 0])
    }

    // Runs P12, list 7,8 in a fresh block, `grow_at` 0 by 1: list 7,7,8.
    fn p12() -> bool {
        let mut words = [0; 16384];
        let mut bench = Bench::new(words.split_at_mut(16));
        let a = bench.call(|s, pool, handles| s.from_slice(pool, handles, 0, &[7, 8]));
        let b = bench.call(|s, pool, handles| s.grow_at(pool, handles, 0, 0, 1));
        a == answer(0, 0, 4, [0, 0])
            && b == answer(0, 0, 4, [0, 0])
            && bench.list(0) == [7, 7, 8].as_slice()
            && bench.holds(&[3, 7, 7, 8], [1, 0, 0])
    }
}

// Prints a row's line. The program `lent` has a function such as this too: a crate that the two would share, for these two lines, would be no plainer.
fn say(rt: &impl Print, row: u32, ok: bool) -> io::Result<()> {
    let verdict = if ok { "ok" } else { "wrong" };
    println!(rt; "P{row} {verdict}")
}

// Runs the rows in order, and prints the line of each before the next one is run. P6 and P12 have a pool each; the others share one.
fn main(rt: HostRuntime) -> io::Result<()> {
    let mut words = [0; 16384];
    let mut bench = Bench::new(words.split_at_mut(16));
    say(&rt, 1, bench.p1())?;
    say(&rt, 2, bench.p2())?;
    say(&rt, 3, bench.p3())?;
    say(&rt, 4, bench.p4())?;
    say(&rt, 5, bench.p5())?;
    say(&rt, 6, Bench::p6())?;
    say(&rt, 7, bench.p7())?;
    say(&rt, 8, bench.p8())?;
    say(&rt, 9, bench.p9())?;
    say(&rt, 10, Bench::p10())?;
    say(&rt, 11, bench.p11())?;
    say(&rt, 12, Bench::p12())
}
