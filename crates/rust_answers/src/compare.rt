// What the Rust left, as the list has it, and how the library's state compares with it.
use super::findings::{Difference, Fault, Place};
use pool::checks::POOL_LIMIT;
use pool::{Answer, ListPool};

// The cells of a state: the used count, then from these on the heads, the handles and the words.
const HEADS: usize = 1;

const HANDLES: usize = 16;

const WORDS: usize = 32;

const CELLS: usize = WORDS + POOL_LIMIT;

// What the Rust left, cell by cell: one array, since a change of the list may be of any run of cells (docs/RUST-ANSWERS.md).
#[derive(Drop)]
pub struct Cells([u32; CELLS]);

impl Cells {
    // Returns the cells before the first line: all are 0.
    pub fn new() -> Cells {
        Cells([0; CELLS])
    }

    // Writes the changes of a line, each a run's first cell, its length and its word. A fault where one is not whole or not of cells that there are.
    pub fn change(&mut self, changes: &[u32]) -> Result<(), Fault> {
        for change in changes.chunks(3) {
            let &[at, run, word] = change else {
                return Err(Fault::Changes);
            };
            let at = at as usize;
            let cells = self.0.get_mut(at..at + run as usize);
            cells.ok_or(Fault::Changes)?.fill(word);
        }
        Ok(())
    }

    // Compares what a call answered and left with what the Rust did, and audits the pool.
    pub fn judge(
        &self,
        answer: Answer,
        value: u32,
        pool: &[u32],
        handles: &[u32],
    ) -> Result<(), Difference> {
        let Answer {
            number,
            value: ours,
            state,
        } = answer;
        equal(Place::Number, number, 0)?;
        equal(Place::Value, ours, value)?;
        equal(Place::Used, state.used, self.0[0])?;
        compared(Place::Head, &state.heads, &self.0[HEADS..])?;
        compared(Place::Handle, handles, &self.0[HANDLES..])?;
        let used = pool.get(..state.used as usize).unwrap_or(pool);
        compared(Place::Word, used, &self.0[WORDS..])?;
        equal(Place::Audit, audited(state, pool, handles), 0)
    }
}

// Compares a number with the Rust's.
fn equal(place: Place, ours: u32, rust: u32) -> Result<(), Difference> {
    if ours == rust {
        Ok(())
    } else {
        Err(Difference { place, ours, rust })
    }
}

// Compares words with the Rust's.
fn compared<P: Fn(usize) -> Place>(place: P, ours: &[u32], rust: &[u32]) -> Result<(), Difference>
    requires { P.IsAlwaysCallable place }
{
    match ours
        .iter()
        .zip(rust)
        .enumerate()
        .find(|(_, (ours, rust))| ours != rust)
    {
        None => Ok(()),
        Some((i, (ours, rust))) => Err(Difference {
            place: place(i),
            ours: *ours,
            rust: *rust,
        }),
    }
}

// Audits the pool as it is, and returns the number.
fn audited(state: ListPool, pool: &[u32], handles: &[u32]) -> u32 {
    let mut map = [0u32; POOL_LIMIT / 4];
    audit::audit(state, pool, handles, &mut map).number
}
