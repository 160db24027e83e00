// The audit: given any pool, heads and handles, it says whether the pool is sound, and in which block each group of four words lies.
// It reads the used words alone, which are lent below as a slice of their own. They and the map stay two parameters, with what the map's length has to be:
// a struct of both would be lent by `&mut`, and every contract would have to say besides that the used words stay.
#![tactic(auto)]

ghost use Rattle.std.specs.Prelude.{◌≡◌, ◌+◌, ◌*◌, ◌/◌, ◌^◌, ◌≤◌, ◌<◌, length, take, is_ok};
ghost use Rattle.sizes.specs.Class.{class_count};
ghost use Rattle.pool.specs.Numbers.{state_of, table_limit};
ghost use Rattle.audit.specs.Audit as rules;
ghost use Rattle.audit.specs.Passes.{Passed};

use pool::{Answer, ListPool, Refusal, checks};
use sizes::SizeClass;

// What a free block's mark adds to its class. Marks are numbers since C is handed the map.
const FREE: u32 = 2147483648;

// A pool that is not sound.
#[derive(Clone, Copy, Debug, PartialEq, Eq)]
struct Unsound;

// Marks the block before a handle or pointer at its first group; refuses where that group is marked already.
fn mark(map: &mut [u32], h: u32, word: u32) -> Result<(), Unsound>
    requires { (1 ≤ h) × (rules.group_of h < length map.old) }
    ensures { Passed (rules.group_of h + 1) (rules.marked h word map.old) map.old map.new (is_ok result) }
{
    let g = (h as usize - 1) / 4;
    if map[g] != 0 {
        return Err(Unsound);
    }
    map[g] = word;
    Ok(())
}

// Judges every handle of the table and marks its block; refuses where one is not sound, or its block was met before.
fn mark_handles(used: &[u32], handles: &[u32], map: &mut [u32]) -> Result<(), Unsound>
    requires { (length used.now ≤ 4 * length map.old) × (length handles.now ≤ table_limit) }
    ensures { Passed (length used.now / 4)
        (rules.handles_marked (length used.now) used.now 0 handles.now map.old)
        map.old map.new (is_ok result) }
{
    for (slot, &h) in handles.iter().enumerate() {
        if !checks::sound_handle(used.len(), used, h) {
            return Err(Unsound);
        }
        if h != 0 {
            mark(map, h, (slot + 1) as u32)?;
        }
    }
    Ok(())
}

// Follows the chain of the class c from its head, judges every pointer and marks its block; refuses where one is not sound, its block was met before,
// or the chain has more blocks than there are groups.
fn mark_chain(used: &[u32], c: u32, head: u32, map: &mut [u32]) -> Result<(), Unsound>
    requires { (length used.now ≤ 4 * length map.old) × (c < class_count) }
    ensures { Passed (length used.now / 4)
        (rules.chain_marked (length used.now) used.now (length used.now / 4) c head map.old)
        map.old map.new (is_ok result) }
{
    let mut h = head;
    for _ in 0..used.len() / 4 {
        if h == 0 {
            break;
        }
        if !checks::sound_head(used.len(), used, c, h) {
            return Err(Unsound);
        }
        mark(map, h, FREE + c)?;
        h = used[h as usize];
    }
    if h != 0 {
        return Err(Unsound);
    }
    Ok(())
}

// Follows the chain of every class, and refuses where one is refused.
fn mark_chains(
    used: &[u32],
    heads: &[u32; SizeClass::COUNT],
    map: &mut [u32],
) -> Result<(), Unsound>
    requires { length used.now ≤ 4 * length map.old }
    ensures { Passed (length used.now / 4)
        (rules.chains_marked (length used.now) used.now 0 heads.now map.old)
        map.old map.new (is_ok result) }
{
    for (c, &head) in heads.iter().enumerate() {
        mark_chain(used, c as u32, head, map)?;
    }
    Ok(())
}

// Returns how many words the block has that starts at the group g and is marked with the word.
fn words_at(used: &[u32], g: usize, word: u32) -> usize
    requires { g * 4 < length used.now }
    ensures { (result ≡ rules.groups_at used.now g word * 4) × (result ≤ 2 ^ 63) }
{
    let c = if word < FREE {
        SizeClass::for_length(used[g * 4])
    } else {
        word - FREE
    };
    SizeClass::size(c)
}

// Judges whether the marked blocks follow one another without gap or overlap, up to the last of the groups.
fn swept(used: &[u32], map: &[u32]) -> Result<(), Unsound>
    requires { length used.now ≤ 4 * length map.now }
    ensures { is_ok result ≡ rules.swept used.now 0 0 (take (length used.now / 4) map.now) }
{
    let groups = used.len() / 4;
    // the word where the next block has to start
    let mut next = 0;
    for (g, &word) in map[..groups].iter().enumerate() {
        if g * 4 == next {
            if word == 0 {
                return Err(Unsound);
            }
            next += words_at(used, g, word);
        } else if word != 0 {
            return Err(Unsound);
        }
    }
    if next != groups * 4 {
        return Err(Unsound);
    }
    Ok(())
}

// Judges whether the pool is sound; the map, of which the first groups are 0 at entry, then has the marks of its blocks.
fn accepted(
    used: &[u32],
    heads: &[u32; SizeClass::COUNT],
    handles: &[u32],
    map: &mut [u32],
) -> Result<(), Unsound>
    requires { (length used.now ≤ 4 * length map.old) × (length handles.now ≤ table_limit) }
    ensures { Passed (length used.now / 4)
        (rules.accepted (state_of (length used.now) heads.now) used.now handles.now map.old)
        map.old map.new (is_ok result) }
{
    mark_handles(used, handles, map)?;
    mark_chains(used, heads, map)?;
    swept(used, map)
}

// Audits a pool; the answer is a number, as C has it. Answers 0 where it is sound, and then the map says at each block's first group of four words its
// slot + 1, or 2,147,483,648 + its class where it is free, and 0 at its other groups; answers 9 where it is not sound, and then the map's first used / 4
// words are 0.
pub fn audit(state: ListPool, pool: &[u32], handles: &[u32], map: &mut [u32]) -> Answer
    ensures { rules.audited result map.new ≡ rules.audit state pool.now handles.now map.old }
{
    if checks::over_limit(state.used, pool.len(), handles.len()) {
        return state.refused(Refusal::OverLimit);
    }
    let used = &pool[..state.used as usize];
    let groups = used.len() / 4;
    if map.len() < groups {
        return state.refused(Refusal::ShortMap);
    }
    map[..groups].fill(0);
    match accepted(used, &state.heads, handles, map) {
        Ok(()) => state.done(0),
        Err(Unsound) => {
            map[..groups].fill(0);
            state.refused(Refusal::NotSound)
        }
    }
}
