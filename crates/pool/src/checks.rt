// The checks that the calls and the audit share, on any input whatever: the limits, and local soundness of a handle and of a head. The used count stands
// beside the words, and is not their length: the functions are public, and their rules speak of every used count and every pool, a shorter one too.
ghost use Rattle.std.specs.Prelude.{◌≡◌};
ghost use Rattle.pool.specs.Numbers as numbers;

use sizes::SizeClass;

// The most words of a pool.
pub const POOL_LIMIT: usize = 65536;

// The most handles of a table.
pub const TABLE_LIMIT: usize = 16384;

// Returns whether the pool or the table is over its limit.
pub fn too_long(pool: usize, table: usize) -> bool
    ensures { result ≡ numbers.too_long pool table }
{
    pool > POOL_LIMIT || table > TABLE_LIMIT
}

// Returns whether a limit is passed: a length over its own, or a used count above the pool's length or not a multiple of 4.
pub fn over_limit(used: u32, pool: usize, table: usize) -> bool
    ensures { result ≡ numbers.over_limit used pool table }
{
    too_long(pool, table) || used as usize > pool || used % 4 != 0
}

// Returns whether a handle is locally sound.
pub fn sound_handle(used: usize, pool: &[u32], h: u32) -> bool
    ensures { result ≡ numbers.sound_handle used pool.now h }
{
    if h == 0 {
        return true;
    }
    let at = h as usize;
    if h % 4 != 1 || at >= used || at > pool.len() {
        return false;
    }
    let n = pool[at - 1];
    n >= 1 && at - 1 + SizeClass::size(SizeClass::for_length(n)) <= used
}

// Returns whether a head of the class c is locally sound.
pub fn sound_head(used: usize, pool: &[u32], c: u32, h: u32) -> bool
    ensures { result ≡ numbers.sound_head used pool.now c h }
{
    if h == 0 {
        return true;
    }
    // No block of a class over 61 lies below used: its size is over 64 bits, and `SizeClass::size` gives 0 for it.
    if h % 4 != 1 || c >= 62 {
        return false;
    }
    let at = h as usize;
    // A word that is not there counts as 0, as in the rule. Where used is within the pool, as it is wherever a head is judged, it is there.
    at - 1 + SizeClass::size(c) <= used && (at > pool.len() || pool[at - 1] == 0)
}
