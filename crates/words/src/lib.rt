// Runs of words in a slice that the caller lends: filled, copied and stored.
#![tactic(auto)]

ghost use Rattle.std.specs.Prelude.{◌+◌, ◌≤◌, length, ◌≡◌};
ghost use Rattle.words.specs.Runs.{copied, filled, stored};

// Sets `n` words from `at` on to `v`.
pub fn fill(s: &mut [u32], at: usize, n: usize, v: u32)
    requires { at + n ≤ length s.old }
    ensures { s.new ≡ filled s.old at n v }
{
    s[at..at + n].fill(v);
}

// Copies `n` words from `from` on to `to` on, as if all were read before any is written.
pub fn copy(s: &mut [u32], from: usize, to: usize, n: usize)
    requires { (from + n ≤ length s.old) × (to + n ≤ length s.old) }
    ensures { s.new ≡ copied s.old from to n }
{
    s.copy_within(from..from + n, to);
}

// Stores the words of `t` from `at` on. A loop, since the library's `copy_from_slice` becomes a call of the C library's memmove, which the archive for C
// would then ask of whoever links it.
pub fn store(s: &mut [u32], at: usize, t: &[u32])
    requires { at + length t.now ≤ length s.old }
    ensures { s.new ≡ stored s.old at t.now }
{
    for (i, word) in t.iter().enumerate() {
        s[at + i] = *word;
    }
}
