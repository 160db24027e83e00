#![tactic(auto)]

// What a sound pool is, and that every call keeps it so: theorems alone, on the word rules of `pool`.
