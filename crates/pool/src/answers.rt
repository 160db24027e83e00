// What a call answers: inside the library a refusal is a case of an enum, and outside, where C is handed it, a number beside a value. A call makes the one
// of the other by a `match`: with `?` in a function of its own, each call would have its parameters and its contract twice. `clear`, `set` and `take` take the
// number alone from their `match` and answer once: by `done` and `refused` the compiler would copy the state on two ways, and they take a quarter more time.
ghost use Rattle.std.specs.Prelude.{◌≡◌};
ghost use Rattle.pool.specs.Refusals.{refusal_number};
ghost use Rattle.pool.specs.Rules as rules;

use super::{Answer, ListPool, Refusal};

impl From<Refusal> for u32 {
    ghost from_gives = { λ refusal number. number ≡ refusal_number refusal };

    // Returns the number of a refusal.
    fn from(refusal: Refusal) -> u32 {
        refusal as u32
    }
}

impl ListPool {
    // Refuses a call: the value is 0, and the state is as it was.
    pub fn refused(self, refusal: Refusal) -> Answer
        ensures { result ≡ rules.answer (refusal_number refusal) 0 self }
    {
        Answer {
            number: u32::from(refusal),
            value: 0,
            state: self,
        }
    }

    // Answers a call that is done with its value and the next state.
    pub fn done(self, value: u32) -> Answer
        ensures { result ≡ rules.answer 0 value self }
    {
        Answer {
            number: 0,
            value,
            state: self,
        }
    }
}
