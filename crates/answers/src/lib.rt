// What the calls on plan files answer and leave: definitions in specs/, theorems of them, and the one number that an answer is made. The calls are in
// crates calls and looks.
#![tactic(auto)]

ghost use Rattle.std.specs.Prelude.{◌≡◌};
ghost use Rattle.answers.specs.Files.{answer_number};

use plan::Refusal;

// include/gristwaltz.h: the refusal number times 2^32 plus the place.
const PLACES: u64 = 1 << 32;

// An answer as one number: a done one's number as it is.
pub fn number_of(answer: Result<u64, Refusal>) -> u64
    ensures { result ≡ answer_number answer }
{
    match answer {
        Ok(n) => n,
        Err(f) => f.number() * PLACES + (f.place() as u64) % PLACES,
    }
}
