// What is answered for what a merge comes to.
ghost use Rattle.std.specs.Prelude.{◌≡◌, cond, ltb};
ghost use Rattle.rules.specs.meaning.Operations.{as_answer, answer, accepted, out_of_room};

use crate::counting::Tally;
use rules::Refusal;

// Refused where the entries are more than the places. Nothing is to be written where the value is 0.
pub fn told(comes: Tally, places: usize) -> Result<u64, Refusal>
    ensures { as_answer result ≡ answer (cond (ltb places comes.held) out_of_room accepted) comes.rises }
{
    if places < comes.held {
        Err(Refusal::NoRoom)
    } else {
        Ok(comes.rises)
    }
}
