// Delivering an update: it is merged at its site, its slot is freed, and its serial is heard.
ghost use Rattle.std.specs.Prelude.{◌≡◌};
ghost use Rattle.rules.specs.declared.Step.TheVariants.{Deliver};
ghost use Rattle.steps.specs.Verdicts.{Ready, as_verdict, step_verdict, step_words};

use crate::places::part_of;
use crate::posts::is_there;
use crate::verdict::{Taken, tell};
use links::{heard_pair, incomparable};
use rules::{M, Refusal, Run, Sight};

// The slot is freed, the update counted and its serial heard, even if the length did not rise. Where the counter is at the largest nothing may be written, and lack of room is still the first thing to tell.
pub(crate) fn on_deliver(
    words: &mut [u64],
    run: Run,
    seen: Sight,
    slot: u64,
) -> Result<Taken, Refusal>
    requires { Ready run words.old }
    ensures value { as_verdict seen.count result ≡ step_verdict run words.old seen (Deliver slot) }
    ensures words_after { words.new ≡ step_words run words.old seen (Deliver slot) }
{
    let Sight { named, books, .. } = seen;
    if !is_there(run, seen, slot) {
        return Err(Refusal::NoParcel);
    }
    if incomparable(named.serial, books.pair) {
        return Err(Refusal::NoOrder);
    }
    let part = part_of(run, named.site);
    if books.counts.absorbed == M {
        if table::lacks_room(&words[part], named.id, named.length) {
            return Err(Refusal::NoRoom);
        }
        return Err(Refusal::CountFull);
    }
    let value = table::absorb(&mut words[part], named.id, named.length)?;
    Ok(Taken {
        counter: 3,
        at: slot as usize,
        link: books.link,
        pair: heard_pair(named.serial, books.pair),
        ..tell(value, seen)
    })
}
