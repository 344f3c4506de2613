// The steps on parcels that change no table: send, again and lose.
ghost use Rattle.std.specs.Prelude.{◌≡◌, ◌<◌, not, true, List, ℕ};
ghost use Rattle.rules.specs.declared.Step.TheVariants.{Send, Again, Lose};
ghost use Rattle.rules.specs.meaning.Steps.{nothing_there};
ghost use Rattle.steps.specs.Verdicts.{Ready, as_verdict, posted, step_verdict};

use crate::places::{part_of, two_sites};
use crate::verdict::{Taken, tell};
use links::sent_pair;
use parcels::is_occupied;
use rules::{M, NO_LINK, Pair, Parcel, Refusal, Run, Sight};

// A new parcel takes the free slot with the lowest number, unless there is none or its counter is at the largest. The entry of its link is set with it, so
// that a refused send uses no serial.
#[tactic(auto, unfolding(crate::specs::Verdicts::posted, rules::specs::meaning::Refusals::first_given))]
fn post(
    seen: Sight,
    parcel: Parcel,
    counter: u64,
    counted: u64,
    link: usize,
    pair: Pair,
) -> Result<Taken, Refusal>
    ensures { as_verdict seen.count result ≡ posted seen parcel counter counted link pair }
{
    let free = seen.scan.free;
    if seen.count <= free {
        Err(Refusal::NoSlot)
    } else if counted == M {
        Err(Refusal::CountFull)
    } else {
        Ok(Taken {
            value: free as u64,
            counter,
            at: free,
            parcel,
            link,
            pair,
        })
    }
}

// The sender's length for the id goes to another site, with the next serial of the link.
#[tactic(auto, using(table::proofs::Raising::found, crate::proofs::Tables::part_sound))]
pub(crate) fn on_send(
    words: &[u64],
    run: Run,
    seen: Sight,
    from: u64,
    to: u64,
    id: u64,
) -> Result<Taken, Refusal>
    requires { Ready run words.now }
    ensures { as_verdict seen.count result ≡ step_verdict run words.now seen (Send from to id) }
{
    two_sites(run, from, to)?;
    let own = &words[part_of(run, from)];
    let Some(i) = table::lookup(own, id) else {
        return Err(Refusal::NothingToSend);
    };
    let pair = seen.books.pair;
    let parcel = Parcel {
        site: to,
        id,
        length: own[2 * i + 1],
        sender: from as u32,
        serial: pair.next,
    };
    post(
        seen,
        parcel,
        1,
        seen.books.counts.sent,
        seen.books.link,
        sent_pair(pair),
    )
}

// Whether the named slot is there and occupied. An occupied one names a site of the run.
pub(crate) fn is_there(run: Run, seen: Sight, slot: u64) -> bool
    ensures value { result ≡ not (nothing_there run seen slot) }
    ensures site { result ≡ true → seen.named.site < run.sites }
{
    slot < seen.count as u64 && is_occupied(seen.named, run.sites)
}

// A second parcel like the one in the slot, with its sender and its serial.
#[tactic(auto, unfolding(crate::specs::Verdicts::posted, crate::specs::Verdicts::step_refusal, rules::specs::meaning::Refusals::first_given, rules::specs::meaning::Steps::effect))]
pub(crate) fn on_again(run: Run, seen: Sight, slot: u64) -> Result<Taken, Refusal>
    ensures { (ws : List ℕ) → as_verdict seen.count result ≡ step_verdict run ws seen (Again slot) }
{
    if is_there(run, seen, slot) {
        post(
            seen,
            seen.named,
            2,
            seen.books.counts.copied,
            NO_LINK,
            Pair::default(),
        )
    } else {
        Err(Refusal::NoParcel)
    }
}

// The slot is freed, and its update is lost.
#[tactic(auto, unfolding(crate::specs::Verdicts::step_refusal, rules::specs::meaning::Refusals::first_given, rules::specs::meaning::Steps::effect))]
pub(crate) fn on_lose(run: Run, seen: Sight, slot: u64) -> Result<Taken, Refusal>
    ensures { (ws : List ℕ) → as_verdict seen.count result ≡ step_verdict run ws seen (Lose slot) }
{
    if !is_there(run, seen, slot) {
        Err(Refusal::NoParcel)
    } else if seen.books.counts.lost == M {
        Err(Refusal::CountFull)
    } else {
        Ok(Taken {
            counter: 4,
            at: slot as usize,
            ..tell(0, seen)
        })
    }
}
