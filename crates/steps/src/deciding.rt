// What a step comes to once the state is judged: the step's own tests are made and the words changed. Everything here is by value but the words.
ghost use Rattle.std.specs.Prelude.{◌≡◌};
ghost use Rattle.rules.specs.meaning.Refusals.{number_in};
ghost use Rattle.steps.specs.Verdicts.{Ready, as_verdict, looked_at, step_verdict, step_words, verdict_under, words_under};

use crate::deliver::on_deliver;
use crate::merges::on_merge;
use crate::one::{on_query, on_table};
use crate::posts::{on_again, on_lose, on_send};
use crate::verdict::Taken;
use rules::{Parcel, Refusal, Run, Scan, Seen, Sight, Step};

// What the step comes to, by its row.
#[tactic(auto, using(crate::proofs::Choosing::still_words), unfolding(rules::specs::meaning::Steps::effect))]
fn take(words: &mut [u64], run: Run, seen: Sight, step: Step) -> Result<Taken, Refusal>
    requires { Ready run words.old }
    ensures value { as_verdict seen.count result ≡ step_verdict run words.old seen step }
    ensures words_after { words.new ≡ step_words run words.old seen step }
{
    match step {
        Step::Add { site, id } => on_table(words, run, seen, site, |table| table::add(table, id)),
        Step::Remove { site, id } => {
            on_table(words, run, seen, site, |table| table::remove(table, id))
        }
        Step::Query { site, id } => on_query(words, run, seen, site, id),
        Step::Send { from, to, id } => on_send(words, run, seen, from, to, id),
        Step::Merge { from, to } => on_merge(words, run, seen, from, to),
        Step::Deliver { slot } => on_deliver(words, run, seen, slot),
        Step::Again { slot } => on_again(run, seen, slot),
        Step::Lose { slot } => on_lose(run, seen, slot),
    }
}

// Every test of a step, and every change of the words.
pub fn resolve(
    words: &mut [u64],
    run: Run,
    free: usize,
    held: Parcel,
    slots: usize,
    books: Seen,
    step: Step,
) -> Result<Taken, Refusal>
    requires { Ready run words.old }
    ensures value { as_verdict slots result ≡ step_verdict run words.old (looked_at free held slots books) step }
    ensures words_after { words.new ≡ step_words run words.old (looked_at free held slots books) step }
{
    let seen = Sight {
        scan: Scan {
            sound: true,
            waiting: 0,
            free,
        },
        named: held,
        count: slots,
        books,
    };
    take(words, run, seen, step)
}

// The same, unless something has refused the step before: then it is refused with that.
#[tactic(auto, using(crate::proofs::Choosing::under_out, crate::proofs::Choosing::under_in, crate::proofs::Choosing::words_out, crate::proofs::Choosing::words_in))]
pub fn decide(
    words: &mut [u64],
    run: Run,
    free: usize,
    held: Parcel,
    slots: usize,
    books: Seen,
    step: Step,
    refused: Result<(), Refusal>,
) -> Result<Taken, Refusal>
    requires { number_in refused ≡ 0 → Ready run words.old }
    ensures value { as_verdict slots result ≡ verdict_under (number_in refused) run words.old (looked_at free held slots books) step }
    ensures words_after { words.new ≡ words_under (number_in refused) run words.old (looked_at free held slots books) step }
{
    if let Err(refusal) = refused {
        return Err(refusal);
    }
    resolve(words, run, free, held, slots, books, step)
}
