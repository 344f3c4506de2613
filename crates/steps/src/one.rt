// The steps on one site's table: add, remove and query.
ghost use Rattle.std.specs.Prelude.{◌≡◌, ◌≤◌, ◌<◌, List, ℕ, Result};
ghost use Rattle.std.specs.Fn.{FnOnceTakesAtMut, FnOnceReturnsAtMut};
ghost use Rattle.rules.specs.declared.Refusal.{Refusal};
ghost use Rattle.rules.specs.meaning.Operations.{as_answer};
ghost use Rattle.rules.specs.declared.Step.TheVariants.{Query};
ghost use Rattle.rules.specs.meaning.States.{table_at, with_table};
ghost use Rattle.rules.specs.meaning.Table.{SoundTable};
ghost use Rattle.steps.specs.Verdicts.{Ready, as_verdict, refused_verdict, table_verdict, step_verdict};

use crate::places::part_of;
use crate::verdict::{Taken, tell};
use rules::{Refusal, Run, Sight};

// A step that changes one site's table: what the change answers is what the step answers.
pub(crate) fn on_table<F: FnOnce(&mut [u64]) -> Result<u64, Refusal>>(
    words: &mut [u64],
    run: Run,
    seen: Sight,
    site: u64,
    change: F,
) -> Result<Taken, Refusal>
    requires ready { Ready run words.old }
    requires takes { (t : List ℕ) → SoundTable t → FnOnceTakesAtMut F.FnOnce change t }
    ensures outside { run.sites ≤ site → (as_verdict seen.count result ≡ refused_verdict 3 seen.count) × (words.new ≡ words.old) }
    ensures inside { site < run.sites → (a : Result ℕ Refusal) × (t : List ℕ) × FnOnceReturnsAtMut F.FnOnce change (table_at run words.old site) a t × (as_verdict seen.count result ≡ table_verdict (as_answer a) seen.count) × (words.new ≡ with_table run words.old site t) }
{
    if run.sites <= site {
        return Err(Refusal::NoSite);
    }
    let value = change(&mut words[part_of(run, site)])?;
    Ok(tell(value, seen))
}

pub(crate) fn on_query(
    words: &[u64],
    run: Run,
    seen: Sight,
    site: u64,
    id: u64,
) -> Result<Taken, Refusal>
    requires { Ready run words.now }
    ensures { as_verdict seen.count result ≡ step_verdict run words.now seen (Query site id) }
{
    if run.sites <= site {
        return Err(Refusal::NoSite);
    }
    Ok(tell(table::query(&words[part_of(run, site)], id), seen))
}
