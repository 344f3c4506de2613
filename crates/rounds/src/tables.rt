// A site's table among the words.
ghost use Rattle.std.specs.Prelude.{◌≡◌, ◌≤◌, ◌<◌, length};
ghost use Rattle.rules.specs.meaning.States.{width, table_at};
ghost use Rattle.steps.specs.Verdicts.{Ready};
ghost use Rattle.rounds.specs.Unions.{in_use, Whole};

use rules::Run;
use steps::part_of;
use table::held;

// All of its places.
pub(crate) fn table_at(words: &[u64], run: Run, site: u64) -> &[u64]
    requires ready { Ready run words.now }
    requires inside { site < run.sites }
    ensures value { result.now ≡ table_at run words.now site }
    ensures wide { length result.now ≡ width run }
{
    &words[part_of(run, site)]
}

// Its entries in use.
pub(crate) fn in_use(words: &[u64], run: Run, site: u64) -> &[u64]
    requires ready { Ready run words.now }
    requires inside { site < run.sites }
    ensures value { result.now ≡ in_use (table_at run words.now site) }
    ensures fits { (length result.now ≤ width run) × Whole (length result.now) }
{
    let table = table_at(words, run, site);
    &table[..2 * held(table)]
}
