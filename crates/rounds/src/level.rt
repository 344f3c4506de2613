// Whether all tables are one already: then they are only read.
ghost use Rattle.std.specs.Prelude.{◌≡◌, true, ℕ, ◌<◌, length};
ghost use Rattle.rules.specs.meaning.States.{table_at};
ghost use Rattle.rounds.specs.Values.{Repairable};

use crate::tables::table_at;
use rules::Run;

// Whether two tables of one size are the same. No early exit: the loop has no branch to guess. `==` on slices has one, and of a zip the compiler makes a loop
// without wide registers: a round of equal tables takes 35 or 12 in 100 longer.
fn same(table: &[u64], other: &[u64]) -> bool
    requires { length table.now ≡ length other.now }
    ensures { result ≡ true → table.now ≡ other.now }
{
    let mut alike = true;
    for k in 0..table.len() {
        alike &= table[k] == other[k];
    }
    alike
}

// Whether every table is that of site 0 already.
pub(crate) fn level(words: &[u64], run: Run) -> bool
    requires { Repairable run words.now }
    ensures { result ≡ true → (k : ℕ) → k < run.sites → table_at run words.now k ≡ table_at run words.now 0 }
{
    let first = table_at(words, run, 0);
    for site in 1..run.sites {
        if !same(first, table_at(words, run, site)) {
            return false;
        }
    }
    true
}
