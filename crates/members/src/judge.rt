// What a list of ids asked of a table is refused for.
ghost use Rattle.std.specs.Prelude.{◌≡◌, ◌≤◌};
ghost use Rattle.rules.specs.meaning.Refusals.{number_in};
ghost use Rattle.rules.specs.meaning.Members.{bytes_for, members_refusal};

use rules::{Refusal, TABLE_WORDS};

// How many bytes so many answers take.
pub(crate) fn bytes_for(ids: usize) -> usize
    requires { ids ≤ 4096 }
    ensures { result ≡ bytes_for ids }
{
    ids.div_ceil(8)
}

// The number of ids is judged before the room: ManyIds comes before ShortBuffer here.
#[tactic(auto, unfolding(rules::specs::meaning::Members::members_refusal, rules::specs::meaning::Refusals::first_given))]
pub(crate) fn refusal_of(table: &[u64], ids: usize, room: usize) -> Result<(), Refusal>
    ensures { number_in result ≡ members_refusal table.now ids room }
{
    if table.len() % 2 == 1 || TABLE_WORDS < table.len() {
        return Err(Refusal::BadSizes);
    }
    if !table::sound(table) {
        return Err(Refusal::Unsound);
    }
    if 4096 < ids {
        return Err(Refusal::ManyIds);
    }
    if room < bytes_for(ids) {
        return Err(Refusal::ShortBuffer);
    }
    Ok(())
}
