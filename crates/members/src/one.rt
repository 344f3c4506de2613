// The answer for one id.
ghost use Rattle.std.specs.Prelude.{◌≡◌};
ghost use Rattle.rules.specs.meaning.Table.{SoundTable};
ghost use Rattle.rules.specs.meaning.Members.{is_member};

// Whether the table lists the id.
pub(crate) fn is_member(table: &[u64], id: u64) -> bool
    requires { SoundTable table.now }
    ensures { result ≡ is_member table.now id }
{
    lengths::listed(table::query(table, id))
}
