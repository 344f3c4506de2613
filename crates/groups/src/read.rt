// A group, read into lent words.
ghost use Rattle.rules.specs.meaning.Groups.{as_grouped, Entered};

use crate::bytes::decode;
use rules::{GROUP_WORDS, Refusal};

// Reads the group that bytes form into the front of lent words, and answers how many entries it has: no group where they form none, a short buffer where there
// are fewer words than its entries take, and then nothing is written. Words behind the entries keep their values.
#[tactic(auto, using(crate::proofs::Answers::decodings))]
pub fn read_group(bytes: &[u8], entries: &mut [u64]) -> Result<usize, Refusal>
    ensures { Entered bytes.now entries.old (as_grouped result) entries.new }
{
    let mut words = [0u64; GROUP_WORDS];
    let count = decode(bytes, &mut words).ok_or(Refusal::NoGroup)?;
    let many = 2 * count;
    if entries.len() < many {
        return Err(Refusal::ShortBuffer);
    }
    entries[..many].copy_from_slice(&words[..many]);
    Ok(count)
}
