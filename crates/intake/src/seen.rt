// A group's bytes absorbed, by value but for the words and the bytes: judged like a step, then its own tests, then the merge of whole tables.
ghost use Rattle.std.specs.Prelude.{◌≡◌};
ghost use Rattle.rules.specs.meaning.Operations.{as_answer};
ghost use Rattle.rules.specs.meaning.Parcels.{no_parcel};
ghost use Rattle.judge.specs.Judged.{seen_as};
ghost use Rattle.intake.specs.Values.{answer_seen, words_seen};

use groups::read_group;
use judge::judge_seen;
use merging::merge;
use rules::{GROUP_WORDS, Refusal, Run, Scan, Seen};
use steps::part_of;

// 1 or 2; 3 for a site outside; "17, after 7 and before 8", and never 13, since any group's entries fit 128 words; then the entries are merged into the site's
// table like a table's, which is refused with 8 or says how many lengths rose.
pub(crate) fn absorb_seen(
    words: &mut [u64],
    run: Run,
    scan: Scan,
    slots: usize,
    books: Seen,
    site: u64,
    bytes: &[u8],
) -> Result<u64, Refusal>
    ensures { (as_answer result ≡ answer_seen run words.old site bytes.now (seen_as scan no_parcel slots books)) × (words.new ≡ words_seen run words.old site bytes.now (seen_as scan no_parcel slots books)) }
{
    judge_seen(words, run, scan, slots, books)?;
    if run.sites <= site {
        return Err(Refusal::NoSite);
    }
    let mut group = [0u64; GROUP_WORDS];
    let Ok(count) = read_group(bytes, &mut group) else {
        return Err(Refusal::NoGroup);
    };
    merge(&mut words[part_of(run, site)], &group[..2 * count])
}
