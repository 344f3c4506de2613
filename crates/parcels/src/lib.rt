// The parcel list: a lent slice of slots, read, stored to, counted and cleared. What each function means is said in `specs/meaning/Parcels.antt` of the
// crate `rules`. Every function here takes any slots at all: whether they are sound is one of the things that a scan tells.
#![tactic(auto)]

ghost use Rattle.std.specs.Prelude.{◌≡◌, cond, ◌≤◌, ◌<◌, ◌^◌, min, set, get_or};
ghost use Rattle.rules.specs.meaning.Lengths.{M};
ghost use Rattle.rules.specs.meaning.Parcels.{no_parcel, is_free, is_occupied, lowest_free, scan_of, cleared};
ghost use Rattle.parcels.specs.Turns.{look_of};

use rules::{M, Parcel, Scan};

// What stands in a free slot.
pub fn no_parcel() -> Parcel
    ensures { result ≡ no_parcel }
{
    Parcel::default()
}

// Whether a slot is free. There is no early exit, here and below: a scan then has few branches to guess.
#[tactic(auto, unfolding(rules::specs::meaning::Parcels::is_free))]
pub fn is_free(p: Parcel) -> bool
    ensures { result ≡ is_free p }
{
    (p.site == 0) & (p.id == 0) & (p.length == 0) & (p.sender == 0) & (p.serial == 0)
}

// Whether a slot is rightly occupied: its length is one that a table can hold, its site is one of the run, and its sender is another one.
#[tactic(auto, unfolding(rules::specs::meaning::Parcels::is_occupied))]
pub fn is_occupied(p: Parcel, sites: u64) -> bool
    ensures { result ≡ is_occupied M sites p }
{
    let sender = u64::from(p.sender);
    (1 <= p.length) & (p.length <= M) & (p.site < sites) & (sender < sites) & (sender != p.site)
}

// What a scan knows once it has seen the slot at `at` too. The slots are seen in order, so of two free ones the smaller was seen before.
fn look(s: Scan, p: Parcel, at: usize, sites: u64) -> Scan
    requires { s.waiting < 2 ^ 63 }
    ensures { result ≡ look_of M sites at p s }
{
    if is_free(p) {
        Scan {
            free: s.free.min(at),
            ..s
        }
    } else {
        Scan {
            sound: s.sound & is_occupied(p, sites),
            waiting: s.waiting + 1,
            ..s
        }
    }
}

// All that the operations ask of the slots, in one pass. The number of slots stands for a free one until one is seen.
#[tactic(auto, using(crate::proofs::TurnLaws::scanned))]
pub fn scan_slots(slots: &[Parcel], sites: u64) -> Scan
    ensures { result ≡ scan_of M sites slots.now }
{
    let mut s = Scan {
        sound: true,
        waiting: 0,
        free: slots.len(),
    };
    for (at, parcel) in slots.iter().enumerate() {
        s = look(s, *parcel, at, sites);
    }
    s
}

// The lowest free slot, or the number of slots where none is free; 0 where none is wanted, and then no slot is looked at. Below `low` no slot is free, so
// the search begins there, and it ends at the slot that it finds.
#[tactic(auto, using(crate::proofs::SearchLaws::lowest_here, crate::proofs::SearchLaws::lowest_on, rules::proofs::laws::run::Slots::lowest_within))]
pub fn lowest_free(slots: &[Parcel], wanted: bool, low: usize) -> usize
    requires { low ≤ lowest_free slots.now }
    ensures { result ≡ cond wanted (lowest_free slots.now) 0 }
{
    if !wanted {
        return 0;
    }
    for at in low..slots.len() {
        if is_free(slots[at]) {
            return at;
        }
    }
    slots.len()
}

// The parcel in a slot. Past the end there is none, so that no caller has a number of slots to compare with.
pub fn read_slot(slots: &[Parcel], at: usize) -> Parcel
    ensures { result ≡ get_or slots.now at no_parcel }
{
    slots.get(at).copied().unwrap_or_default()
}

// Puts a parcel into a slot. Past the end nothing changes: the caller that has nothing to store names a slot that is not there.
pub fn store_slot(slots: &mut [Parcel], at: usize, parcel: Parcel)
    ensures { slots.new ≡ set slots.old at parcel }
{
    // No `get_mut`, after which a proof knows no slot.
    if at < slots.len() {
        slots[at] = parcel;
    }
}

// The smaller of two slot numbers or counts of slots.
pub fn smaller(a: usize, b: usize) -> usize
    ensures { result ≡ min a b }
{
    a.min(b)
}

// Makes the first slots free, or all where there are fewer.
pub fn clear_slots(slots: &mut [Parcel], count: usize)
    ensures { slots.new ≡ cleared count slots.old }
{
    let end = smaller(count, slots.len());
    slots[..end].fill(no_parcel());
}
