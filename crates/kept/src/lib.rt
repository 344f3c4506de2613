// A small run kept by value: 48 words, 8 slots and a ledger, for programs that make the state themselves.
#![tactic(auto)]

ghost use Rattle.std.specs.Prelude.{◌≡◌, replicate};
ghost use Rattle.rules.specs.meaning.Ledgers.{begun_ledger};
ghost use Rattle.rules.specs.meaning.Operations.{as_answer};
ghost use Rattle.rules.specs.meaning.Parcels.{no_parcel};
ghost use Rattle.rules.specs.meaning.States.{lent};
ghost use Rattle.rules.specs.meaning.Runs.{Stepped};
ghost use Rattle.kept.specs.Kept.{kept_state};

use rules::{Counts, ENTRIES, Ledger, Pair, Parcel, Refusal, Run, Step};

#[derive(Clone, Copy)]
pub struct Kept {
    pub words: [u64; 48],
    pub slots: [Parcel; 8],
    pub ledger: Ledger,
}

// The run after a step, and what the step answered.
#[derive(Clone, Copy)]
pub struct Moved {
    pub kept: Kept,
    pub answer: Result<u64, Refusal>,
}

// A run to begin with: no id at any site, every slot free, no count, and every link at the first serial.
pub fn fresh_kept(first: u32) -> Kept
    ensures { kept_state result ≡ lent (replicate 48 0) (replicate 8 no_parcel) (begun_ledger first) }
{
    let begun = Pair {
        next: first,
        unsent: 1,
        unheard: 1,
        ..Pair::default()
    };
    Kept {
        words: [0; 48],
        slots: [Parcel::default(); 8],
        ledger: Ledger {
            counts: Counts::default(),
            pairs: [begun; ENTRIES],
        },
    }
}

// What a step makes of a kept run, which is lent to it: the run after it, and the answer.
pub fn step_kept(mut kept: Kept, run: Run, step: Step) -> Moved
    ensures { Stepped run (kept_state kept) step (as_answer result.answer) (kept_state result.kept) }
{
    let answer = sites::step(
        &mut kept.words,
        &mut kept.slots,
        &mut kept.ledger,
        run,
        step,
    );
    Moved { kept, answer }
}
