//! What compaction would do to the versions of one key, decided by a judge before anything is touched.

#![tactic(auto)]

ghost use Rattle.std.specs.Prelude.{◌≡◌, IfOk, None, map, filter, not};
ghost use Rattle.preview.specs.declared.decision.Decision.{Decision};
ghost use Rattle.judges.specs.Kinds.{prepared};
ghost use Rattle.preview.specs.Walk.{walk, left};

use judges::{Judge, prepare};
use std::alloc::{AllocError, Global};

mod decision;
mod laws;
mod verdict;

pub use decision::Decision;
pub use laws::{law_of_previews, law_of_verdicts};
pub use verdict::Verdict;

// Prepares a judge for a cutoff and the stamps of open sessions, and has it decide on a key's versions, given by their
// stamps from the newest down.
pub fn preview<J: Judge>(
    heap: Global,
    judge: &mut J,
    cutoff: u64,
    sessions: &[u64],
    versions: &[u64],
) -> Result<Vec<Decision>, AllocError>
    ensures judge { J.Judge.means judge.new ≡ prepared J.Judge.kind (J.Judge.means judge.old) cutoff sessions.now }
    ensures decisions { IfOk result (λ v. v.items ≡ walk (J.Judge.kind.drops (J.Judge.means judge.new)) None versions.now) }
{
    prepare(judge, cutoff, sessions);
    decide(heap, judge, versions)
}

// The judge decides on one version after the other, from the newest down. A `for`, since a `scan` would be no plainer: its
// closure would keep the next newer version that stays behind a reference, and answer an `Option` that is never none.
fn decide<J: Judge>(heap: Global, judge: &J, versions: &[u64]) -> Result<Vec<Decision>, AllocError>
    ensures { IfOk result (λ v. v.items ≡ walk (J.Judge.kind.drops (J.Judge.means judge.now)) None versions.now) }
{
    let mut decisions = Vec::new(heap);
    let mut newer = None;
    for stamp in versions {
        let decision = Decision::by(judge, *stamp, newer);
        newer = decision.newer_below();
        decisions.push(decision)?;
    }
    Ok(decisions)
}

// The stamps of the versions that stay.
#[tactic(auto, using(crate::proofs::Walking::left_by_chain))]
pub fn staying(heap: Global, decisions: &[Decision]) -> Result<Vec<u64>, AllocError>
    ensures { IfOk result (λ v. v.items ≡ left decisions.now) }
{
    stamps_staying(heap, decisions)
}

// The same, in the library's words.
fn stamps_staying(heap: Global, decisions: &[Decision]) -> Result<Vec<u64>, AllocError>
    ensures { IfOk result (λ v. v.items ≡ map (λ (d : Decision). d.stamp) (filter (λ (d : Decision). not d.dropped) decisions.now)) }
{
    let staying = decisions.iter().filter(|decision| decision.stays());
    staying.map(|decision| decision.stamp).collect(heap)
}
