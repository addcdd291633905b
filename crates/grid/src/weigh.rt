ghost use Rattle.std.specs.Prelude.{◌≡◌, ◌≤◌, ◌==◌, IfOk, map};
ghost use Rattle.std.specs.List.{find};
ghost use Rattle.std.specs.Option.{option_map};
ghost use Rattle.rules.specs.Lists.{below, sum_by};
ghost use Rattle.grid.specs.Legs.{passage_weight};

use crate::legs::Row;
use rules::power::Watts;
use sheet::path::Passage;
use std::alloc::{AllocError, Global};

// The passage along a leg, where the path takes it.
fn passage_on(passages: &[Passage], leg: usize) -> Option<&Passage>
    ensures { option_map (λ x. x.now) result ≡ find (λ x. x.leg == leg) passages.now }
{
    passages.iter().find(|passage| passage.leg == leg)
}

// What a path weighs on a leg: what enters it, since the limit is at the leg's sending end; nothing on one that it does not take.
#[tactic(auto, using(crate::proofs::Weights::weight_found, crate::proofs::Weights::weight_missing))]
fn weight_on(passages: &[Passage], leg: usize) -> Watts
    ensures { result ≡ passage_weight passages.now leg }
{
    match passage_on(passages, leg) {
        Some(passage) => passage.enters,
        None => Watts(0),
    }
}

// A path's weights on so many legs.
fn weights_on(heap: Global, passages: &[Passage], legs: usize) -> Result<Vec<Watts>, AllocError>
    ensures { IfOk result (λ v. v.items ≡ map (passage_weight passages.now) (below legs)) }
{
    (0..legs).map(|leg| weight_on(passages, leg)).collect(heap)
}

// The row of a path over so many legs.
pub(crate) fn row_of(heap: Global, passages: &[Passage], legs: usize) -> Result<Row, AllocError>
    requires { sum_by (λ x. x.enters.0) passages.now ≤ 8000000 }
    ensures { IfOk result (λ r. r.on.items ≡ map (passage_weight passages.now) (below legs)) }
{
    let on = weights_on(heap, passages, legs)?;
    Ok(Row { on })
}
