//! An audit of commands on REQ sketches.
ghost use Rattle.std.specs.Prelude.{◌≡◌, ◌≤◌, ◌<◌, ◌*◌, ◌^◌, ◌⊎◌, IfOk, IfErr, IsTrue, All, length, sum};
ghost use Rattle.std.specs.declared.cmp.Ordering.TheVariants.{Equal};
ghost use Rattle.sketch_base.specs.declared.error.ErrorKind.TheVariants.{InvalidArgument, OutOfMemory};
ghost use Rattle.sketch_base.specs.Query.{true_rank as rank_in};
ghost use Rattle.sketch_base.specs.Spelling.{SpellingsTie};
ghost use Rattle.sketch_base.specs.Trace.{coins as taken};
ghost use Rattle.quantile_sketches.specs.Audit.{AreRunWeights};
ghost use Rattle.quantile_sketches.specs.Plan.{trace_of};
ghost use Rattle.quantile_sketches.specs.ReqFair.{is_fair_slot};
ghost use Rattle.quantile_sketches.specs.ReqKind.{req_kind};
ghost use Rattle.quantile_sketches.specs.ReqPlan.{tails_of};
ghost use Rattle.quantile_sketches.specs.ReqReady.{stays_fair};
ghost use Rattle.quantile_sketches.specs.ReqRules.{req_rules};
ghost use Rattle.quantile_sketches.specs.ReqUpdated.{was_only_updated, off_tail_at, WeightsAreRelative};
ghost use Rattle.quantile_sketches.specs.Run.{stream_of};

use super::audits::audit_family;
use crate::commands::{Audit, Command};
use sketch_base::common::SearchCriteria;
use sketch_base::error::Error;
use sketch_req::RankAccuracy;
use sketch_req::sketch::ReqSketch;
use sketch_req::value::ReqValue;
use std::alloc::Global;

/// Runs commands on REQ sketches under every word of the coins that they take, and returns an
/// item's weighted rank in a slot under each word, with the true rank. An absent slot counts as 0.
///
/// If the slot was only updated since its New or Reset, the weights average to the true rank, and
/// their standard error is relative: small if few items lie between the item and the protected end.
/// They also average to it if coins are redrawn, by `MergeRedrawn`s of such slots and a `Redraw`
/// after each round trip. On the protected tail of `3t` items, t being the slot's tail number, each
/// weight is the true rank.
///
/// A round trip that is refused for the length of its image counts here as one that was accepted.
///
/// Values with the same spelling must compare equal, and so must an item and its clone. Returns
/// `InvalidArgument` only if more than 16 coins are taken; any other error is `OutOfMemory`. With
/// more than 16 coins the call never succeeds.
pub fn audit_req<T: ReqValue + Clone + Ord>(
    alloc: Global,
    commands: &[Command<T, (u16, RankAccuracy)>],
    slot: u8,
    item: &T,
    criteria: SearchCriteria,
) -> Result<Audit, Error>
    requires codec { SpellingsTie T.cmp T.spelling }
    requires clones { (x y : T) → T.is_clone x y → T.cmp x y ≡ Equal }
    ensures enough { IfOk result (λ audit. taken (trace_of req_rules commands.now) ≤ 16) }
    ensures errors { IfErr result (λ e. (e ≡ OutOfMemory)
        ⊎ ((e ≡ InvalidArgument) × (16 < taken (trace_of req_rules commands.now)))) }
    ensures coins { IfOk result (λ audit. audit.coins ≡ taken (trace_of req_rules commands.now)) }
    ensures words { IfOk result (λ audit.
        length audit.weights.items ≡ 2 ^ taken (trace_of req_rules commands.now)) }
    ensures weights { IfOk result (λ audit. AreRunWeights (req_kind T.cmp T.spelling)
        item.now criteria commands.now slot audit.weights.items) }
    ensures true_rank { IfOk result (λ audit.
        audit.true_rank ≡ rank_in T.cmp item.now criteria (stream_of req_rules commands.now slot)) }
    ensures sum { IsTrue (was_only_updated commands.now slot) → IfOk result (λ audit.
        sum audit.weights.items ≡ length audit.weights.items * audit.true_rank) }
    ensures fair { IsTrue (is_fair_slot commands.now slot) → IfOk result (λ audit.
        sum audit.weights.items ≡ length audit.weights.items * audit.true_rank) }
    ensures redrawn { IsTrue (stays_fair commands.now slot) → IfOk result (λ audit.
        sum audit.weights.items ≡ length audit.weights.items * audit.true_rank) }
    ensures tail { off_tail_at T.cmp item.now criteria commands.now slot
        ≤ 3 * tails_of commands.now slot
        → IfOk result (λ audit. All (λ weight. weight ≡ audit.true_rank) audit.weights.items) }
    ensures relative { IfOk result (λ audit. WeightsAreRelative
        T.cmp item.now criteria commands.now slot audit.weights.items audit.true_rank) }
{
    audit_family::<ReqSketch<T>>(alloc, commands, slot, item, criteria)
}
