//! What is proved of covers and overlaps cut by weight. The functions do nothing: each states a law as its clause.

ghost use Rattle.tails_by_weight.specs.WeightLaws.{EachLightOverlapOnce, LightSourcesAreThoseWithRoom, LightCoversLeaveOutHeavyTails};
ghost use Rattle.tails_by_weight.specs.WeightLaws.{OverlapsByWeightMakeConsistent, LightOverlapsSpanAll, LightSpansAreCutFromFullSpans};

/// The light overlaps are the overlaps within the bounds on weights, each once.
#[tactic(auto, using(crate::proofs::OverlapsByWeight::each_light_overlap_once))]
pub fn each_light_overlap_once()
    ensures { EachLightOverlapOnce }
{}

/// A relation or image has no tail in the light cover exactly where it has none in the full one, or is a commutator whose weights
/// leave no room.
pub fn light_sources_are_those_with_room()
    ensures { LightSourcesAreThoseWithRoom }
{}

/// The light cover of a canonical answer leaves out heavy commutators alone.
#[tactic(auto, using(crate::proofs::LightSources::light_covers_leave_out_heavy_tails))]
pub fn light_covers_leave_out_heavy_tails()
    ensures { LightCoversLeaveOutHeavyTails }
{}

/// Where a presentation with rows obeys weights, it is consistent if the overlaps within the bounds agree by some chains of pushes.
/// This holds for every prime.
#[tactic(auto, using(crate::proofs::WeightedConsistency::overlaps_by_weight_make_consistent))]
pub fn overlaps_by_weight_make_consistent()
    ensures { OverlapsByWeightMakeConsistent }
{}

/// In the light cover of an answer that is canonical and consistent, rows that span those of the light overlaps span those of all,
/// over each collector.
pub fn light_overlaps_span_all()
    ensures { LightOverlapsSpanAll }
{}

/// For an answer that is canonical and consistent, a row over the light tails is in the span of the rows of the light overlaps exactly
/// where the same row, with 0 for each tail that was left out, is in the span of the rows of all overlaps in the full cover; and each
/// tail that was left out is in that span.
pub fn light_spans_are_cut_from_full_spans()
    ensures { LightSpansAreCutFromFullSpans }
{}
