//! Laws of a comparison through head forms.

ghost use Rattle.lego_laws.specs.Comparison.{ComparisonIsExact, FacingPartsAreRelated, DifferenceExcludesBelow, DifferenceExcludesConversion, FacingPartsAreScoped};
ghost use Rattle.lego_laws.specs.Counting.{HeadStepsComeFirst, HeadStepsAreCounted, PartsStepsAreCounted, FewerStepsAreCounted, WalkedStepsAreCounted, LongWalksAreCostly, PartsAreReached, PartsEndTogether};

/// The constraints that a comparison gathers are satisfied exactly where the first term is
/// below the second, or converts with it.
pub fn comparison_is_exact()
    ensures { ComparisonIsExact }
{}

/// Head forms that face one another are related as the path's order says, where the wholes are
/// related so.
pub fn facing_parts_are_related()
    ensures { FacingPartsAreRelated }
{}

/// Head forms that face one another with roots out of order exclude that the first term is
/// below the second, whatever numbers stand for the levels, 0 for all among them.
pub fn difference_excludes_below()
    ensures { DifferenceExcludesBelow }
{}

/// Head forms that face one another with different roots exclude conversion, whatever numbers
/// stand for the levels, 0 for all among them.
pub fn difference_excludes_conversion()
    ensures { DifferenceExcludesConversion }
{}

/// The normalisation sequence goes on from each term of the head sequence, and ends where that
/// term's does.
pub fn head_steps_come_first()
    ensures { HeadStepsComeFirst }
{}

/// Head steps are the first steps of the normalisation sequence.
pub fn head_steps_are_counted()
    ensures { HeadStepsAreCounted }
{}

/// The steps of a head form's parts are steps of the head form's sequence.
pub fn parts_steps_are_counted()
    ensures { PartsStepsAreCounted }
{}

/// A sequence that has n steps has fewer too.
pub fn fewer_steps_are_counted()
    ensures { FewerStepsAreCounted }
{}

/// The steps of a walk through two terms are among those of their sequences, wherever it stops.
pub fn walked_steps_are_counted()
    ensures { WalkedStepsAreCounted }
{}

/// A walk of more than n steps shows that the two sequences together have more than n.
pub fn long_walks_are_costly()
    ensures { LongWalksAreCostly }
{}

/// What the sequences of a head form's parts reach, one after another, its own sequence
/// reaches in its parts.
pub fn parts_are_reached()
    ensures { PartsAreReached }
{}

/// Where the sequences of a head form's parts end, its own sequence ends.
pub fn parts_end_together()
    ensures { PartsEndTogether }
{}

/// The loose variables of head forms that face one another are those of the wholes, and of the
/// binders crossed.
pub fn facing_parts_are_scoped()
    ensures { FacingPartsAreScoped }
{}
