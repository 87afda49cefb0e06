//! Laws of lists of constants: expansion, dropping, replacement.

ghost use Rattle.lego_laws.specs.Abstraction.{Abstraction};
ghost use Rattle.lego_laws.specs.Expansion.{Expansion, JudgementsExpand, PureTermsHaveNoLocal, StepsBringNoLocal, ConversionNeedsNoLocal};
ghost use Rattle.lego_laws.specs.Mention.{UnreachedIsUnmentioned};
ghost use Rattle.lego_laws.specs.Orders.{Reordering, ReorderedJudgements, FilledListsAreValid, JudgementsFill, PrefixesAreValid, BodiesMayBeGiven};
ghost use Rattle.lego_laws.specs.Reduced.{ReducedListsAreValid, JudgementsOverReducedLists};
ghost use Rattle.lego_laws.specs.Replacement.{Replacement, ClosingIsReplacement};
ghost use Rattle.lego_laws.specs.Strengthening.{DroppedListsAreValid, Strengthening};
ghost use Rattle.lego_laws.specs.Translation.{Translation};

/// A judgement stands where constants are replaced by closed terms of their replaced types.
pub fn translation()
    ensures { Translation }
{}

/// In a valid list each assumption's type, expanded, is a type by Luo's rules, and each body,
/// expanded, has its expanded type by them.
pub fn expansion()
    ensures { Expansion }
{}

/// A judgement over a valid list expands to one over its expanded assumptions.
pub fn judgements_expand()
    ensures { JudgementsExpand }
{}

/// A list stays valid without constants that nothing kept mentions.
pub fn dropped_lists_are_valid()
    ensures { DroppedListsAreValid }
{}

/// A judgement that mentions kept constants alone stands over them.
pub fn strengthening()
    ensures { Strengthening }
{}

/// A judgement stands where constants are replaced by terms over outer locals.
pub fn replacement()
    ensures { Replacement }
{}

/// In a closed term, turning listed constants into variables is such a replacement.
pub fn closing_is_replacement()
    ensures { ClosingIsReplacement }
{}

/// Constants of a valid list are valid in each order in which each mentions only earlier ones;
/// so entries that don't reach one another may be exchanged.
pub fn reordering()
    ensures { Reordering }
{}

/// A judgement that mentions reordered constants alone stands over them.
pub fn reordered_judgements()
    ensures { ReorderedJudgements }
{}

/// A valid list stays valid where constants with bodies are put in and dropped.
pub fn filled_lists_are_valid()
    ensures { FilledListsAreValid }
{}

/// A judgement stands where constants with bodies are put in and dropped.
pub fn judgements_fill()
    ensures { JudgementsFill }
{}

/// A valid list stays valid where steps are made in its types and bodies.
pub fn reduced_lists_are_valid()
    ensures { ReducedListsAreValid }
{}

/// A judgement stands over the list with the steps made.
pub fn judgements_over_reduced_lists()
    ensures { JudgementsOverReducedLists }
{}

/// Assumptions of a valid list may be turned into local variables: the other constants stay
/// valid, and each judgement stands under the locals.
pub fn abstraction()
    ensures { Abstraction }
{}

/// The constants before any constant of a valid list are valid.
pub fn prefixes_are_valid()
    ensures { PrefixesAreValid }
{}

/// Neither an entry that doesn't reach a constant, nor one that it reaches, mentions it.
pub fn unreached_is_unmentioned()
    ensures { UnreachedIsUnmentioned }
{}

/// No term of a derivation by Luo's rules alone has a local definition.
pub fn pure_terms_have_no_local()
    ensures { PureTermsHaveNoLocal }
{}

/// Where no constant's body has a local definition, steps bring none.
pub fn steps_bring_no_local()
    ensures { StepsBringNoLocal }
{}

/// Over closed bodies without local definitions, terms without them convert, or are below, by
/// steps between such terms.
pub fn conversion_needs_no_local()
    ensures { ConversionNeedsNoLocal }
{}

/// An assumption may be given a body that has its type: the list stays valid, and each judgement
/// stands.
pub fn bodies_may_be_given()
    ensures { BodiesMayBeGiven }
{}
