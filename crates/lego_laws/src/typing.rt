//! Laws of the thirteen rules.

ghost use Rattle.lego_laws.specs.Generalisation.{Generalisation};
ghost use Rattle.lego_laws.specs.Typing.{RulesAreDerivations, JudgementsStandInValidLists, Thinning, ThinningByConstants, Substitution, Narrowing, TypeCorrectness, SubjectReduction, Generation};

/// The rules derive exactly on valid lists what stands over the list's constants.
pub fn rules_are_derivations()
    ensures { RulesAreDerivations }
{}

/// A judgement stands in a valid list.
pub fn judgements_stand_in_valid_lists()
    ensures { JudgementsStandInValidLists }
{}

/// A judgement stands under one local variable more.
pub fn thinning()
    ensures { Thinning }
{}

/// A judgement stands over one constant more.
pub fn thinning_by_constants()
    ensures { ThinningByConstants }
{}

/// A term of its type may be put for a local variable.
pub fn substitution()
    ensures { Substitution }
{}

/// A local variable's type may be replaced by one below it.
pub fn narrowing()
    ensures { Narrowing }
{}

/// What a judgement says of the parts of its term.
pub fn generation()
    ensures { Generation }
{}

/// The type of a judgement is a type.
pub fn type_correctness()
    ensures { TypeCorrectness }
{}

/// A parallel step keeps the type.
pub fn subject_reduction()
    ensures { SubjectReduction }
{}

/// A judgement under locals gives one of the function over all of them.
pub fn generalisation()
    ensures { Generalisation }
{}
