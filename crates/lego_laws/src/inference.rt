//! Laws of inference: constraints that fit a term, from those that fit its parts.

ghost use Rattle.lego_laws.specs.Inference.{FitsProp, FitsVariable, FitsConstant, FitsUniverse, FitsLambda, FitsProposition, FitsProduct, FitsSigma, FitsApplication, FitsPair, FitsFirst, FitsSecond, FitsAgainst, FitsAgainstWritten, FitsByOthers, FitsInWiderRange, ContextsWiden, ContextsGrow, FitsLocal};

/// `Prop` needs no constraint.
pub fn fits_prop()
    ensures { FitsProp }
{}

/// A local variable needs no constraint.
pub fn fits_variable()
    ensures { FitsVariable }
{}

/// A constant needs no constraint.
pub fn fits_constant()
    ensures { FitsConstant }
{}

/// A universe is below a new one.
pub fn fits_universe()
    ensures { FitsUniverse }
{}

/// A function's constraints are those of its domain and its body.
pub fn fits_lambda()
    ensures { FitsLambda }
{}

/// A product whose body is a proposition needs no new universe.
pub fn fits_proposition()
    ensures { FitsProposition }
{}

/// A product's new universe is at least those of its parts.
pub fn fits_product()
    ensures { FitsProduct }
{}

/// A Sigma type's new universe is at least those of its parts.
pub fn fits_sigma()
    ensures { FitsSigma }
{}

/// An application's constraints are those of its parts, and that the argument's type is below
/// the domain.
pub fn fits_application()
    ensures { FitsApplication }
{}

/// A pair's constraints are those of its parts, and that both components' types are below the
/// stated ones.
pub fn fits_pair()
    ensures { FitsPair }
{}

/// A first projection's constraints are its operand's.
pub fn fits_first()
    ensures { FitsFirst }
{}

/// A second projection's constraints are its operand's.
pub fn fits_second()
    ensures { FitsSecond }
{}

/// A wanted type adds that the term's type is below it.
pub fn fits_against()
    ensures { FitsAgainst }
{}

/// A written type adds its own constraints, and that the term's type is below it.
pub fn fits_written()
    ensures { FitsAgainstWritten }
{}

/// Constraints with the same solutions fit the same term.
pub fn fits_by_others()
    ensures { FitsByOthers }
{}

/// Constraints that fit fit in a wider range of new level variables too.
pub fn fits_in_wider_range()
    ensures { FitsInWiderRange }
{}

/// A context is one over more level variables too.
pub fn contexts_widen()
    ensures { ContextsWiden }
{}

/// A checked domain makes a context of the body under a binder.
pub fn contexts_grow()
    ensures { ContextsGrow }
{}

/// A local definition's constraints are those of its value, and of its body with the value put in.
pub fn fits_local()
    ensures { FitsLocal }
{}
