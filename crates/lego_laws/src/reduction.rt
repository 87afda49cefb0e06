//! Laws of steps, conversion and cumulativity.

ghost use Rattle.lego_laws.specs.Confluence.{ParallelStepsMeet, Confluence, StepsSubstitute, StepsKeepAtValues};
ghost use Rattle.lego_laws.specs.Cumulativity.{BelowInverts, PiInverts, SigmaInverts, SortsInvert};
ghost use Rattle.lego_laws.specs.HeadForms.{HeadFormsCompare};

/// Parallel steps from one term have a common reduct (Takahashi 1995).
pub fn parallel_steps_meet()
    ensures { ParallelStepsMeet }
{}

/// Terms that convert have a common reduct: the theorem of Church and Rosser.
pub fn confluence()
    ensures { Confluence }
{}

/// Cumulativity holds exactly where steps lead to terms of which one is below the other by
/// their forms alone.
pub fn below_inverts()
    ensures { BelowInverts }
{}

/// A product is below a product exactly where the domains convert and the bodies are below.
pub fn pi_inverts()
    ensures { PiInverts }
{}

/// A Sigma type is below a Sigma type exactly where both parts are below.
pub fn sigma_inverts()
    ensures { SigmaInverts }
{}

/// Universes are below each other in the order of their numbers, and `Prop` is below all.
pub fn sorts_invert()
    ensures { SortsInvert }
{}

/// Head forms are below each other exactly by their parts.
pub fn head_forms_compare()
    ensures { HeadFormsCompare }
{}

/// Parallel steps and conversion keep under lifting and substitution.
pub fn steps_substitute()
    ensures { StepsSubstitute }
{}

/// Steps, parallel steps and conversion keep where values are put for levels.
pub fn steps_keep_at_values()
    ensures { StepsKeepAtValues }
{}
