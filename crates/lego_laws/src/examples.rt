//! Small statements that show what the definitions say.

ghost use Rattle.lego_laws.specs.Examples.{IdentityIsTyped, PropositionsHaveProducts, UniversesAreNoPropositions, NoSortIsInItself, DomainsMustConvert, RedexContracts, FourHeadSteps, RuleTypeOfIdentity, LevelsDontCountAtZero, UniverseFitsExactly, WrittenTypeCounts, OlderVariablesStayFree, ConstantsDontCount, ConstraintOfUniverse, ConstantHasItsShape, LocalIsTyped, LocalContracts, RuleTypeOfLocal, ApplicationHasItsShape, DomainsMustBeTypes, LocalHasItsShape, WrittenTypesAreCheckedFirst, LocalsAreCompared, PairIsTyped, BindersAreCrossed};

/// Over `A : Prop`, `[x:A]x` has the type `A->A`.
pub fn identity_is_typed()
    ensures { IdentityIsTyped }
{}

/// `{A:Prop}A` is a proposition.
pub fn propositions_have_products()
    ensures { PropositionsHaveProducts }
{}

/// `{x:A}Type(0)` is no proposition, whatever A is.
pub fn universes_are_no_propositions()
    ensures { UniversesAreNoPropositions }
{}

/// `Prop` is no proposition, and `Type(0)` is not in itself.
pub fn no_sort_is_in_itself()
    ensures { NoSortIsInItself }
{}

/// `Type(0)->Prop` is not below `Type(1)->Prop`.
pub fn domains_must_convert()
    ensures { DomainsMustConvert }
{}

/// One step takes `([x:Prop]x) c` to `c`, and substitution goes under a binder.
pub fn redex_contracts()
    ensures { RedexContracts }
{}

/// A head sequence of four steps.
pub fn four_head_steps()
    ensures { FourHeadSteps }
{}

/// Over `A : Prop` the rule type of `[x:A]x` is `A->A`.
pub fn rule_type_of_identity()
    ensures { RuleTypeOfIdentity }
{}

/// With every level put to 0, `Type(3)` is below `Type(2)`.
pub fn levels_dont_count_at_zero()
    ensures { LevelsDontCountAtZero }
{}

/// Constraints that fit `Type(u0) : Type(u1)`, and two lists that don't.
pub fn universe_fits_exactly()
    ensures { UniverseFitsExactly }
{}

/// A constraint that fits a term with a written type, and not with that type wanted.
pub fn written_type_counts()
    ensures { WrittenTypeCounts }
{}

/// A constraint on a variable that is neither new nor held, which doesn't fit.
pub fn older_variables_stay_free()
    ensures { OlderVariablesStayFree }
{}

/// A derivation over a constant with a great universe, which has none itself.
pub fn constants_dont_count()
    ensures { ConstantsDontCount }
{}

/// The only constraint of a core that is one universe.
pub fn constraint_of_universe()
    ensures { ConstraintOfUniverse }
{}

/// Over `A : Prop` the constant A has its shape where a type is wanted.
pub fn constant_has_its_shape()
    ensures { ConstantHasItsShape }
{}

/// Over `A : Prop`, `[B=A][b:B]b` has the type `A->A`, and `[x=A A]Prop` has no type.
pub fn local_is_typed()
    ensures { LocalIsTyped }
{}

/// One step takes `[x=c] x x` to `c c`, which is its expansion.
pub fn local_contracts()
    ensures { LocalContracts }
{}

/// Over `A : Prop` the rule type of `[B=A][b:B]b` is `A->A`, and `[x=Type(0)]{y:x}x` has 4 nodes.
pub fn rule_type_of_local()
    ensures { RuleTypeOfLocal }
{}

/// Over `A : Prop`, `a : A` and `f : A->A`, `f a : A` with its type written has its shape.
pub fn application_has_its_shape()
    ensures { ApplicationHasItsShape }
{}

/// Over the same, `[x:a]x` has no shape, since a is no type.
pub fn domains_must_be_types()
    ensures { DomainsMustBeTypes }
{}

/// Over the same, `[y=a]y : A` has its shape.
pub fn local_has_its_shape()
    ensures { LocalHasItsShape }
{}

/// Over the same, `[x=[y=a]y : a a]` is refused by `a : A`, which is no function, and
/// `[x=[y=a]y : a]` by `a : A`, which is no type.
pub fn written_types_are_checked_first()
    ensures { WrittenTypesAreCheckedFirst }
{}

/// Over `A, B : Prop`, `a : A` and `f : B->B`, the check of `f ([y=a]y)` comes to `[y=a]y : A`,
/// which is not below B.
pub fn locals_are_compared()
    ensures { LocalsAreCompared }
{}

/// Over `A : Prop` and `a : A`, `(A, a)` has the type `<X:Prop>X`, and `(A, A)` has not.
pub fn pair_is_typed()
    ensures { PairIsTyped }
{}

/// Functions face one another under no binder, and bodies of products under one.
pub fn binders_are_crossed()
    ensures { BindersAreCrossed }
{}
