//! Laws of principal types and of what excludes every typing.

ghost use Rattle.lego_laws.specs.Exclusion.{UnsolvableTermsHaveNoType, UnsolvableChecksHaveNoTyping, UnsolvableDefinitionsHaveNoTyping};
ghost use Rattle.lego_laws.specs.Principal.{EntriesAtValues, EntriesAreAContext, EntriesAndLocalsAreAContext, PrincipalTypes, PrincipalRuleTypes, PrincipalChecks, PrincipalDefinitions, SmallTypingsHaveSmallSolutions, SmallChecksHaveSmallSolutions, SmallDefinitionsHaveSmallSolutions};
ghost use Rattle.lego_laws.specs.RenamedEntries.{RenamedEntriesAreEntries};
ghost use Rattle.lego_laws.specs.RuleTypeLaws.{HeadFormsAreUnique, RuleTypesAreUnique, RuleTypesRename, RuleTypesAreScoped, NodesAreCounted, PartsStandApart, PartsAreNumbered};
ghost use Rattle.lego_laws.specs.Shape.{RuleTypesAreBelow, TypedCoresHaveWantedHeads, TypedCoresHaveWantedPairs, PartsGiveShapes, ShapedCoresAreTyped, ReachedWantsGiveShapes};
ghost use Rattle.lego_laws.specs.Tasks.{UnsolvableTasksHaveNoTyping, SmallTasksHaveSmallSolutions, FittingTypesAreTypes};

/// The types and bodies of valid entries at an assignment are those of the entries, at the
/// assignment.
pub fn entries_at_values()
    ensures { EntriesAtValues }
{}

/// Entries that are always valid, and have no loose variables, are a context.
pub fn entries_are_a_context()
    ensures { EntriesAreAContext }
{}

/// Entries with local types that are always valid over them are a context.
pub fn entries_and_locals_are_a_context()
    ensures { EntriesAndLocalsAreAContext }
{}

/// Constraints that fit in a range of new level variables are sound and principal over the
/// entries, and their values are bounded by the greatest universe of a derivation.
pub fn principal_types()
    ensures { PrincipalTypes }
{}

/// So are they for a rule type whose new level variables are in the range; and values that are
/// kept on all older variables satisfy them.
pub fn principal_rule_types()
    ensures { PrincipalRuleTypes }
{}

/// The same for a wanted type.
pub fn principal_checks()
    ensures { PrincipalChecks }
{}

/// The same for a type that is written with the term, from a derivation of each.
pub fn principal_definitions()
    ensures { PrincipalDefinitions }
{}

/// A typing with small universes at small values has small fitting values.
pub fn small_typings_have_small_solutions()
    ensures { SmallTypingsHaveSmallSolutions }
{}

/// The same of a typing with a wanted type.
pub fn small_checks_have_small_solutions()
    ensures { SmallChecksHaveSmallSolutions }
{}

/// The same of a typing with a written type, and of that type's own.
pub fn small_definitions_have_small_solutions()
    ensures { SmallDefinitionsHaveSmallSolutions }
{}

/// Over entries, a term whose fitting constraints can't be satisfied has no type.
pub fn unsolvable_terms_have_no_type()
    ensures { UnsolvableTermsHaveNoType }
{}

/// The same for a wanted type.
pub fn unsolvable_checks_have_no_typing()
    ensures { UnsolvableChecksHaveNoTyping }
{}

/// The same for a written type.
pub fn unsolvable_definitions_have_no_typing()
    ensures { UnsolvableDefinitionsHaveNoTyping }
{}

/// A term has at most one head form.
pub fn head_forms_are_unique()
    ensures { HeadFormsAreUnique }
{}

/// With the same fresh level variables a term has at most one rule type.
pub fn rule_types_are_unique()
    ensures { RuleTypesAreUnique }
{}

/// The fresh level variables of a rule type may be renamed.
pub fn rule_types_rename()
    ensures { RuleTypesRename }
{}

/// The loose variables of a rule type are locals, where those of the term are.
pub fn rule_types_are_scoped()
    ensures { RuleTypesAreScoped }
{}

/// Each type of a term is above its rule type, for some values of the fresh level variables.
pub fn rule_types_are_below()
    ensures { RuleTypesAreBelow }
{}

/// In a typed core each wanted head is of the form that its place wants; so a head form of
/// another form excludes every typing of the core.
pub fn typed_cores_have_wanted_heads()
    ensures { TypedCoresHaveWantedHeads }
{}

/// In a typed core each wanted pair is below with every level put to 0; so a pair that is not
/// excludes every typing of the core.
pub fn typed_cores_have_wanted_pairs()
    ensures { TypedCoresHaveWantedPairs }
{}

/// The nodes of a term are its own, at most one, and those of its parts.
pub fn nodes_are_counted()
    ensures { NodesAreCounted }
{}

/// The nodes of two parts of a term have different numbers.
pub fn parts_stand_apart()
    ensures { PartsStandApart }
{}

/// Parts of a term with one number are one part.
pub fn parts_are_numbered()
    ensures { PartsAreNumbered }
{}

/// A term whose parts are shaped where nothing is wanted of the term, and which is as its place
/// wants it, is shaped.
pub fn parts_give_shapes()
    ensures { PartsGiveShapes }
{}

/// What has its shape, and is solved at an assignment, is typed there.
pub fn shaped_cores_are_typed()
    ensures { ShapedCoresAreTyped }
{}

/// Entries with renamed level variables, at an assignment, are the entries at another.
pub fn renamed_entries_are_entries()
    ensures { RenamedEntriesAreEntries }
{}

/// Where no assignment satisfies fitting constraints together with the kept ones, a task has no
/// typing.
pub fn unsolvable_tasks_have_no_typing()
    ensures { UnsolvableTasksHaveNoTyping }
{}

/// A task's typing with universes up to a limit, at values up to it, has fitting values up to it.
pub fn small_tasks_have_small_solutions()
    ensures { SmallTasksHaveSmallSolutions }
{}

/// A core has its shape where what is wanted holds at the places that the check comes to.
pub fn reached_wants_give_shapes()
    ensures { ReachedWantsGiveShapes }
{}

/// What fits as a type is a type.
pub fn fitting_types_are_types()
    ensures { FittingTypesAreTypes }
{}
