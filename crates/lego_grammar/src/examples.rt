//! Small statements that show what explicit reading and denotation say.
ghost use Rattle.lego_grammar.specs.ReadingExamples.{AssumptionsAreDenoted, DevelopmentsHold, OtherTypesAreNotDenoted, PairIsDenoted, LevelsAreValues, NamesAreNew, InnermostNamesCount, CopiesShareLevels, LocalDefinitionsAreKept};

/// `Explicit;[A:Prop];[a:A];` denotes two assumptions, whatever their numbers.
pub fn assumptions_are_denoted()
    ensures { AssumptionsAreDenoted }
{}

/// It is a development text, and what is promised of a development holds of it.
pub fn developments_hold()
    ensures { DevelopmentsHold }
{}

/// It doesn't denote a list in which `a` has the type `Prop`.
pub fn other_types_are_not_denoted()
    ensures { OtherTypesAreNotDenoted }
{}

/// A definition of a pair is denoted, whatever the name of the binder in its type.
pub fn pair_is_denoted()
    ensures { PairIsDenoted }
{}

/// `Type(3)` denotes a level variable at an assignment that gives it 3, and at no other value.
pub fn levels_are_values()
    ensures { LevelsAreValues }
{}

/// Two declarations of one name are read as nothing.
pub fn names_are_new()
    ensures { NamesAreNew }
{}

/// In `[x,y:x]y` the second `x` and the `y` are the innermost local variables of their names.
pub fn innermost_names_count()
    ensures { InnermostNamesCount }
{}

/// Copies of one written `Type` share its level variable.
pub fn copies_share_levels()
    ensures { CopiesShareLevels }
{}

/// `[S=A#A](a,a:S)` is read as a local definition of S, which the pair's annotation unfolds.
pub fn local_definitions_are_kept()
    ensures { LocalDefinitionsAreKept }
{}
