//! Laws of agreement, and of the corresponding pair of two terms.
ghost use Rattle.lego_match.specs.Agreement.{AgreementIsOfNormalForms};
ghost use Rattle.lego_match.specs.Pairs.{PairsAreOfNormalForms, PairsAreOne, PairsDisagree};
ghost use Rattle.lego_match.specs.Determined.{AnswersAreOne};
ghost use Rattle.lego_match.specs.Fillings.{ClashesAreFinal};

/// Two terms with normal forms agree exactly where these do.
pub fn agreement_is_of_normal_forms()
    ensures { AgreementIsOfNormalForms }
{}

/// The corresponding pair of two terms is that of their normal forms, where both have one.
pub fn pairs_are_of_normal_forms()
    ensures { PairsAreOfNormalForms }
{}

/// Two terms have at most one corresponding pair whose parts the rule doesn't go into.
pub fn pairs_are_one()
    ensures { PairsAreOne }
{}

/// Two terms with a corresponding pair don't agree.
pub fn pairs_disagree()
    ensures { PairsDisagree }
{}

/// Two terms determine at most one answer: `None`, a candidate, or a refusal of their pair.
pub fn answers_are_one()
    ensures { AnswersAreOne }
{}

/// Two terms whose corresponding pair clashes agree under no bodies of the free holes.
pub fn clashes_are_final()
    ensures { ClashesAreFinal }
{}
