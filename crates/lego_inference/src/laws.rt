//! What holds of each binder of a term holds of each binder of what the term comes to.

ghost use Rattle.lego_inference.specs.Binders.{SubstitutionKeepsBinders, HeadFormsKeepBinders, RuleTypesKeepBinders};

/// A term put for a variable brings its own binders alone.
pub fn substitution_keeps_binders()
    ensures { SubstitutionKeepsBinders }
{}

/// A head form has the binders of the term and of the entries' bodies alone.
pub fn head_forms_keep_binders()
    ensures { HeadFormsKeepBinders }
{}

/// A rule type has the binders of the term, of the local types and of the entries alone.
pub fn rule_types_keep_binders()
    ensures { RuleTypesKeepBinders }
{}
