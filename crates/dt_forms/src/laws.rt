ghost use Rattle.dt_forms.specs.Laws.{FormsHaveValues, RequiredHold, FormsFit, ClaimsHaveValues, ClaimsHold, ClaimsFit, NumbersGiveValues, AssignmentsGiveValues};

/// A law of forms; the call does nothing. Where a form is put behind terms, the term that stands for
/// it has the form's value, whatever lawful values the terms have.
#[tactic(auto, using(crate::proofs::Proved::forms_have_values))]
pub fn forms_have_values()
    ensures { FormsHaveValues }
{}

/// A law of forms; the call does nothing. The terms that are required for forms are 1 exactly where
/// the forms hold.
#[tactic(auto, using(crate::proofs::Proved::required_holds))]
pub fn required_terms_hold()
    ensures { RequiredHold }
{}

/// A law of forms; the call does nothing. A form whose operators fit, and for whose size there is
/// room, can be placed. It takes no more terms than its size, keeps the widths of those before, and
/// stands with its own width.
#[tactic(auto, using(crate::proofs::Proved::forms_fit))]
pub fn forms_fit()
    ensures { FormsFit }
{}

/// A law of terms; the call does nothing. Numbers for the choices of terms give each node its
/// operator's value of its operands.
#[tactic(auto, using(crate::proofs::Proved::numbers_give_values))]
pub fn numbers_give_values()
    ensures { NumbersGiveValues }
{}

/// A law of claims; the call does nothing. Where a form is put behind terms with its operators folded,
/// the term that stands for it has the form's value, whatever lawful values of their widths the terms
/// have.
#[tactic(auto, using(crate::proofs::Proved::claims_have_values))]
pub fn claims_have_values()
    ensures { ClaimsHaveValues }
{}

/// A law of claims; the call does nothing. The terms that are required for claims are 1 exactly where
/// the forms hold.
#[tactic(auto, using(crate::proofs::Proved::claims_hold))]
pub fn claims_hold()
    ensures { ClaimsHold }
{}

/// A law of claims; the call does nothing. A claim whose operators fit, and for whose size there is
/// room, can be placed. It takes no more terms than the form's size, keeps the widths of those before,
/// and stands with its own width.
#[tactic(auto, using(crate::proofs::Proved::claims_fit))]
pub fn claims_fit()
    ensures { ClaimsFit }
{}

/// A law of terms; the call does nothing. An assignment gives lawful values, each of its term's width.
#[tactic(auto, using(crate::proofs::Proved::assignments_give_values))]
pub fn assignments_give_values()
    ensures { AssignmentsGiveValues }
{}
