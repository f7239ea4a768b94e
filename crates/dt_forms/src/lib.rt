//! Forms: operators over terms that stand already. A form is what is put behind the terms of a
//! problem, each part where it stands already if it does, and what is claimed of them.
//!
//! Proved, as laws over the definitions: a form stands with its value under all lawful values;
//! required forms hold exactly where their terms are 1; a form that fits can be placed within its
//! size; numbers for the choices give lawful values. The same holds of claims, which are forms whose
//! operators are folded where their operands are constants. The code that places forms is the crate
//! `dt_build`.
#![tactic(auto)]

mod folded;
mod laws;

pub use folded::Folded;
pub use laws::{
    assignments_give_values, claims_fit, claims_have_values, claims_hold, forms_fit,
    forms_have_values, numbers_give_values, required_terms_hold,
};
