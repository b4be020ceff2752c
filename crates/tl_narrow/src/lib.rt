//! Finds the narrowest page on which a table is no higher than asked for, by trying widths: each trial
//! halves what is left, and leaves a certificate and no sections besides. It knows no search: it is given
//! one. Its one contract: `slimmest` tells between which widths the narrowest page lies, with valid
//! certificates of both ends, and where it ends early the one that was not enough.
#![tactic(auto)]

mod aim;
mod certified;
mod slim;
mod slim_laws;
mod trials;

pub use aim::Aim;
pub use certified::{certificate_of, narrow_certificate};
pub use slim::{Slim, slimmest};
pub use slim_laws::{enough_is_not_spent, kept_has_slimmest, met_is_slimmest, slimmest_is_no_less};
