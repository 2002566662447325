// Declarations over loaded lines: which types may be declared, digest names, and the sizes of guardian sets.
#![tactic(auto)]

mod digest;
mod guardian;
mod state_guardians;
mod stored;

pub use digest::refuse_word64_as_digest;
pub use guardian::guardian_bound;
pub use state_guardians::guardian_fields;
pub use stored::{arity_of, event_field_type, storable};
