use bucket_core::Rule;
use transport_core::{Certificate, Cut};

/// What a plan answers: a new rule with the certificate of its cost, or a set of names which shows that no rule fits the
/// request.
#[derive(Drop)]
pub enum Planned {
    Emit(Rule, Certificate),
    NoneExists(Cut),
}
