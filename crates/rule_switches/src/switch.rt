//! A change of name, with the number of the inputs that it is of.

/// So many inputs go from one name to another.
#[derive(Debug, Drop)]
pub struct Switch {
    /// The name that the one rule gives them.
    pub from: String,
    /// The name that the other gives them.
    pub to: String,
    /// How many they are.
    pub users: u64,
}
