//! What a desk goes by.

/// What a desk goes by.
#[derive(Drop)]
pub struct DeskRules {
    /// The folder of the logs, where they are kept.
    pub folder: Option<String>,
    /// The paths of the documents.
    pub documents: Vec<String>,
    /// The path of the document to which plans may be applied, where they may be.
    pub applied_to: Option<String>,
}
