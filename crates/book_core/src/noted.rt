/// What a book answers to an input that it has taken.
#[derive(Clone, Copy, Debug, PartialEq, Eq)]
pub enum Noted {
    /// The input did not stand on the page before.
    New,
    /// The input stood on the page already.
    Again,
}
