/// What the checker knows a value by.
#[derive(Clone, Copy, Debug, PartialEq, Eq)]
pub enum Term {
    Literal(i128),
    /// A variable, by its number.
    Variable(u32),
}
