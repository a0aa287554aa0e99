use crate::name::Name;
use crate::pos::Pos;

/// A token of the small grammar. Its place is its first byte's.
#[derive(Debug, Drop)]
pub struct Token {
    pub pos: Pos,
    pub kind: Kind,
}

#[derive(Debug, Drop)]
pub enum Kind {
    /// A name or a word of the language.
    Word(Name),
    /// Digits, by their value, which is at most 2^63.
    Number(u64),
    /// One of `( ) { } ; = ! -`, as a byte.
    Sign(u8),
}
