//! Why a file isn't read.

ghost use Rattle.std.specs.Prelude.{◌≡◌};
ghost use Rattle.pl_files.specs.Answers.{unlexed, unparsed, untyped};

use pl_base::Pos;
use pl_lexer::LexError;
use pl_parser::ParseError;
use pl_types::TypeError;

/// Why a file isn't read: its bytes have no tokens, its tokens no program, or the program breaks a rule.
#[derive(Debug, Drop)]
pub enum FileError {
    /// The byte at which the first sequence begins that is no UTF-8.
    BadUtf8(u32),
    /// No token begins there.
    BadChar(Pos),
    /// A number of 2^127 or more.
    LongNumber(Pos),
    /// A name of more than 40 characters, or of more than 50 bytes once mangled.
    LongName(Pos),
    /// The first token with which no file goes on.
    Syntax(Pos),
    /// The token that opens a 65th level.
    Deep(Pos),
    /// The 4,097th declaration.
    TooMany(Pos),
    /// A name that isn't known.
    Unknown(Pos),
    /// A name that is declared twice.
    Twice(Pos),
    /// A wrong sort.
    IllTyped(Pos),
    /// Ghost data in code that runs.
    GhostFlow(Pos),
    /// What may not stand where an invariant is open, or may not open one.
    Opening(Pos),
    /// A ghost call without an end.
    Measure(Pos),
    /// There is no `main` to start with.
    NoMain,
    Memory,
}

impl From<LexError> for FileError {
    ghost from_gives = { λ error e. e ≡ unlexed error };

    fn from(error: LexError) -> FileError {
        match error {
            LexError::BadUtf8(byte) => FileError::BadUtf8(byte),
            LexError::BadChar(place) => FileError::BadChar(place),
            LexError::LongNumber(place) => FileError::LongNumber(place),
            LexError::LongName(place) => FileError::LongName(place),
            LexError::Memory => FileError::Memory,
        }
    }
}

impl From<ParseError> for FileError {
    ghost from_gives = { λ error e. e ≡ unparsed error };

    fn from(error: ParseError) -> FileError {
        match error {
            ParseError::Syntax(place, _) => FileError::Syntax(place),
            ParseError::Deep(place) => FileError::Deep(place),
            ParseError::TooMany(place) => FileError::TooMany(place),
            ParseError::Memory => FileError::Memory,
        }
    }
}

impl From<TypeError> for FileError {
    ghost from_gives = { λ error e. e ≡ untyped error };

    fn from(error: TypeError) -> FileError {
        match error {
            TypeError::Unknown(place) => FileError::Unknown(place),
            TypeError::Twice(place) => FileError::Twice(place),
            TypeError::IllTyped(place) => FileError::IllTyped(place),
            TypeError::GhostFlow(place) => FileError::GhostFlow(place),
            TypeError::Opening(place) => FileError::Opening(place),
            TypeError::Measure(place) => FileError::Measure(place),
            TypeError::NoMain => FileError::NoMain,
            TypeError::Memory => FileError::Memory,
        }
    }
}
