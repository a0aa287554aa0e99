//! Verbs: what each action is called.

ghost use Rattle.std.specs.Prelude.{◌≡◌};
ghost use Rattle.c_history.specs.Readers as read;

/// What an action is called.
#[derive(Clone, Copy, Debug, PartialEq, Eq)]
pub(crate) enum Verb {
    Load,
    Store,
    Cas,
    Alloc,
    Free,
    NewLock,
    Acquire,
    Release,
    FreeLock,
    Fork,
    Join,
    Print,
    Read,
    Turn,
    Call,
    Return,
}

/// The verb that a word is.
#[tactic(auto, unfolding(crate::specs::Readers::verb_of))]
pub(crate) fn verb_of(word: &str) -> Option<Verb>
    ensures { result ≡ read.verb_of word.now }
{
    match word {
        "freelock" => Some(Verb::FreeLock),
        "newlock" => Some(Verb::NewLock),
        "acquire" => Some(Verb::Acquire),
        "release" => Some(Verb::Release),
        "return" => Some(Verb::Return),
        "print" => Some(Verb::Print),
        "store" => Some(Verb::Store),
        "alloc" => Some(Verb::Alloc),
        "load" => Some(Verb::Load),
        "cas" => Some(Verb::Cas),
        "free" => Some(Verb::Free),
        "fork" => Some(Verb::Fork),
        "join" => Some(Verb::Join),
        "read" => Some(Verb::Read),
        "turn" => Some(Verb::Turn),
        "call" => Some(Verb::Call),
        _ => None,
    }
}
