//! What a request asks of a node.

ghost use Rattle.std.specs.Prelude.{◌≡◌};
ghost use Rattle.node_server.specs.NodeAnswers.{call_of, call_of_word, is_asking};

use key_split::same_letters;
use resp_wire::Bytes;

/// What a request asks of a node.
#[derive(Clone, Copy)]
pub enum Call {
    /// ASKING: the next request follows an ASK.
    Asking,
    /// CLUSTER SLOTS: which node has which slots.
    Slots,
    /// MULTI: the commands that follow wait for EXEC.
    Multi,
    /// EXEC: those commands are executed together.
    Exec,
    /// DISCARD: they are forgotten.
    Discard,
    Command,
}

impl Call {
    pub(crate) fn is_asking(self) -> bool
        ensures { result ≡ is_asking self }
    {
        match self {
            Call::Asking => true,
            Call::Slots | Call::Multi | Call::Exec | Call::Discard | Call::Command => false,
        }
    }
}

/// What the words of a request ask.
#[tactic(auto, unfolding(crate::specs::NodeAnswers::call_of))]
pub(crate) fn call_of(words: &[Bytes]) -> Call
    ensures { result ≡ call_of words.now }
{
    match words {
        [] => Call::Command,
        [word] => call_of_word(word.as_slice()),
        [word, argument] => {
            if same_letters(word.as_slice(), b"CLUSTER")
                && same_letters(argument.as_slice(), b"SLOTS")
            {
                Call::Slots
            } else {
                Call::Command
            }
        }
        [_, _, _, ..] => Call::Command,
    }
}

/// What a word that is a whole request asks.
fn call_of_word(word: &[u8]) -> Call
    ensures { result ≡ call_of_word word.now }
{
    if same_letters(word, b"ASKING") {
        Call::Asking
    } else if same_letters(word, b"MULTI") {
        Call::Multi
    } else if same_letters(word, b"EXEC") {
        Call::Exec
    } else if same_letters(word, b"DISCARD") {
        Call::Discard
    } else {
        Call::Command
    }
}
