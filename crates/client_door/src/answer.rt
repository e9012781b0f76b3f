//! What a request is answered at the door.

ghost use Rattle.std.specs.Prelude.{◌≡◌, ◌∷◌, map};
ghost use Rattle.std.specs.List.{list_all};
ghost use Rattle.resp_wire.specs.Data.{array, items_of};
ghost use Rattle.resp_wire.specs.Seen.{data_of};
ghost use Rattle.session_order.specs.Requests.{asked_of};
ghost use Rattle.client_door.specs.Answers.{answer_to, auth_answer, bytes_of, checked, is_word, word_in, words_answer};

use crate::password::ClientPassword;
use key_split::same_letters;
use resp_wire::Value;

/// What a request is answered before its client has said the password.
#[derive(Clone, Copy, PartialEq, Eq)]
pub enum Answer {
    /// To AUTH with the password: what follows is served.
    Welcome,
    /// To QUIT: the connection is closed.
    Goodbye,
    NoAuth,
    WrongPassword,
    /// To AUTH alone.
    WrongCount,
    /// To AUTH with more than two words behind it.
    Syntax,
    /// To an empty or a null array.
    Nothing,
    /// To bytes that are no request: the connection is closed.
    NotRequest,
}

impl Answer {
    /// The answer, as it is written.
    pub(crate) fn bytes(self) -> &'static [u8]
        ensures { result.now ≡ bytes_of self }
    {
        match self {
            Answer::Welcome | Answer::Goodbye => b"+OK\r\n",
            Answer::NoAuth => b"-NOAUTH Authentication required.\r\n",
            Answer::WrongPassword => {
                b"-WRONGPASS invalid username-password pair or user is disabled.\r\n"
            }
            Answer::WrongCount => b"-ERR wrong number of arguments for 'auth' command\r\n",
            Answer::Syntax => b"-ERR syntax error\r\n",
            Answer::Nothing => b"",
            Answer::NotRequest => b"-ERR proxy: protocol error\r\n",
        }
    }
}

/// What the value is answered.
pub(crate) fn answer_to(password: &ClientPassword, value: &Value) -> Answer
    ensures { result ≡ answer_to password.now (asked_of (data_of value.now)) }
{
    match value {
        Value::Array(items) => answer_items(password, items.as_slice()),
        Value::NullArray => Answer::Nothing,
        _ => Answer::NotRequest,
    }
}

#[tactic(auto, using(crate::proofs::Asking::is_refused, crate::proofs::Asking::words_asked))]
fn answer_items(password: &ClientPassword, items: &[Value]) -> Answer
    ensures { result ≡ answer_to password.now (asked_of (array (items_of (map data_of items.now)))) }
{
    let [name, arguments @ ..] = items else {
        return Answer::Nothing;
    };
    if !are_words(items) {
        return Answer::NotRequest;
    }
    answer_words(password, name, arguments)
}

fn are_words(items: &[Value]) -> bool
    ensures { result ≡ list_all is_word items.now }
{
    items.iter().all(|item| is_word(item))
}

fn is_word(item: &Value) -> bool
    ensures { result ≡ is_word item.now }
{
    matches!(item, Value::Bulk(_))
}

fn answer_words(password: &ClientPassword, name: &Value, arguments: &[Value]) -> Answer
    ensures { result ≡ words_answer password.now (word_in (data_of name.now) ∷ map word_in (map data_of arguments.now)) }
{
    if same_letters(word_in(name), b"AUTH") {
        answer_auth(password, arguments)
    } else if same_letters(word_in(name), b"QUIT") {
        Answer::Goodbye
    } else {
        Answer::NoAuth
    }
}

fn answer_auth(password: &ClientPassword, arguments: &[Value]) -> Answer
    ensures { result ≡ auth_answer password.now (map word_in (map data_of arguments.now)) }
{
    match arguments {
        [] => Answer::WrongCount,
        [given] => checked(password.is(word_in(given))),
        [user, given] => checked(
            word_in(user) == b"default".as_slice() && password.is(word_in(given)),
        ),
        _ => Answer::Syntax,
    }
}

fn checked(right: bool) -> Answer
    ensures { result ≡ checked right }
{
    if right {
        Answer::Welcome
    } else {
        Answer::WrongPassword
    }
}

/// The word, or nothing where the item is none.
fn word_in(item: &Value) -> &[u8]
    ensures { result.now ≡ word_in (data_of item.now) }
{
    match item {
        Value::Bulk(word) => word.as_slice(),
        _ => b"",
    }
}
