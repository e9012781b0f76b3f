//! The parts of a redirection line, over its bytes.

ghost use Rattle.std.specs.Prelude.{codes, ◌≡◌, ◌<◌, ◌≤◌, length, position, nat_eq, nat_le, ◌&&◌, true, not, IfSome, Some, None, MatchOption};
ghost use Rattle.std.specs.List.{before_last, after_last, list_any, list_all, suffix_len};
ghost use Rattle.std.specs.Char.{is_ascii_digit};
ghost use Rattle.std.specs.Str.{bytes_eq};
ghost use Rattle.node_link.specs.Line.{first_word, other_words, short_number, digits_value, number_within, endpoint_in, target_in};

/// Where a line sends a command on.
#[derive(Clone, Copy)]
pub struct Target<'a> {
    pub slot: u16,
    pub host: &'a [u8],
    pub port: u16,
}

/// The first word, and what follows its space.
pub fn split_word(line: &[u8]) -> (&[u8], &[u8])
    ensures first { result.0.now ≡ first_word line.now }
    ensures others { result.1.now ≡ other_words line.now }
{
    match space_at(line) {
        Some(place) => (&line[..place], &line[place + 1..]),
        None => (line, &line[line.len()..]),
    }
}

/// Whether an error line's first word sends on all commands of a slot.
pub fn is_moved(word: &[u8]) -> bool
    ensures { result ≡ bytes_eq word.now (codes "MOVED") }
{
    word == b"MOVED".as_slice()
}

/// Whether an error line's first word sends on this command alone.
pub fn is_ask(word: &[u8]) -> bool
    ensures { result ≡ bytes_eq word.now (codes "ASK") }
{
    word == b"ASK".as_slice()
}

// Where the first space stands.
fn space_at(line: &[u8]) -> Option<usize>
    ensures { result ≡ position (λ b. nat_eq b 32) line.now }
{
    line.iter().position(|byte| *byte == b' ')
}

/// The slot and the endpoint that the words behind the first name.
pub fn target_in(words: &[u8]) -> Option<Target<'_>>
    ensures target { MatchOption result (target_in words.now ≡ None)
        (λ t. target_in words.now ≡ Some (record { slot = t.slot; endpoint = record { host = t.host.now; port = t.port } })) }
    ensures in_range { IfSome result (λ t. t.slot < 16384) }
{
    let (first, others) = split_word(words);
    let Some(slot) = number_within(first, 0, 16383) else {
        return None;
    };
    let (endpoint, _) = split_word(others);
    let Some((host, port)) = endpoint_in(endpoint) else {
        return None;
    };
    Some(Target { slot, host, port })
}

/// A host and a port, cut at the last colon.
pub fn endpoint_in(text: &[u8]) -> Option<(&[u8], u16)>
    ensures { MatchOption result (endpoint_in text.now ≡ None)
        (λ e. endpoint_in text.now ≡ Some (record { host = e.0.now; port = e.1 })) }
{
    if !has_colon(text) {
        return None;
    }
    let (host, port) = split_at_colon(text);
    let Some(port) = number_within(port, 1, 65535) else {
        return None;
    };
    Some((host, port))
}

fn has_colon(text: &[u8]) -> bool
    ensures { result ≡ list_any (λ b. nat_eq b 58) text.now }
{
    text.iter().any(|byte| *byte == b':')
}

// What stands before the last colon, and behind it.
fn split_at_colon(text: &[u8]) -> (&[u8], &[u8])
    requires { list_any (λ b. nat_eq b 58) text.now ≡ true }
    ensures before { result.0.now ≡ before_last (λ b. nat_eq b 58) text.now }
    ensures after { result.1.now ≡ after_last (λ b. nat_eq b 58) text.now }
{
    let colon = text.len() - behind_colon(text) - 1;
    (&text[..colon], &text[colon + 1..])
}

// How many bytes stand behind the last colon.
#[tactic(auto, using(crate::proofs::Colon::behind_last_colon))]
fn behind_colon(text: &[u8]) -> usize
    requires { list_any (λ b. nat_eq b 58) text.now ≡ true }
    ensures less { result < length text.now }
    ensures len { result ≡ suffix_len (λ b. not (nat_eq b 58)) text.now }
{
    colonless_end(text)
}

// How many bytes at the end are no colon.
fn colonless_end(text: &[u8]) -> usize
    ensures { result ≡ suffix_len (λ b. not (nat_eq b 58)) text.now }
{
    text.iter().rev().take_while(|byte| **byte != b':').count()
}

/// One to five decimal digits as a number in a range.
pub fn number_within(text: &[u8], low: u16, high: u16) -> Option<u16>
    ensures number { result ≡ number_within low high text.now }
    ensures bound { IfSome result (λ n. n ≤ high) }
{
    let Some(number) = short_number(text) else {
        return None;
    };
    if low as u32 <= number && number <= high as u32 {
        Some(number as u16)
    } else {
        None
    }
}

// One to five decimal digits as a number.
fn short_number(text: &[u8]) -> Option<u32>
    ensures { result ≡ short_number text.now }
{
    if is_short_number(text) {
        Some(digits_value(text))
    } else {
        None
    }
}

fn is_short_number(text: &[u8]) -> bool
    ensures number { result ≡ (nat_le 1 (length text.now) && nat_le (length text.now) 5 && list_all is_ascii_digit text.now) }
    ensures short { result ≡ true → length text.now ≤ 5 }
{
    !text.is_empty() && text.len() <= 5 && all_digits(text)
}

fn all_digits(text: &[u8]) -> bool
    ensures { result ≡ list_all is_ascii_digit text.now }
{
    text.iter().all(|byte| byte.is_ascii_digit())
}

fn digits_value(text: &[u8]) -> u32
    requires { length text.now ≤ 5 }
    ensures { result ≡ digits_value text.now }
{
    let mut value: u32 = 0;
    for byte in text {
        value = 10 * value + byte.saturating_sub(b'0') as u32;
    }
    value
}
