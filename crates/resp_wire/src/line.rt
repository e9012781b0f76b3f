//! Lines, and the bytes that end them.

ghost use Rattle.std.specs.Prelude.{IsTrue, ◌≡◌, ◌≤◌, ◌<◌, ◌==◌, ◌||◌, true, false, length, take, slice_index, MatchOption, IfSome};
ghost use Rattle.resp_wire.specs.Places.{IsPlainTo, IsUnfinished};
ghost use Rattle.resp_wire.specs.Text.{is_one_line};
ghost use Rattle.resp_wire.specs.Faults.{is_kind};
ghost use Rattle.resp_wire.specs.Reading as reading;
ghost use Rattle.resp_wire.specs.Gives.{Gives, Ends, byte_of};

use crate::fault::WireFault;

const CR: u8 = b'\r';

const LF: u8 = b'\n';

/// The kind of a value, which its first byte tells.
#[derive(Clone, Copy, Drop)]
pub(crate) enum Kind {
    Simple,
    Error,
    Integer,
    Bulk,
    Array,
}

impl Kind {
    pub(crate) fn of(byte: u8) -> Option<Kind>
        ensures { MatchOption result (is_kind byte ≡ false) (λ kind. (is_kind byte ≡ true) × (byte ≡ byte_of kind)) }
    {
        match byte {
            b'+' => Some(Kind::Simple),
            b'-' => Some(Kind::Error),
            b':' => Some(Kind::Integer),
            b'$' => Some(Kind::Bulk),
            b'*' => Some(Kind::Array),
            _ => None,
        }
    }
}

/// CR and LF at the front: what follows them.
pub(crate) fn end_at(bytes: &[u8]) -> Result<Option<&[u8]>, WireFault>
    ensures { Ends result (reading.end_at bytes.now) }
{
    match bytes {
        [] => Ok(None),
        [CR] => Ok(None),
        [CR, LF, rest @ ..] => Ok(Some(rest)),
        _ => Err(WireFault::BadEnd),
    }
}

/// How many bytes at the front are neither CR nor LF.
pub(crate) fn plain_len(bytes: &[u8]) -> usize
    ensures within { result ≤ length bytes.now }
    ensures plain { IsTrue (is_one_line (take result bytes.now)) }
    ensures stops { result < length bytes.now → (slice_index bytes.now result == 13 || slice_index bytes.now result == 10) ≡ true }
{
    for (i, byte) in bytes.iter().enumerate() {
        if *byte == CR || *byte == LF {
            return i;
        }
    }
    bytes.len()
}

/// The text of a line of at most `limit` bytes, and what follows its CR and LF.
pub(crate) fn text_at(bytes: &[u8], limit: usize) -> Result<Option<(&[u8], &[u8])>, WireFault>
    requires { limit ≤ 65536 }
    ensures { Gives (λ text. text.now) result (reading.text_at bytes.now limit) }
{
    let window = &bytes[..bytes.len().min(limit + 1)];
    let len = plain_len(window);
    if len > limit {
        return Err(WireFault::TooLong);
    }
    let (text, after) = bytes.split_at(len);
    match end_at(after) {
        Ok(Some(rest)) => Ok(Some((text, rest))),
        Ok(None) => Ok(None),
        Err(fault) => Err(fault),
    }
}

/// Where the line that begins the bytes is not all there: how many bytes behind its first one are known to be neither
/// CR nor LF, the first `plain` of them from before.
pub(crate) fn unfinished(bytes: &[u8], limit: usize, plain: usize) -> Option<usize>
    requires small { limit ≤ 65536 }
    requires plain { IsPlainTo bytes.now plain }
    ensures { IfSome result (λ plain. IsPlainTo bytes.now plain × IsUnfinished bytes.now limit) }
{
    let [first, text @ ..] = bytes else {
        return None;
    };
    let Some(_) = Kind::of(*first) else {
        return None;
    };
    let known = plain + plain_len(&text[plain..]);
    if known > limit {
        return None;
    }
    match end_at(&text[known..]) {
        Ok(None) => Some(known),
        _ => None,
    }
}
