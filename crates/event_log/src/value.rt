//! How a value is spelled.

ghost use Rattle.std.specs.Prelude.{◌≡◌, ◌++◌, ◌&&◌, nat_le, length, map, IfOk, OnOk};
ghost use Rattle.std.specs.List.{list_all};
ghost use Rattle.event_log.specs.Line.{is_printable, is_quotable, is_bare, quoted_byte, quoted, value_text};

use std::alloc::{AllocError, Global};

fn is_printable(byte: u8) -> bool
    ensures { result ≡ is_printable byte }
{
    32 <= byte && byte <= 126
}

fn is_quotable(byte: u8) -> bool
    ensures { result ≡ is_quotable byte }
{
    is_printable(byte) && (byte != b'"' && byte != b'\\')
}

fn is_bare(byte: u8) -> bool
    ensures { result ≡ is_bare byte }
{
    is_quotable(byte) && (byte != b' ' && byte != b'=')
}

fn quoted_byte(byte: u8) -> u8
    ensures { result ≡ quoted_byte byte }
{
    if is_quotable(byte) { byte } else { b'?' }
}

/// Whether a value needs no quotes.
fn needs_no_quotes(value: &[u8]) -> bool
    ensures { result ≡ (nat_le 1 (length value.now) && list_all is_bare value.now) }
{
    !value.is_empty() && are_bare(value)
}

fn are_bare(value: &[u8]) -> bool
    ensures { result ≡ list_all is_bare value.now }
{
    value.iter().all(|byte| is_bare(*byte))
}

/// A value with `?` for each byte that is not quotable.
fn quoted_bytes(alloc: Global, value: &[u8]) -> Result<Vec<u8>, AllocError>
    ensures { IfOk result (λ bytes. bytes.items ≡ map quoted_byte value.now) }
{
    value.iter().map(|byte| quoted_byte(*byte)).collect(alloc)
}

fn push_quoted(alloc: Global, text: &mut Vec<u8>, value: &[u8]) -> Result<(), AllocError>
    ensures { OnOk result (text.new.items ≡ text.old.items ++ quoted value.now) }
{
    let bytes = quoted_bytes(alloc, value)?;
    text.push(b'"')?;
    text.extend_from_slice(bytes.as_slice())?;
    text.push(b'"')?;
    Ok(())
}

/// Adds a value to a text.
pub(crate) fn push_value(alloc: Global, text: &mut Vec<u8>, value: &[u8]) -> Result<(), AllocError>
    ensures { OnOk result (text.new.items ≡ text.old.items ++ value_text value.now) }
{
    if needs_no_quotes(value) {
        text.extend_from_slice(value)?;
        return Ok(());
    }
    push_quoted(alloc, text, value)
}
