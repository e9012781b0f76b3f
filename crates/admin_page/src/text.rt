//! Samples and the heads of families, in Prometheus' text format.

ghost use Rattle.std.specs.Prelude.{◌≡◌, ◌++◌, OnOk, codes, decimal};
ghost use Rattle.admin_page.specs.Text.{escaped, escaped_byte, head_text, line_text, sample_text};
ghost use Rattle.admin_page.specs.Page.{labelled, plain};

use itoa::Buffer;
use std::alloc::AllocError;

/// A family's name, its type and what it counts.
#[derive(Clone, Copy)]
pub(crate) struct Head {
    pub name: &'static str,
    pub kind: &'static str,
    pub help: &'static str,
}

fn push_str(text: &mut Vec<u8>, piece: &str) -> Result<(), AllocError>
    ensures { OnOk result (text.new.items ≡ text.old.items ++ piece.now) }
{
    text.extend_from_slice(piece.as_bytes())
}

/// Adds the two lines before a family's samples.
pub(crate) fn push_head(text: &mut Vec<u8>, head: Head) -> Result<(), AllocError>
    ensures { OnOk result (text.new.items ≡ text.old.items ++ head_text head.name.now head.kind.now head.help.now) }
{
    push_line(text, "# HELP ", head.name, head.help)?;
    push_line(text, "# TYPE ", head.name, head.kind)
}

/// Adds a line about a family.
fn push_line(text: &mut Vec<u8>, word: &str, name: &str, rest: &str) -> Result<(), AllocError>
    ensures { OnOk result (text.new.items ≡ text.old.items ++ line_text word.now name.now rest.now) }
{
    push_str(text, word)?;
    push_str(text, name)?;
    push_str(text, " ")?;
    push_str(text, rest)?;
    push_str(text, "\n")
}

/// Adds a value without a label.
pub(crate) fn push_plain(text: &mut Vec<u8>, name: &str, value: u64) -> Result<(), AllocError>
    ensures { OnOk result (text.new.items ≡ text.old.items ++ sample_text name.now (plain value)) }
{
    push_str(text, name)?;
    push_value(text, value)
}

/// Adds the value of what the label says, under the family's name and what is added to it.
pub(crate) fn push_labelled(
    text: &mut Vec<u8>,
    name: &str,
    suffix: &str,
    label: &str,
    of: &[u8],
    value: u64,
) -> Result<(), AllocError>
    ensures { OnOk result (text.new.items ≡ text.old.items ++ sample_text name.now (labelled suffix.now label.now of.now value)) }
{
    push_str(text, name)?;
    push_str(text, suffix)?;
    push_label(text, label, of)?;
    push_value(text, value)
}

/// Adds a label.
fn push_label(text: &mut Vec<u8>, label: &str, of: &[u8]) -> Result<(), AllocError>
    ensures { OnOk result (text.new.items ≡ text.old.items ++ (codes "{" ++ label.now ++ codes "=\"" ++ escaped of.now ++ codes "\"}")) }
{
    push_str(text, "{")?;
    push_str(text, label)?;
    push_str(text, "=\"")?;
    push_escaped(text, of)?;
    push_str(text, "\"}")
}

/// Adds the value of a label.
fn push_escaped(text: &mut Vec<u8>, value: &[u8]) -> Result<(), AllocError>
    ensures { OnOk result (text.new.items ≡ text.old.items ++ escaped value.now) }
{
    for byte in value {
        push_byte(text, *byte)?;
    }
    Ok(())
}

fn push_byte(text: &mut Vec<u8>, byte: u8) -> Result<(), AllocError>
    ensures { OnOk result (text.new.items ≡ text.old.items ++ escaped_byte byte) }
{
    if byte == b'\\' {
        return text.extend_from_slice(b"\\\\");
    }
    if byte == b'"' {
        return text.extend_from_slice(b"\\\"");
    }
    if byte == b'\n' {
        return text.extend_from_slice(b"\\n");
    }
    text.push(byte)?;
    Ok(())
}

/// Adds a space, the value and the line's end.
pub(crate) fn push_value(text: &mut Vec<u8>, value: u64) -> Result<(), AllocError>
    ensures { OnOk result (text.new.items ≡ text.old.items ++ (codes " " ++ decimal value ++ codes "\n")) }
{
    let mut buffer = Buffer::new();
    text.push(b' ')?;
    text.extend_from_slice(buffer.format(value).as_bytes())?;
    text.extend_from_slice(b"\n")
}
