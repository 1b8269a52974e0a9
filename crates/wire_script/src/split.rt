//! Cutting a line into fields.

ghost use Rattle.std.specs.Prelude.{◌≡◌, ◌∷◌, ◌<◌, codes, ℕ, List, [], false, length, IfNone, IfSome};
ghost use Rattle.std.specs.Str.{bytes_eq};
ghost use Rattle.text_lines.specs.Parts.{parts};
ghost use Rattle.wire_script.specs.Line.{fields_say};
ghost use Rattle.wire_script.specs.Split.{begins_inner, frame_of_payload, frame_of_split, is_last};
ghost use Rattle.wire_script.specs.declared.split.TheConstants.{SPACE};

use text_lines::cut;

const SPACE: u8 = b' ';

/// The fields that give the frame's bytes.
#[derive(Clone, Copy, Debug)]
pub enum Payload<'a> {
    /// Pairs of hex digits.
    Hex(&'a [u8]),
    /// A length, and the byte that is repeated.
    Fill { len: &'a [u8], byte: &'a [u8] },
}

/// The fields of a line, none of them empty and in a lawful number.
#[derive(Clone, Copy, Debug)]
pub struct Split<'a> {
    /// The first field.
    pub port: &'a [u8],
    /// The second field.
    pub queue: &'a [u8],
    /// The fields after these two.
    pub payload: Payload<'a>,
}

// A nonempty field that another one follows, and the bytes from that one on.
fn inner_field(bytes: &[u8]) -> Option<(&[u8], &[u8])>
    ensures found { IfSome result (λ x. parts SPACE bytes.now ≡ x.0.now ∷ parts SPACE x.1.now) }
    ensures filled { IfSome result (λ x. 0 < length x.0.now) }
    ensures none { IfNone result (begins_inner (parts SPACE bytes.now) ≡ false) }
{
    let (field, rest) = cut(bytes, SPACE);
    let rest = rest?;
    if field.is_empty() {
        return None;
    }
    Some((field, rest))
}

// The remaining bytes, if they are exactly one nonempty field.
fn last_field(bytes: &[u8]) -> Option<&[u8]>
    ensures found { IfSome result (λ x. parts SPACE bytes.now ≡ x.now ∷ []) }
    ensures filled { IfSome result (λ x. 0 < length x.now) }
    ensures none { IfNone result (is_last (parts SPACE bytes.now) ≡ false) }
{
    let (field, rest) = cut(bytes, SPACE);
    if rest.is_some() {
        return None;
    }
    if field.is_empty() {
        return None;
    }
    Some(field)
}

// Whether a field is the word of a line of five fields.
fn is_fill(word: &[u8]) -> bool
    ensures { result ≡ bytes_eq word.now (codes "fill") }
{
    word == b"fill".as_slice()
}

// The fields after port and queue.
fn payload_of(bytes: &[u8]) -> Option<Payload<'_>>
    ensures { (k : ℕ) (port queue : List ℕ) → 0 < length port → 0 < length queue
        → fields_say k (port ∷ queue ∷ parts SPACE bytes.now) ≡ frame_of_payload k port queue result }
{
    if let Some(hex) = last_field(bytes) {
        return Some(Payload::Hex(hex));
    }
    let (word, rest) = inner_field(bytes)?;
    if !is_fill(word) {
        return None;
    }
    let (len, rest) = inner_field(rest)?;
    let byte = last_field(rest)?;
    Some(Payload::Fill { len, byte })
}

/// The fields of a line. Returns `None` if their number is wrong or one is empty.
pub fn split_of(line: &[u8]) -> Option<Split<'_>>
    ensures { (k : ℕ) → fields_say k (parts SPACE line.now) ≡ frame_of_split k result }
{
    let (port, rest) = inner_field(line)?;
    let (queue, rest) = inner_field(rest)?;
    let payload = payload_of(rest)?;
    Some(Split {
        port,
        queue,
        payload,
    })
}
