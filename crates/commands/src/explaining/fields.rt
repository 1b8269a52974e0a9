//! Names the field of a descriptor that breaks the profile, with its bits as the datasheet numbers them.

use descriptor::DescError;
use limits::{BUFFER_BYTES, LEAST_FRAME, MOST_FRAME};
use requests::DescriptorForm;
use std::alloc::AllocError;

/// The numbers that the profile allows in a field.
#[derive(Clone, Copy)]
enum FieldRule {
    /// This number alone.
    Fixed(u64),
    /// This number alone, which tells the type of the descriptor.
    Type(u64),
    /// 0 or 1, and 0 unless EOP (bit 24) is set.
    BesideEop,
    /// The numbers from the first to the second.
    Range(u64, u64),
    /// Any number.
    Any,
}

/// A field of a quadword: its name, its highest and its lowest bit, and its rule.
#[derive(Clone, Copy)]
struct Field(&'static str, u32, u32, FieldRule);

/// 0 alone.
const ZERO: FieldRule = FieldRule::Fixed(0);

/// Buffer address (82599 datasheet, 7.1.6.1 and 7.2.3.2.4): the buffer's number times 2,048.
const ADDRESS: &[Field] = &[
    Field("buffer address", 10, 0, ZERO),
    Field("buffer address", 26, 11, FieldRule::Any),
    Field("buffer address", 63, 27, ZERO),
];

/// Receive descriptor, read format (7.1.6.1).
const RX_READ: &[Field] = &[
    Field("DD", 0, 0, ZERO),
    Field("header buffer address", 63, 1, ZERO),
];

/// Receive descriptor, write-back format (7.1.6.2), first quadword.
const RX_BACK_FIRST: &[Field] = &[
    Field("RSS type", 3, 0, ZERO),
    Field("packet type", 16, 4, ZERO),
    Field("RSCCNT", 20, 17, ZERO),
    Field("HDR_LEN", 30, 21, ZERO),
    Field("SPH", 31, 31, ZERO),
    Field("RSS hash", 63, 32, ZERO),
];

/// Receive descriptor, write-back format (7.1.6.2), second quadword.
const RX_BACK_SECOND: &[Field] = &[
    Field("DD", 0, 0, FieldRule::Fixed(1)),
    Field("EOP", 1, 1, FieldRule::Any),
    Field("FLM", 2, 2, ZERO),
    Field("VP", 3, 3, ZERO),
    Field("UDPCS", 4, 4, ZERO),
    Field("L4I", 5, 5, ZERO),
    Field("IPCS", 6, 6, ZERO),
    Field("PIF", 7, 7, ZERO),
    Field("reserved", 8, 8, ZERO),
    Field("VEXT", 9, 9, ZERO),
    Field("UDPV", 10, 10, ZERO),
    Field("LLINT", 11, 11, ZERO),
    Field("reserved", 15, 12, ZERO),
    Field("TS", 16, 16, ZERO),
    Field("SECP", 17, 17, ZERO),
    Field("LB", 18, 18, ZERO),
    Field("reserved", 19, 19, ZERO),
    Field("FDIRERR", 22, 20, ZERO),
    Field("HBO", 23, 23, ZERO),
    Field("reserved", 26, 24, ZERO),
    Field("SECERR", 28, 27, ZERO),
    Field("RXE", 29, 29, ZERO),
    Field("L4E", 30, 30, ZERO),
    Field("IPE", 31, 31, ZERO),
    Field("PKT_LEN", 47, 32, FieldRule::Range(1, BUFFER_BYTES as u64)),
    Field("VLAN tag", 63, 48, ZERO),
];

/// Transmit descriptor, read format (7.2.3.2.4), second quadword.
const TX_READ: &[Field] = &[
    Field("DTALEN", 15, 0, FieldRule::Range(1, BUFFER_BYTES as u64)),
    Field("reserved", 17, 16, ZERO),
    Field("MAC", 19, 18, ZERO),
    Field("DTYP", 23, 20, FieldRule::Type(3)),
    Field("EOP", 24, 24, FieldRule::Any),
    Field("IFCS", 25, 25, FieldRule::Fixed(1)),
    Field("reserved", 26, 26, ZERO),
    Field("RS", 27, 27, FieldRule::BesideEop),
    Field("reserved", 28, 28, ZERO),
    Field("DEXT", 29, 29, FieldRule::Type(1)),
    Field("VLE", 30, 30, ZERO),
    Field("TSE", 31, 31, ZERO),
    Field("STA", 35, 32, ZERO),
    Field("IDX", 38, 36, ZERO),
    Field("CC", 39, 39, ZERO),
    Field("POPTS", 45, 40, ZERO),
    Field(
        "PAYLEN",
        63,
        46,
        FieldRule::Range(LEAST_FRAME as u64, MOST_FRAME as u64),
    ),
];

/// Transmit descriptor, write-back format (7.2.3.2.4), first quadword.
const TX_BACK_FIRST: &[Field] = &[Field("reserved", 63, 0, ZERO)];

/// Transmit descriptor, write-back format (7.2.3.2.4), second quadword.
const TX_BACK_SECOND: &[Field] = &[
    Field("reserved", 31, 0, ZERO),
    Field("DD", 32, 32, FieldRule::Fixed(1)),
    Field("STA", 35, 33, ZERO),
    Field("reserved", 63, 36, ZERO),
];

/// The fields of a form, by quadword.
fn fields_of(form: DescriptorForm) -> (&'static [Field], &'static [Field]) {
    match form {
        DescriptorForm::RxRead => (ADDRESS, RX_READ),
        DescriptorForm::RxBack => (RX_BACK_FIRST, RX_BACK_SECOND),
        DescriptorForm::TxRead => (ADDRESS, TX_READ),
        DescriptorForm::TxBack => (TX_BACK_FIRST, TX_BACK_SECOND),
    }
}

/// The number in bits `high` to `low` of a quadword.
fn bits(quadword: u64, high: u32, low: u32) -> u64 {
    let above = 63u32.saturating_sub(high);
    let kept = quadword.checked_shl(above).unwrap_or(0);
    kept.checked_shr(above.saturating_add(low)).unwrap_or(0)
}

impl Field {
    /// Whether this field of a quadword breaks the rule whose violation is this error.
    fn breaks(self, quadword: u64, error: DescError) -> bool {
        let Field(_, high, low, rule) = self;
        let number = bits(quadword, high, low);
        match (error, rule) {
            (DescError::Reserved, FieldRule::Fixed(only))
            | (DescError::Kind, FieldRule::Type(only)) => { number != only }
            (DescError::Reserved, FieldRule::BesideEop) => number == 1
                && bits(quadword, 24, 24) == 0,
            (DescError::Size, FieldRule::Range(least, most)) => number < least || most < number,
            _ => false,
        }
    }

    /// Writes this field's number in a quadword, and the numbers that the profile allows.
    fn explain(self, why: &mut String, name: &str, quadword: u64) -> Result<(), AllocError> {
        let Field(field, high, low, rule) = self;
        let number = bits(quadword, high, low);
        if high == low {
            write!(
                why,
                "{field} (bit {low} of the {name} quadword) is {number}"
            )?;
        } else {
            write!(
                why,
                "{field} (bits {high}:{low} of the {name} quadword) is {number:#x}"
            )?;
        }
        match rule {
            FieldRule::Fixed(only) | FieldRule::Type(only) => write!(why, ", but must be {only}"),
            FieldRule::BesideEop => why.push_str(", but must be 0 unless EOP is 1"),
            FieldRule::Range(least, most) => {
                write!(why, " ({number}), but must be {least} to {most}")
            }
            FieldRule::Any => Ok(()),
        }
    }
}

/// The first of these fields that breaks the rule of this error.
fn first_broken(fields: &[Field], quadword: u64, error: DescError) -> Option<Field> {
    fields
        .iter()
        .find(|field| field.breaks(quadword, error))
        .copied()
}

/// Explains why these quadwords are not a descriptor of a form: names the first field that breaks the rule of this
/// error. Writes nothing if there is none.
pub(crate) fn explain_field(
    why: &mut String,
    form: DescriptorForm,
    (first, second): (u64, u64),
    error: DescError,
) -> Result<(), AllocError> {
    let (firsts, seconds) = fields_of(form);
    if let Some(field) = first_broken(firsts, first, error) {
        return field.explain(why, "first", first);
    }
    if let Some(field) = first_broken(seconds, second, error) {
        return field.explain(why, "second", second);
    }
    Ok(())
}
