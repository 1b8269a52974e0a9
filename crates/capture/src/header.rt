//! The header of a capture.

ghost use Rattle.std.specs.Prelude.{◌≡◌};
ghost use Rattle.capture.specs.Layout.{form_of};

/// The unit of the fractions of a second in a capture's times.
#[derive(Clone, Copy, Debug, PartialEq, Eq)]
pub enum TimeUnit {
    Micros,
    Nanos,
}

/// The byte order of a capture's numbers.
#[derive(Clone, Copy)]
pub enum Order {
    Big,
    Little,
}

/// The format of the file: records of classic pcap, or blocks of pcapng.
#[derive(Clone, Copy)]
pub enum Format {
    Classic,
    Blocks,
}

/// The format, byte order and time unit of a capture.
#[derive(Clone, Copy)]
pub struct CaptureForm {
    pub format: Format,
    pub order: Order,
    pub unit: TimeUnit,
}

/// The form for a magic number of classic pcap, read as big-endian.
pub fn form_of(magic: u32) -> Option<CaptureForm>
    ensures { result ≡ form_of magic }
{
    let (order, unit) = match magic {
        0xa1b2_c3d4 => (Order::Big, TimeUnit::Micros),
        0xa1b2_3c4d => (Order::Big, TimeUnit::Nanos),
        0xd4c3_b2a1 => (Order::Little, TimeUnit::Micros),
        0x4d3c_b2a1 => (Order::Little, TimeUnit::Nanos),
        _ => return None,
    };
    let format = Format::Classic;
    Some(CaptureForm {
        format,
        order,
        unit,
    })
}
