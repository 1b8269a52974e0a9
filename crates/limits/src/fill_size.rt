//! The number of bytes to which buffers are filled.
ghost use Rattle.std.specs.Prelude.{◌↔◌, IsTrue};
ghost use Rattle.limits.specs.FillSize.{IsFillSize};

/// Whether a controller may fill buffers to `bsize` bytes: 1,024 or 2,048 (82599 datasheet, SRRCTL.BSIZEPACKET).
pub fn is_fill_size(bsize: usize) -> bool
    ensures { IsTrue result ↔ IsFillSize bsize }
{
    bsize == 1_024 || bsize == 2_048
}
