//! What `decode` decodes.
ghost use Rattle.std.specs.Prelude.{◌≡◌, ◌↔◌, Some};
ghost use Rattle.requests.specs.Decoding.{format_word, ring_word};

/// The form of a descriptor. Its bytes do not determine it.
#[derive(Clone, Copy)]
pub enum DescriptorForm {
    /// A receive descriptor as the driver posts it (82599 datasheet, 7.1.6.1).
    RxRead,
    /// A receive descriptor as the controller writes it back (82599 datasheet, 7.1.6.2).
    RxBack,
    /// A transmit descriptor as the driver posts it (82599 datasheet, 7.2.3.2.4).
    TxRead,
    /// A transmit descriptor as the controller writes it back (82599 datasheet, 7.2.3.2.4).
    TxBack,
}

impl DescriptorForm {
    /// The form for the ring `rx` or `tx` and the format `read` or `back`, or `None` for other words.
    pub fn named(ring: &str, format: &str) -> Option<DescriptorForm>
        ensures { (form : DescriptorForm)
            → (result ≡ Some form) ↔ (ring.now ≡ ring_word form) × (format.now ≡ format_word form) }
    {
        match (ring, format) {
            ("rx", "read") => Some(DescriptorForm::RxRead),
            ("rx", "back") => Some(DescriptorForm::RxBack),
            ("tx", "read") => Some(DescriptorForm::TxRead),
            ("tx", "back") => Some(DescriptorForm::TxBack),
            _ => None,
        }
    }
}
