//! The descriptors of the Intel 82599, each 16 bytes: two little-endian words of 64 bits.
//! Depends on `limits`, `refusals` and `byteorder`.
//! Guarantees that encoding and decoding are exact inverses, and that every value satisfies the project's profile of
//! the controller.
//!
//! There are four forms: the descriptors that the driver posts to receive ([`RxRead`]) and to transmit ([`TxRead`]),
//! and those that the controller writes back in their place ([`RxBack`], [`TxBack`]). The bytes do not determine the
//! form, so the caller names it.
//!
//! The trait [`Descriptor`] has the calls that all four share. `to_bytes` encodes a value. `from_bytes` accepts exactly
//! these encodings, and returns the applicable refusal with the lowest number for any other bytes. A ring keeps words,
//! not bytes, and uses `words`, `second_word`, `from_words` and the calls that read a status word.
#![tactic(auto)]

mod address;
mod form;
mod rx_back;
mod rx_read;
mod tx_back;
mod tx_read;
mod words;

pub use form::Descriptor;
pub use refusals::DescError;
pub use rx_back::RxBack;
pub use rx_read::RxRead;
pub use tx_back::TxBack;
pub use tx_read::TxRead;
