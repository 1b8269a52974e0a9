//! Rings step by step, a segment at a time: the objects of the two ends.

mod driving;
mod handed;
mod handshake;
mod partial_frame;
mod serving;

pub(crate) use driving::{RxDriving, TxDriving};
pub(crate) use partial_frame::{Asking, PartialFrame};
pub(crate) use serving::{RxServing, TxServing};
