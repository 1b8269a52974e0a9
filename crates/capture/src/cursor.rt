//! The state of reading at one place of a capture.

ghost use Rattle.std.specs.Prelude.{◌≡◌, ◌<◌, ◌++◌, ◌∷◌, [], length, IfErr, OnOk};
ghost use Rattle.refusals.specs.declared.errors.CaptureError.TheVariants.{Memory};
ghost use Rattle.capture.specs.Sources.{Source, piece_in, source_after};

use crate::blocks::block_of;
use crate::entry::entry_of;
use crate::header::{Format, Order};
use crate::piece::{Interface, Piece};
use refusals::CaptureError;
use std::alloc::Global;
use std::marker::Model;

/// The format of a capture, the byte order at the current place, and the interfaces of the section so far.
#[derive(Drop)]
pub struct Cursor {
    format: Format,
    order: Order,
    interfaces: Vec<Interface>,
}

impl Model for Cursor {
    ghost Value = { Source };

    ghost view = { λ c. record { format = c.format; order = c.order; interfaces = c.interfaces.items } };
}

impl Cursor {
    pub fn new(alloc: Global, format: Format, order: Order) -> Self
        ensures { result ≡ record { format = format; order = order; interfaces = [] } }
    {
        Cursor {
            format,
            order,
            interfaces: Vec::new(alloc),
        }
    }

    /// The first piece in the bytes, and the bytes after it.
    pub fn piece_of<'a>(&self, bytes: &'a [u8]) -> (Piece<'a>, &'a [u8])
        requires { 0 < length bytes.now }
        ensures value { let p = piece_in self.now bytes.now in (result.0 ≡ p.0) × (result.1.now ≡ p.1) }
        ensures shorter { length result.1.now < length bytes.now }
    {
        match self.format {
            Format::Classic => {
                let (entry, rest) = entry_of(self.order, bytes);
                (Piece::Packet(entry), rest)
            }
            Format::Blocks => block_of(self.order, self.interfaces.as_slice(), bytes),
        }
    }

    /// Begins a section with this byte order. It has no interfaces yet.
    pub fn begin(&mut self, order: Order)
        ensures { self.new ≡ record { format = self.old.format; order = order; interfaces = [] } }
    {
        self.order = order;
        self.interfaces.clear();
    }

    /// Adds an interface to the section.
    pub fn push(&mut self, interface: Interface) -> Result<(), CaptureError>
        ensures pushed { OnOk result (self.new ≡ record { format = self.old.format; order = self.old.order; interfaces = self.old.interfaces ++ interface ∷ [] }) }
        ensures err { IfErr result (λ e. e ≡ Memory) }
    {
        self.interfaces
            .push(interface)
            .map_err(|_| CaptureError::Memory)
    }

    /// Advances past a piece.
    pub fn turn(&mut self, piece: &Piece<'_>) -> Result<(), CaptureError>
        ensures turned { OnOk result (self.new ≡ source_after self.old piece.now) }
        ensures err { IfErr result (λ e. e ≡ Memory) }
    {
        match piece {
            Piece::Packet(_) | Piece::Other => Ok(()),
            Piece::Section(order) => {
                self.begin(*order);
                Ok(())
            }
            Piece::Described(interface) => self.push(*interface),
        }
    }
}
