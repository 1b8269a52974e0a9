//! The kinds of text that are read, and written again.

use anyhow::Result;
use capture::{Capture, read, write};
use std::alloc::Global;
use wire_script::{Script, parse, print};

/// A parsed text.
pub trait Text<'a>: Drop + Sized {
    /// Parses a text.
    fn read(alloc: Global, bytes: &'a [u8]) -> Result<Self>;

    /// How many frames it has.
    fn count(&self) -> usize;

    /// Writes it as bytes.
    fn written(&self, alloc: Global) -> Result<Vec<u8>>;
}

impl<'a> Text<'a> for Script {
    fn read(alloc: Global, bytes: &'a [u8]) -> Result<Self> {
        Ok(parse(alloc, bytes)?)
    }

    fn count(&self) -> usize {
        self.frames().len()
    }

    fn written(&self, alloc: Global) -> Result<Vec<u8>> {
        let text = print(alloc, self.frames())?;
        Ok(text.into_bytes())
    }
}

impl<'a> Text<'a> for Capture<'a> {
    fn read(alloc: Global, bytes: &'a [u8]) -> Result<Self> {
        Ok(read(alloc, bytes)?)
    }

    fn count(&self) -> usize {
        self.records().len()
    }

    fn written(&self, alloc: Global) -> Result<Vec<u8>> {
        Ok(write(alloc, self.records())?)
    }
}
