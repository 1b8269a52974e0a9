//! The tests, a folder for each kind of part.

mod buffers;
mod counting;
mod descriptors;
mod pools;
mod texts;
mod wanted;
