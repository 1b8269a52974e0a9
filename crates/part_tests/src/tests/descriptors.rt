//! The four forms of descriptors.

mod rows;
