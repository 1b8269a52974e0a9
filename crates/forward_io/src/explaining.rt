//! Explains refusals of scripts, captures, files and configurations: the value at fault, and the expected one.
//!
//! Each function appends its explanation to `why`.

mod config;
mod faulty_capture;
mod faulty_script;
mod files;

pub(crate) use config::explain_config;
pub(crate) use faulty_capture::explain_capture;
pub(crate) use faulty_script::{explain_script, first_beyond};
pub(crate) use files::explain_file;
