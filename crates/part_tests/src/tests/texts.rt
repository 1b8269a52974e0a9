//! Wire scripts and captures: what no run of the program shows. `checks/runs` has their texts and bytes.

mod records;
mod scripts;
mod written;
