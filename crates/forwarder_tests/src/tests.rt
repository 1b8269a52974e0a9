//! The tests of the forwarder, and their helpers: `configs`, `gates`, `readers`, `bursts`, `counted` and `trials`. The tests of
//! the program are `forward` and those with the ending `_tests`: `runs` runs it on words and on the `streams`.

mod bounds;
mod bursts;
mod configs;
mod counted;
mod cutting;
mod failing;
mod forward;
mod gates;
mod gathered;
mod list_tests;
mod readers;
mod refusal_tests;
mod refusing;
mod repeating;
mod runs;
mod search_tests;
mod side_by_side;
mod stream_tests;
mod streams;
mod trials;
mod wanted;
mod wanting;
mod watched;
