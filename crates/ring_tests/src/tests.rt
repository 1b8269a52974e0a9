//! The tests: `receive` and `transmit` for the running rings; `drivers`, `controllers`, `threads` and `teamed` for the layers
//! above them; the others for machines and their texts.

mod back;
mod controllers;
mod drivers;
mod expected;
mod machine_tests;
mod receive;
mod steps;
mod teamed;
mod text_tests;
mod threads;
mod transmit;
mod wanted;
