//! The drivers and the controllers in threads of their own. One thread has a receive driver and a transmit driver,
//! which sends the packets that the other takes. The other thread is the device, with the rings' own ends or with
//! controllers.

mod device;
mod forwarder;
mod frames;
mod played;
mod rings;
mod side;
mod with_controllers;
mod with_ends;
