//! Both ends of a ring in one thread, with each step made by a call.

mod both;
mod rows;
mod schedules;
