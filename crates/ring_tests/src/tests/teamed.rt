//! Teams, in threads of their own, over flows that only count turns.

mod ending;
mod turns;
