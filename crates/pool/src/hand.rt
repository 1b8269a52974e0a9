//! The rule of a pool's queue, and what a pass knows of it.
ghost use Rattle.std.specs.Prelude.{ℕ};

use buffer_pool::Buf;
use crossbeam_queue::protocol::{Join, Lesson, Outcome, Protocol, Split};
use std::collections::LinkedList;
use std::marker::{Brand, PhantomData};

/// The share of a pool's only pass. The shares of all passes of a pool add up to it.
pub const WHOLE_SHARE: u32 = 65_536;

const _: () = prove!(WHOLE_SHARE == 65_536);

/// The state of a pass, for contracts alone; no value of it exists at run time.
pub struct Hand {
    /// The pass's share of the pool.
    pub share: u64,
    /// How many buffers belong to the pool.
    pub count: u64,
    /// The numbers of the buffers that the pass holds, the last one taken first.
    pub held: LinkedList<u32>,
    /// With the whole share: the numbers in the pool, in the order in which they are taken, as far as the pass knows
    /// them.
    pub queued: Option<LinkedList<u32>>,
}

/// The rule of a pool's queue.
pub struct Sharing;

impl Protocol<Buf, Hand> for Sharing {
    ghost use Rattle.pool.specs.Hands.{fresh_hand};
    ghost use Rattle.pool.specs.Sharing.{Shared};

    ghost holds = { Shared };

    ghost first = { fresh_hand 0 };
}

/// A buffer leaves the pool.
pub(crate) struct TakesBuffer;

impl Outcome<Buf, Hand> for TakesBuffer {
    ghost use Rattle.pool.specs.Plays.{Taken};

    ghost then = { Taken };
}

impl Lesson<Buf, Hand> for TakesBuffer {
    ghost use Rattle.pool.specs.Plays.{Looked};

    ghost fact = { Looked };
}

/// A buffer comes back to the pool.
pub(crate) struct GivesBuffer;

impl Outcome<Buf, Hand> for GivesBuffer {
    ghost use Rattle.pool.specs.Plays.{Given};

    ghost then = { Given };
}

impl Lesson<Buf, Hand> for GivesBuffer {
    ghost use Rattle.pool.specs.Plays.{Looked};

    ghost fact = { Looked };
}

/// A new buffer enters the pool while the pool is made.
pub(crate) struct Adds;

impl Outcome<Buf, Hand> for Adds {
    ghost use Rattle.pool.specs.Plays.{Added};

    ghost then = { Added };
}

impl Lesson<Buf, Hand> for Adds {
    ghost use Rattle.pool.specs.Plays.{Looked};

    ghost fact = { Looked };
}

/// The part of a share that is split off.
pub(crate) trait Amount {
    ghost amount: { ℕ };
}

impl Amount for Brand {
    ghost amount = { 0 };
}

/// A pass is split off.
pub(crate) struct PartsHand<K> {
    amount: PhantomData<K>,
}

impl<K: Amount> Split<Hand> for PartsHand<K> {
    ghost use Rattle.pool.specs.Hands.{kept_hand, new_hand};

    ghost left = { kept_hand K.amount };

    ghost right = { new_hand K.amount };
}

/// Two passes are joined.
pub(crate) struct JoinsHands;

impl Join<Hand> for JoinsHands {
    ghost use Rattle.std.specs.Prelude.{[], None};
    ghost use Rattle.pool.specs.Hands.{hand, joined_hand};

    ghost both = { joined_hand };

    ghost spent = { hand 0 0 [] None };
}
