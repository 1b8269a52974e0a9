//! Reclaiming the buffers of an unfinished chain.
ghost use Rattle.std.specs.Prelude.{◌≡◌, ◌↔◌, ◌⊎◌, true, [], length, All, IsTrue};
ghost use Rattle.driver.specs.receive.Chains.{HasSegment};
ghost use Rattle.driver.specs.receive.Returns.{Unchained};

use buffer_pool::{Packet, STASH_BUFFERS, Stash};

/// Moves the buffers of a chain into the stash, and returns whether all found room.
pub(super) fn empty_chain(chain: &mut Packet, stash: &mut Stash) -> bool
    requires { All HasSegment chain.old }
    ensures each { All HasSegment chain.new }
    ensures moved { Unchained chain.old stash.old chain.new stash.new }
    ensures all { IsTrue result ↔ (chain.new ≡ []) }
    ensures full { (result ≡ true) ⊎ (length stash.new ≡ STASH_BUFFERS) }
{
    while !stash.is_full() {
        let Some(buf) = chain.pop_front() else {
            return true;
        };
        stash.push(buf);
    }
    chain.segments() == 0
}
