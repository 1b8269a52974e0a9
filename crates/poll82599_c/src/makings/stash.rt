//! A stash of new buffers.
ghost use Rattle.std.specs.Prelude.{◌≡◌, ◌≢◌, ◌<◌, ◌⊎◌, IfErr, IfOk};
ghost use Rattle.poll82599_c.specs.Stashes.{AreBuffers};

use crate::makings::Unmade;
use buffer_pool::{Stash, Stock};
use std::alloc::Global;

/// The fewest buffers of a driver or a worker.
const LEAST_BUFFERS: u32 = 16;

/// The most buffers of a driver or a worker: its stash has room for all.
const MOST_BUFFERS: u32 = 256;

/// Makes a stash of `buffers` buffers, 16 to 256, numbered from 0.
pub(crate) fn stash_of(alloc: Global, buffers: u32) -> Result<Stash, Unmade>
    ensures made { IfOk result (λ s. AreBuffers buffers s) }
    ensures refusals { IfErr result (λ e. (e ≡ Unmade.Buffers) ⊎ (e ≡ Unmade.Memory)) }
    ensures length { IfErr result (λ e. e ≢ Unmade.Length) }
    ensures buffers { IfErr result (λ e. e ≡ Unmade.Buffers → (buffers < 16) ⊎ (256 < buffers)) }
{
    if buffers < LEAST_BUFFERS || MOST_BUFFERS < buffers {
        return Err(Unmade::Buffers);
    }
    let Ok(mut stock) = Stock::new(alloc, 0, buffers) else {
        return Err(Unmade::Memory);
    };
    let mut stash = Stash::new();
    while let Some(buf) = stock.take() {
        stash.push(buf);
    }
    Ok(stash)
}
