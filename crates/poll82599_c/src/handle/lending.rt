//! Lending the object of a handle. `lent` has a file of its own: its clause names the row of `Handle`, which the file that
//! declares `Handle` cannot import.
ghost use Rattle.std.specs.Prelude.{◌≡◌, None, Some, MatchOption};
ghost use Rattle.std.specs.Borrow.{LendsIf, sem};
ghost use Rattle.poll82599_c.specs.Lent.{with_held};
ghost use Rattle.poll82599_c.specs.contracts.end.End.{the_row as end_row};
ghost use Rattle.poll82599_c.specs.contracts.handle.Handle.{the_row};

use super::Handle;
use crate::end::End;

impl Handle {
    /// Lends the object, if there is one. When the borrow ends, the handle holds what was written through it.
    pub(crate) fn lent(&mut self) -> Option<&mut End>
        ensures* writes_back { sem 𝓛 (LendsIf the_row end_row self.entry result (with_held self.old) self.old) }
        ensures value { MatchOption result (self.old.held ≡ None) (λ end. self.old.held ≡ Some end.now) }
    {
        let ptr = self.ptr;
        if ptr.is_null() {
            return None;
        }
        Some(unsafe { &mut *(ptr as *mut End) })
    }
}
