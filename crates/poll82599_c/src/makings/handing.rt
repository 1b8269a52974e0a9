//! Putting new objects into handles.
ghost use Rattle.std.specs.Prelude.{◌≡◌, ◌≢◌, ◌⊎◌, None, Some, IfErr, IfOk, pos};

use crate::end::End;
use crate::handle::Handle;
use crate::makings::Unmade;

/// The result if a handle already holds an object.
const IN_USE: i32 = 5;

/// Puts a new object into an empty handle and returns 0, or returns the number of the refusal, or 5 if the handle holds an
/// object, and drops the new one.
pub(crate) fn put_one(made: Result<Box<End>, Unmade>, handle: &mut Handle) -> i32
    ensures made { IfOk made (λ r. ((result ≡ pos 0) × (handle.new.held ≡ Some r.value)) ⊎ (result ≡ pos 5)) }
    ensures was_empty { (result ≡ pos 0) → handle.old.held ≡ None }
    ensures in_use { (result ≡ pos 5) → (handle.old.held ≢ None) × (handle.new.held ≡ handle.old.held) }
    ensures unmade { IfErr made (λ e. (result ≢ pos 0) × (result ≢ pos 5) × (handle.new ≡ handle.old)) }
    ensures buffers { IfErr made (λ e. result ≡ pos 3 → e ≡ Unmade.Buffers) }
    ensures settings { IfErr made (λ e. result ≡ pos 4 → e ≡ Unmade.Settings) }
{
    match made {
        Ok(object) => {
            if !handle.is_empty() {
                drop(object);
                return IN_USE;
            }
            handle.put(object);
            0
        }
        Err(why) => why.number(),
    }
}

/// Puts two new objects into empty handles and returns 0, or returns the number of the refusal, or 5 if either handle holds
/// an object, and drops the new ones.
pub(crate) fn put_both(
    made: Result<(Box<End>, Box<End>), Unmade>,
    one: &mut Handle,
    other: &mut Handle,
) -> i32
    ensures made { IfOk made (λ r. ((result ≡ pos 0) × (one.new.held ≡ Some r.0.value) × (other.new.held ≡ Some r.1.value)) ⊎ (result ≡ pos 5)) }
    ensures was_empty { (result ≡ pos 0) → (one.old.held ≡ None) × (other.old.held ≡ None) }
    ensures in_use { (result ≡ pos 5) → (one.old.held ≢ None) ⊎ (other.old.held ≢ None) }
    ensures kept { (result ≡ pos 5) → (one.new.held ≡ one.old.held) × (other.new.held ≡ other.old.held) }
    ensures unmade { IfErr made (λ e. (result ≢ pos 0) × (result ≢ pos 5) × (one.new ≡ one.old) × (other.new ≡ other.old)) }
    ensures length { IfErr made (λ e. result ≡ pos 1 → e ≡ Unmade.Length) }
    ensures buffers { IfErr made (λ e. result ≡ pos 3 → e ≡ Unmade.Buffers) }
    ensures settings { IfErr made (λ e. result ≡ pos 4 → e ≡ Unmade.Settings) }
{
    match made {
        Ok((first, second)) => {
            if !one.is_empty() || !other.is_empty() {
                drop(first);
                drop(second);
                return IN_USE;
            }
            one.put(first);
            other.put(second);
            0
        }
        Err(refusal) => refusal.number(),
    }
}
