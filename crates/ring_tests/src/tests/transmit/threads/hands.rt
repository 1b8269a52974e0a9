//! The actions of a thread on its end of a ring. A step whose condition does not hold is left out.
ghost use Rattle.std.specs.Prelude.{◌≡◌, IfSome, Some};
ghost use Rattle.tx_ring.specs.Ends.{held};

use crate::{frame, frame_len, is_frame, put_back};
use buffer_pool::{Buf, Stash};
use descriptor::TxRead;
use std::sync::Wait;
use std::thread;
use tx_ring::{Control, ControllerEnd, DriverEnd, TxControllerEnd, TxDriverEnd, TxRing};

/// The fate of frames `0`, `1` and so on, in order.
#[derive(Clone, Copy, Drop)]
pub(crate) struct Passed {
    /// How many frames there were.
    pub count: u32,
    /// How many of them were as expected.
    pub good: u32,
}

impl Passed {
    pub(crate) const NONE: Passed = Passed { count: 0, good: 0 };

    /// Adds the later frames.
    pub(crate) fn then(self, more: Passed) -> Passed {
        Passed {
            count: self.count.saturating_add(more.count),
            good: self.good.saturating_add(more.good),
        }
    }

    /// Adds one frame with these bytes.
    fn add(&mut self, bytes: &[u8]) {
        if is_frame(self.count, bytes) {
            self.good = self.good.saturating_add(1);
        }
        self.count = self.count.saturating_add(1);
    }
}

/// Asks for the wanted state, enabled or disabled, if that can be asked now.
fn ask(ring: &TxRing, driver: &mut TxDriverEnd, wanted: Control)
    requires { driver.old.table ≡ ring.now }
    ensures { driver.new.table ≡ ring.now }
{
    match wanted {
        Control::Enabled if driver.is_new() => driver.ask_enable(ring),
        Control::Disabled if driver.is_on() => driver.ask_disable(ring),
        _ => {}
    }
}

/// Asks for the wanted state, and waits for it.
pub(crate) fn ask_for<R: Wait>(rt: &R, ring: &TxRing, driver: &mut TxDriverEnd, wanted: Control)
    requires { driver.old.table ≡ ring.now }
    ensures { driver.new.table ≡ ring.now }
{
    ask(ring, driver, wanted);
    for _ in rt.forever() {
        if driver.state(ring) == wanted {
            return;
        }
        thread::yield_now();
    }
}

/// Posts and publishes frame `k`, if there is room and a buffer. Each third frame asks for a report.
fn post(ring: &TxRing, driver: &mut TxDriverEnd, spare: &mut Stash, k: u32) -> bool
    requires { driver.old.table ≡ ring.now }
    ensures { driver.new.table ≡ ring.now }
{
    let _size = driver.size();
    if driver.room() == 0 || !driver.is_open() || !driver.is_whole() {
        return false;
    }
    let Some(mut buf) = spare.take() else {
        return false;
    };
    let len = frame_len(k);
    let bytes = frame(k);
    buf.fill(&bytes[..len]);
    driver.post(ring, buf, true, k % 3 == 2, len as u16);
    if driver.is_whole() {
        driver.publish(ring);
    }
    true
}

/// Looks for one report, and takes back the reported buffers.
fn clean(ring: &TxRing, driver: &mut TxDriverEnd, spare: &mut Stash, cleaned: &mut Passed)
    requires { driver.old.table ≡ ring.now }
    ensures { driver.new.table ≡ ring.now }
{
    driver.poll_report(ring);
    for _ in 0..driver.reported() {
        if !driver.is_live() || driver.reported() == 0 {
            return;
        }
        let buf = driver.clean(ring);
        cleaned.add(buf.bytes());
        put_back(spare, buf);
    }
}

/// Posts frames, and cleans up after the reported ones. Returns the cleaned frames.
pub(crate) fn transmit<R: Wait>(
    rt: &R,
    ring: &TxRing,
    driver: &mut TxDriverEnd,
    spare: &mut Stash,
    most: u32,
) -> Passed
    requires { driver.old.table ≡ ring.now }
    ensures { driver.new.table ≡ ring.now }
{
    let mut cleaned = Passed::NONE;
    let mut k = 0u32;
    for _ in rt.forever() {
        if k >= most {
            break;
        }
        if post(ring, driver, spare, k) {
            k = k.saturating_add(1);
        } else {
            clean(ring, driver, spare, &mut cleaned);
            thread::yield_now();
        }
    }
    cleaned
}

/// Cleans up until the given number of frames is cleaned.
pub(crate) fn drain<R: Wait>(
    rt: &R,
    ring: &TxRing,
    driver: &mut TxDriverEnd,
    spare: &mut Stash,
    cleaned: &mut Passed,
    most: u32,
)
    requires { driver.old.table ≡ ring.now }
    ensures { driver.new.table ≡ ring.now }
{
    for _ in rt.forever() {
        if cleaned.count >= most {
            return;
        }
        clean(ring, driver, spare, cleaned);
        thread::yield_now();
    }
}

/// How many postings were not sent, if the disabling was seen answered.
pub(crate) fn left(ring: &TxRing, driver: &mut TxDriverEnd) -> Option<u32>
    requires { driver.old.table ≡ ring.now }
    ensures { driver.new.table ≡ ring.now }
{
    if !driver.is_stopped() {
        return None;
    }
    Some(driver.left(ring))
}

/// Takes back all buffers of a disabled queue, and renews it.
pub(crate) fn renew(ring: &TxRing, driver: &mut TxDriverEnd, spare: &mut Stash, back: &mut Passed)
    requires { driver.old.table ≡ ring.now }
    ensures { driver.new.table ≡ ring.now }
{
    let size = driver.size();
    for _ in 0..size {
        if !driver.is_stopped() {
            return;
        }
        if let Some(buf) = driver.reclaim(ring) {
            back.add(buf.bytes());
            put_back(spare, buf);
        } else {
            break;
        }
    }
    if size > 0 && driver.is_stopped() && driver.room() == size - 1 {
        driver.renew(ring);
    }
}

/// Fetches the next buffer, if one is ready and nothing is held or owed.
pub(crate) fn fetch(ring: &TxRing, controller: &mut TxControllerEnd) -> Option<(Buf, TxRead)>
    requires { controller.old.table ≡ ring.now }
    ensures own { controller.new.table ≡ ring.now }
    ensures holds { IfSome result (λ fetched. held controller.new ≡ Some fetched.0) }
{
    if !controller.is_serving()
        || controller.is_holding()
        || controller.owes_report()
        || controller.look(ring) == 0
    {
        return None;
    }
    Some(controller.fetch(ring))
}

/// Sends one frame of one segment, if one is ready, and reports it if asked.
fn send(ring: &TxRing, controller: &mut TxControllerEnd, sent: &mut Passed) -> bool
    requires { controller.old.table ≡ ring.now }
    ensures { controller.new.table ≡ ring.now }
{
    let Some((buf, read)) = fetch(ring, controller) else {
        return false;
    };
    if read.eop && usize::from(read.paylen) == buf.len() {
        sent.add(buf.bytes());
    }
    controller.give_back(ring, buf);
    if controller.owes_report() {
        controller.report(ring);
    }
    true
}

/// Serves the queue until it is disabled, whatever is left then, or the given number of frames is sent. Returns the
/// sent frames.
pub(crate) fn serve<R: Wait>(rt: &R, ring: &TxRing, end: &mut TxControllerEnd, most: u32) -> Passed
    requires { end.old.table ≡ ring.now }
    ensures { end.new.table ≡ ring.now }
{
    let mut sent = Passed::NONE;
    let mut was_on = end.is_serving();
    for _ in rt.forever() {
        if sent.count >= most || (was_on && !end.is_serving()) {
            break;
        }
        was_on = end.is_serving();
        end.asked(ring);
        if end.can_answer() {
            end.answer(ring);
        } else if !send(ring, end, &mut sent) {
            thread::yield_now();
        }
    }
    sent
}
