//! The actions of a thread on its end of a ring. A step whose condition does not hold is left out.
ghost use Rattle.std.specs.Prelude.{◌≡◌, ◌≤◌, true, length};
ghost use Rattle.rx_ring.specs.Ends.{reclaimed};

use crate::{frame, frame_len, is_frame, put_back};
use buffer_pool::{Buf, Stash};
use rx_ring::{Control, ControllerEnd, DriverEnd, Poll, RxControllerEnd, RxDriverEnd, RxRing};
use std::sync::Wait;
use std::thread;

/// Asks for enabling if nothing was asked in this epoch, or for disabling if the queue was seen enabled.
fn ask(ring: &RxRing, driver: &mut RxDriverEnd)
    requires { driver.old.table ≡ ring.now }
    ensures own { driver.new.table ≡ ring.now }
    ensures untouched { reclaimed driver.new ≡ reclaimed driver.old }
{
    if driver.is_new() {
        driver.ask_enable(ring);
    } else if driver.is_on() {
        driver.ask_disable(ring);
    }
}

/// Asks for it, and waits for the answer.
pub(crate) fn ask_for<R: Wait>(rt: &R, ring: &RxRing, driver: &mut RxDriverEnd, wanted: Control)
    requires { driver.old.table ≡ ring.now }
    ensures own { driver.new.table ≡ ring.now }
    ensures untouched { reclaimed driver.new ≡ reclaimed driver.old }
{
    ask(ring, driver);
    for _ in rt.forever() {
        if driver.state(ring) == wanted {
            return;
        }
        thread::yield_now();
    }
}

/// Posts a spare buffer, if there is one and the ring has room.
fn post_one(ring: &RxRing, driver: &mut RxDriverEnd, spare: &mut Stash) -> bool
    requires { driver.old.table ≡ ring.now }
    ensures own { driver.new.table ≡ ring.now }
    ensures untouched { reclaimed driver.new ≡ reclaimed driver.old }
{
    if driver.room() == 0 || !driver.is_open() {
        return false;
    }
    match spare.take() {
        Some(buf) => driver.post(ring, buf),
        None => return false,
    }
    true
}

/// Posts the spare buffers that the ring has room for, and publishes them.
pub(crate) fn fill_ring(ring: &RxRing, driver: &mut RxDriverEnd, spare: &mut Stash)
    requires { driver.old.table ≡ ring.now }
    ensures own { driver.new.table ≡ ring.now }
    ensures untouched { reclaimed driver.new ≡ reclaimed driver.old }
{
    for _ in 0..driver.room() {
        if !post_one(ring, driver, spare) {
            break;
        }
    }
    if driver.is_open() {
        driver.publish(ring);
    }
}

/// Takes frame `k` and posts its buffer again. Returns whether it was as expected, or `None` if none was there.
fn receive_one(ring: &RxRing, driver: &mut RxDriverEnd, k: u32) -> Option<bool>
    requires { driver.old.table ≡ ring.now }
    ensures own { driver.new.table ≡ ring.now }
    ensures untouched { reclaimed driver.new ≡ reclaimed driver.old }
{
    let Poll::Segment { mut buf, eop } = driver.poll(ring) else {
        return None;
    };
    let is_good = eop && is_frame(k, buf.bytes());
    buf.clear();
    if driver.is_open() {
        driver.post(ring, buf);
        driver.publish(ring);
    }
    Some(is_good)
}

/// Takes frames until `most` were taken. Returns how many were as expected.
pub(crate) fn receive<R: Wait>(rt: &R, ring: &RxRing, driver: &mut RxDriverEnd, most: u32) -> u32
    requires { driver.old.table ≡ ring.now }
    ensures own { driver.new.table ≡ ring.now }
    ensures untouched { reclaimed driver.new ≡ reclaimed driver.old }
{
    let mut good = 0u32;
    let mut k = 0u32;
    for _ in rt.forever() {
        if k >= most {
            break;
        }
        if let Some(is_good) = receive_one(ring, driver, k) {
            good = good.saturating_add(u32::from(is_good));
            k = k.saturating_add(1);
        } else {
            thread::yield_now();
        }
    }
    good
}

/// Takes back one buffer of a disabled queue, if any is left.
fn reclaim(ring: &RxRing, driver: &mut RxDriverEnd, spare: &mut Stash) -> bool
    requires { driver.old.table ≡ ring.now }
    ensures { driver.new.table ≡ ring.now }
{
    if !driver.is_stopped() {
        return false;
    }
    match driver.reclaim(ring) {
        Some(buf) => put_back(spare, buf),
        None => return false,
    }
    true
}

/// Takes back all buffers that are left. Returns their number.
pub(crate) fn reclaim_all(ring: &RxRing, driver: &mut RxDriverEnd, spare: &mut Stash) -> u32
    requires { driver.old.table ≡ ring.now }
    ensures { driver.new.table ≡ ring.now }
{
    let mut count = 0u32;
    for _ in 0..driver.size() {
        if !reclaim(ring, driver, spare) {
            break;
        }
        count = count.saturating_add(1);
    }
    count
}

/// The number of segments left to take, if the disabling was seen answered.
pub(crate) fn left(ring: &RxRing, driver: &mut RxDriverEnd) -> Option<u32>
    requires own { driver.old.table ≡ ring.now }
    requires fresh { reclaimed driver.old ≡ 0 }
    ensures { driver.new.table ≡ ring.now }
{
    if !driver.is_stopped() {
        return None;
    }
    Some(driver.left(ring))
}

/// Renews the queue, if all its buffers are back.
pub(crate) fn renew(ring: &RxRing, driver: &mut RxDriverEnd) -> bool
    requires { driver.old.table ≡ ring.now }
    ensures own { driver.new.table ≡ ring.now }
    ensures fresh { result ≡ true → reclaimed driver.new ≡ 0 }
{
    let size = driver.size();
    if size == 0 || !driver.is_stopped() || driver.room() != size - 1 {
        return false;
    }
    driver.renew(ring);
    true
}

/// Fetches the next buffer, if a descriptor is free and none is held.
pub(crate) fn fetch(ring: &RxRing, controller: &mut RxControllerEnd) -> Option<Buf>
    requires { controller.old.table ≡ ring.now }
    ensures { controller.new.table ≡ ring.now }
{
    if !controller.is_serving()
        || controller.is_holding()
        || controller.has_finished()
        || controller.look(ring) == 0
    {
        return None;
    }
    Some(controller.fetch(ring))
}

// Stores one frame in one segment, and the head, if a descriptor is free.
fn store_frame(ring: &RxRing, controller: &mut RxControllerEnd, frame: &[u8]) -> bool
    requires own { controller.old.table ≡ ring.now }
    requires frame { (14 ≤ length frame.now) × (length frame.now ≤ 2048) }
    ensures { controller.new.table ≡ ring.now }
{
    let _size = controller.size();
    if !controller.is_serving()
        || controller.is_holding()
        || controller.has_finished()
        || !controller.is_between_frames()
        || controller.look(ring) == 0
    {
        return false;
    }
    let mut buf = controller.fetch(ring);
    buf.fill(frame);
    controller.write_back(ring, buf, true);
    controller.set_head(ring);
    true
}

/// Answers a request. Returns whether that disabled the queue.
fn answers_disabling(ring: &RxRing, controller: &mut RxControllerEnd) -> bool
    requires { controller.old.table ≡ ring.now }
    ensures { controller.new.table ≡ ring.now }
{
    let was_on = controller.is_serving();
    controller.asked(ring);
    if controller.can_answer() {
        controller.answer(ring);
    }
    was_on && !controller.is_serving()
}

/// Stores frame `k` as soon as a descriptor is free, and answers requests. Returns `false` if the queue was disabled.
fn store_when_free<R: Wait>(rt: &R, ring: &RxRing, controller: &mut RxControllerEnd, k: u32) -> bool
    requires { controller.old.table ≡ ring.now }
    ensures { controller.new.table ≡ ring.now }
{
    let bytes = frame(k);
    for _ in rt.forever() {
        if store_frame(ring, controller, &bytes[..frame_len(k)]) {
            return true;
        }
        if answers_disabling(ring, controller) {
            return false;
        }
        thread::yield_now();
    }
    unreachable!()
}

/// Serves the queue until it is disabled or `most` frames are stored. Returns the number of frames stored.
pub(crate) fn serve<R: Wait>(rt: &R, ring: &RxRing, end: &mut RxControllerEnd, most: u32) -> u32
    requires { end.old.table ≡ ring.now }
    ensures { end.new.table ≡ ring.now }
{
    for k in 0..most {
        if !store_when_free(rt, ring, end, k) {
            return k;
        }
    }
    most
}
