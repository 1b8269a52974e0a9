//! The objects of flows and of ports, of flows that drop frames at both rings.

use crate::tests::wanted::{holds, same};
use forward_io::text_of;
use forwarder::{Config, Report, forward};
use forwarding::{Event, Gate, PortQueue, Who, peer};
use requests::Printing;
use std::alloc::{AllocError, Global};
use std::sync::atomic::{AtomicU64, Ordering};
use std::thread;
use wire_script::parse;

/// How often a gate looks in vain before it lets its worker pass.
const LIMIT: u32 = 1_000_000;

/// Each frame needs 5 descriptors, so each ring of 8 has room for one. The first frame is stored. The second one is dropped,
/// because the driver takes nothing before the third. Then the driver posts the first, which is not sent before the driver
/// has taken the third one and has dropped it.
#[derive(Drop)]
struct Crowded {
    offers: [AtomicU64; 8],
    batches: [AtomicU64; 8],
}

fn zeros() -> [AtomicU64; 8] {
    [
        AtomicU64::new(0),
        AtomicU64::new(0),
        AtomicU64::new(0),
        AtomicU64::new(0),
        AtomicU64::new(0),
        AtomicU64::new(0),
        AtomicU64::new(0),
        AtomicU64::new(0),
    ]
}

fn wait_until(number: &AtomicU64, least: u64) {
    for _ in 0..LIMIT {
        if number.load(Ordering::SeqCst) >= least {
            return;
        }
        thread::yield_now();
    }
}

/// Waits until this driver has made a turn that began later.
fn wait_for_turn(batches: &AtomicU64) {
    wait_until(batches, batches.load(Ordering::SeqCst).saturating_add(3))
}

impl Crowded {
    fn count(&self, who: Who, event: Event) -> Option<()> {
        match (who, event) {
            (Who::Driver(flow), Event::RxBatch) => wait_until(self.offers.get(flow)?, 3),
            (Who::Driver(flow), Event::TxBatch) => {
                self.batches.get(flow)?.fetch_add(1, Ordering::SeqCst);
            }
            (Who::Controller(flow), Event::Offer) => {
                if self.offers.get(flow)?.fetch_add(1, Ordering::SeqCst) == 2 {
                    wait_for_turn(self.batches.get(flow)?);
                }
            }
            (Who::Controller(flow), Event::TxTurn) => {
                if self.offers.get(flow)?.load(Ordering::SeqCst) == 3 {
                    wait_for_turn(self.batches.get(flow)?);
                }
            }
            _ => {}
        }
        Some(())
    }
}

impl Gate for Crowded {
    ghost use Rattle.std.specs.Prelude.{◌≡◌, true};

    ghost answers = { λ _ _ _ b. b ≡ true };

    fn pass(&self, who: Who, event: Event) -> bool {
        self.count(who, event);
        true
    }
}

/// Ten frames for each queue of both ports, with lengths that differ.
fn script_text(alloc: Global) -> Result<String, AllocError> {
    let mut text = String::new(alloc);
    for k in 0..10u32 {
        for queue in 0..4u32 {
            writeln!(text, "0 {queue} fill {} 05", 4_200 + 100 * queue + k)?;
            writeln!(text, "1 {queue} fill {} 05", 4_600 + 100 * queue + k)?;
        }
    }
    Ok(text)
}

/// The number of this key in an object.
fn number_of(object: &str, key: &str) -> Option<u64> {
    let (_, behind) = object.split_once(key)?;
    let (_, behind) = behind.split_once(':')?;
    let end = behind.find([',', '}'])?;
    behind.get(..end)?.parse().ok()
}

const KEYS: &[&str] = &[
    "\"rx_packets\"",
    "\"rx_bytes\"",
    "\"rx_dropped\"",
    "\"tx_packets\"",
    "\"tx_bytes\"",
    "\"tx_dropped\"",
];

/// The counts of a flow's report, in the order of the keys.
fn counts_at(report: &Report, port: u8, queue: u8) -> Option<[u64; 6]> {
    let flow = report.flow(port, queue)?;
    let mut sent = 0u64;
    for frame in flow.wire.iter() {
        sent = sent.saturating_add(frame.len() as u64);
    }
    Some([
        flow.tally.stored,
        flow.stored_bytes,
        flow.tally.dropped,
        flow.wire.len() as u64,
        sent,
        flow.driven.tx_dropped,
    ])
}

/// The counts of an object, in the order of the keys.
fn counts_in(object: &str) -> Option<[u64; 6]> {
    let mut counts = [0u64; 6];
    for (at, key) in KEYS.iter().enumerate() {
        *counts.get_mut(at)? = number_of(object, key)?;
    }
    Some(counts)
}

/// Whether an object has both ends of a flow.
fn has_ends(object: &str, input: PortQueue) -> bool {
    let output = peer(PortQueue {
        port: input.port & 1,
        queue: input.queue,
    });
    let ends = [
        ("\"rx_port\"", input.port),
        ("\"rx_queue\"", input.queue),
        ("\"tx_port\"", output.port),
        ("\"tx_queue\"", output.queue),
    ];
    for (key, value) in ends {
        if number_of(object, key) != Some(u64::from(value)) {
            return false;
        }
    }
    true
}

/// The counts of an object for each flow, and for each port the sums of the flows that came in there (the first three
/// counts) and of those that left there (the last three).
fn tells(page: &str, report: &Report) -> Option<()> {
    let mut objects = page.lines();
    let mut sums = [[0u64; 6]; 2];
    for port in 0..2u8 {
        for queue in 0..4u8 {
            let object = objects.next()?;
            let counts = counts_at(report, port, queue)?;
            if counts_in(object)? != counts || !has_ends(object, PortQueue { port, queue }) {
                return None;
            }
            for at in 0..6usize {
                let side = if at < 3 { port } else { 1 - port };
                let sum = sums.get_mut(usize::from(side))?.get_mut(at)?;
                *sum = sum.saturating_add(*counts.get(at)?);
            }
        }
    }
    for port in 0..2u8 {
        let object = objects.next()?;
        let named = number_of(object, "\"port\"") == Some(u64::from(port));
        let sum = sums.get(usize::from(port))?;
        if counts_in(object)? != *sum || !named || object.contains("queue") {
            return None;
        }
    }
    match objects.next() {
        Some(_) => None,
        None => Some(()),
    }
}

/// Whether each flow dropped frames at both of its rings.
fn drops(report: &Report) -> bool {
    report.flows.iter().all(|flow| flow.tally.dropped > 0 && flow.driven.tx_dropped > 0)
}

#[test]
fn each_port_has_the_sums_of_its_flows(rt: HostRuntime) {
    let script = script_text(rt.alloc()).expect(&rt, "memory");
    let script = parse(rt.alloc(), script.as_bytes()).expect(&rt, "a script");
    let config = Config {
        pairs: 4,
        ring: 8,
        bsize: 1_024,
        drop_en: true,
        retry: false,
        workers: 8,
        ..Config::DEFAULT
    };
    let gate = Crowded {
        offers: zeros(),
        batches: zeros(),
    };
    let report = forward(&rt, rt.alloc(), &script, &config, &gate).expect(&rt, "a report");
    holds(&rt, drops(&report));
    let printing = Printing {
        quiet: true,
        json: true,
        progress: false,
        rate: false,
    };
    let page = text_of(rt.alloc(), report.flows.as_slice(), 4, printing).expect(&rt, "memory");
    same(
        &rt,
        (page.as_str(), tells(page.as_str(), &report)),
        (page.as_str(), Some(())),
    );
}
