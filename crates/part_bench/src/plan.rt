//! The command line.

use limits::MOST_SCRIPT_FRAMES;
use std::time::Duration;

/// The kind of text that is read and written.
#[derive(Clone, Copy)]
pub enum Subject {
    Script,
    Capture,
}

impl Subject {
    /// The word for it on the command line.
    pub fn name(self) -> &'static str {
        match self {
            Subject::Script => "script",
            Subject::Capture => "capture",
        }
    }

    /// What its memory is printed per.
    pub fn per_frame(self) -> &'static str {
        match self {
            Subject::Script => "per frame, without the bytes of the frame",
            Subject::Capture => "per record",
        }
    }
}

/// The text to read and write, and the number of rounds.
#[derive(Clone, Copy)]
pub struct TextPlan {
    pub subject: Subject,
    pub frames: u32,
    pub length: usize,
    pub rounds: u32,
}

impl TextPlan {
    /// The bytes of each frame that reading copies. Reading a capture copies none.
    pub fn own(self) -> u64 {
        match self.subject {
            Subject::Script => self.length as u64,
            Subject::Capture => 0,
        }
    }
}

/// The measurement to run.
#[derive(Clone, Copy)]
pub enum Plan {
    Writes { writes: u32, readers: u32 },
    Reads { reads: u32 },
    Pool { threads: u32, buffers: u32 },
    Lists { packets: u32 },
    Texts(TextPlan),
}

/// Parses a word as a number.
fn number_in(word: Option<&String>) -> Option<u32> {
    word?.as_str().parse().ok()
}

/// The number after an option.
fn number_of(words: &[String], name: &str) -> Option<u32> {
    let at = words.iter().position(|word| word.as_str() == name)?;
    number_in(words.get(at + 1))
}

/// The number after an option, if it is at least 1.
fn from_1(words: &[String], name: &str) -> Option<u32> {
    let number = number_of(words, name)?;
    (1 <= number).then_some(number)
}

fn writes_of(words: &[String]) -> Option<Plan> {
    let writes = from_1(words, "--writes")?;
    let readers = number_of(words, "--readers")?;
    (readers <= 3).then_some(Plan::Writes { writes, readers })
}

fn pool_of(words: &[String]) -> Option<Plan> {
    let threads = number_of(words, "--threads")?;
    let buffers = from_1(words, "--buffers")?;
    matches!(threads, 1 | 2 | 4).then_some(Plan::Pool { threads, buffers })
}

fn texts_of(words: &[String]) -> Option<Plan> {
    let subject = match words.first()?.as_str() {
        "script" => Subject::Script,
        "capture" => Subject::Capture,
        _ => return None,
    };
    let frames = number_in(words.get(1))?;
    let length = number_in(words.get(2))? as usize;
    let rounds = number_in(words.get(3))?;
    let lawful = 1 <= frames && frames as usize <= MOST_SCRIPT_FRAMES && 1 <= rounds;
    lawful.then_some(Plan::Texts(TextPlan {
        subject,
        frames,
        length,
        rounds,
    }))
}

/// Parses the words after the program's name.
pub fn plan_of(words: &[String]) -> Option<Plan> {
    if words.len() == 2 {
        if let Some(reads) = from_1(words, "--reads") {
            return Some(Plan::Reads { reads });
        }
        let packets = from_1(words, "--packets")?;
        return Some(Plan::Lists { packets });
    }
    if words.len() != 4 {
        return None;
    }
    writes_of(words)
        .or_else(|| pool_of(words))
        .or_else(|| texts_of(words))
}

/// The nanoseconds of one of `count`.
pub fn each(spent: Duration, count: f64) -> f64 {
    spent.as_secs_f64() * 1e9 / count
}
