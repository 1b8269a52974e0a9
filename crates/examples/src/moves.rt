//! Moves on the pure machine, one by one.

use anyhow::Result;
use ring_machine::{Move, Queues};
use std::alloc::Global;

/// Returns the output of each of these lines, on one pair of rings of 8 that begin enabled.
pub fn told(alloc: Global, lines: &[&str]) -> Result<String> {
    let mut queues = Queues::new(alloc, 1, 8, true)?;
    let mut page = String::new(alloc);
    for line in lines {
        match Move::parse(line.as_bytes()) {
            Ok(action) => tell(&mut page, &mut queues, &action)?,
            Err(refused) => writeln!(page, "{refused}")?, // the line is no move's text
        }
    }
    Ok(page)
}

/// Makes a move, and writes its note or its refusal.
fn tell(page: &mut String, queues: &mut Queues, action: &Move) -> Result<()> {
    let told = queues.step(*action);
    let name = action.name();
    match told {
        Ok(note) => writeln!(page, "{name} {note}")?, // as "r0 A1 place 0"
        Err(refused) => writeln!(page, "{name} {refused}")?, // there is no such step now, or no such queue
    }
    Ok(())
}
