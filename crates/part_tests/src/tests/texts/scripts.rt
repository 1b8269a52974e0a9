//! Scripts that are made of frames, and memory that is refused.

use crate::tests::wanted::same;
use wire_script::{Script, WireFrame, parse, print};

#[test]
fn a_script_is_made_of_frames(rt: HostRuntime) {
    let mut frames = Vec::new(rt.alloc());
    let bytes = Vec::from_elem(rt.alloc(), 7u8, 14).expect(&rt, "memory");
    let frame = WireFrame::new(1, 6, bytes);
    frames.push(frame).expect(&rt, "memory");
    let script = Script::new(frames);
    let text = print(rt.alloc(), script.frames()).expect(&rt, "memory");
    same(&rt, text.as_str(), "1 6 0707070707070707070707070707\n");
}

// Also passes if any one allocation is refused, as by `rt try --test --fail-alloc 1..`.
#[test]
fn want_of_memory_is_77_and_changes_no_answer(rt: HostRuntime) {
    let read = parse(
        rt.alloc(),
        b"0 0 fill 14 01\n1 7 000102030405060708090a0b0c0d\n",
    );
    let Ok(script) = read else {
        let refused = read.err().map(|e| (e.number(), e.line()));
        same(&rt, refused, Some((77, None)));
        return;
    };
    match print(rt.alloc(), script.frames()) {
        Ok(text) => same(
            &rt,
            text.as_str(),
            "0 0 0101010101010101010101010101\n1 7 000102030405060708090a0b0c0d\n",
        ),
        Err(refused) => same(&rt, (refused.number(), refused.line()), (77, None)),
    }
}
