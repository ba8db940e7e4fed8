//! Simulated runs through the top call.
use crate::captures::{Ending, NOTHING, Outside, writes, written};
use std::alloc::Global;
use std::test::Fail;

/// The SHA-256 of no octets.
const NO_OCTETS: &str = "e3b0c44298fc1c149afbf4c8996fb92427ae41e4649b934ca495991b7852b855";

/// Whether a run whose packets are all lost is told so.
fn tells_all_lost(alloc: Global, line: &str, count: u32) -> Result<bool, Fail> {
    let text = format!(in alloc;
        "sent {count}\ncarried 0\nlost {count}\nasked 0\nresent 0\nreleased 0\nsha256 {NO_OCTETS}\n"
    )?;
    writes(alloc, line, &[], &NOTHING, Ending::Done, text.as_bytes())
}

#[test]
fn a_simulated_run_is_told_in_seven_lines(rt: HostRuntime) -> Result<(), Fail> {
    // With no payload there is nothing to lose, and on a network that loses all nothing comes.
    for (line, count) in [("drill 1 0 1 0", 0), ("drill 9 10 1 1000", 10)] {
        assert!(rt; tells_all_lost(rt.alloc(), line, count)?);
    }
    Ok(())
}

#[test]
fn a_run_is_told_alike_again_and_in_part_where_the_room_ends(rt: HostRuntime) -> Result<(), Fail> {
    let line = "drill 1 1000 2 100";
    let first = written(rt.alloc(), line, b"", &NOTHING, Ending::Done)?;
    let again = written(rt.alloc(), line, b"", &NOTHING, Ending::Done)?;
    assert!(rt; first.as_slice() == again.as_slice());
    let narrow = Outside {
        room: 20,
        ..NOTHING
    };
    let part = written(rt.alloc(), line, b"", &narrow, Ending::WriteFault)?;
    assert!(rt; part.len() == 20 && first.as_slice().starts_with(part.as_slice()));
    Ok(())
}
