//! A sending to a receiving of this process, over the loopback interface.
use crate::fixtures::words;
use outside_host::RealHost;
use rist_top::run;
use std::fs;
use std::sync::Wait;
use std::test::Fail;
use std::thread::{self, Threads, join};
use std::time::Duration;

/// The exit statuses of a receiving on this port, and of a sending to it that begins a little later.
fn sent_to<R: Threads + Wait + Sync>(
    rt: &HostRuntime,
    threads: &R,
    port: u16,
) -> Result<(u8, u8), Fail> {
    let alloc = rt.alloc();
    let recv = format!(in alloc;
        "rist recv received.bin 127.0.0.1:{port} --idle 1500 --delay 200"
    )?;
    let send = format!(in alloc; "rist send sent.bin 127.0.0.1:{port} --gap 20000 --linger 300")?;
    let recv = words(alloc, recv.as_str())?;
    let send = words(alloc, send.as_str())?;
    Ok(join(
        threads,
        || run(threads, alloc, recv.as_slice(), &mut RealHost::new(rt)).exit_code(),
        || {
            thread::sleep(rt, Duration::from_millis(200));
            run(threads, alloc, send.as_slice(), &mut RealHost::new(rt)).exit_code()
        },
    ))
}

/// What came, on a port of this machine that is free, where the receiving was there before the sending.
fn received<R: Threads + Wait + Sync>(rt: &HostRuntime, threads: &R) -> Result<Vec<u8>, Fail> {
    for step in 0..8 {
        let exits = sent_to(rt, threads, 42_400 + 2 * step)?;
        if exits.0 == 3 {
            continue;
        }
        if exits != (0, 0) {
            return Err(Fail::new("a run failed"));
        }
        let received = fs::read(rt, "received.bin")?;
        if !received.is_empty() {
            return Ok(received);
        }
    }
    Err(Fail::new("nothing came"))
}

#[test]
fn what_is_received_is_what_was_sent(rt: HostRuntime) -> Result<(), Fail> {
    let mut stream = [0; 2632];
    for place in 0..2632 {
        stream[place] = (place % 251) as u8;
    }
    fs::write(&rt, "sent.bin", &stream)?;
    let received = received(&rt, &rt)?;
    assert!(rt; received.as_slice() == stream.as_slice());
    fs::remove_file(&rt, "sent.bin")?;
    fs::remove_file(&rt, "received.bin")?;
    Ok(())
}
