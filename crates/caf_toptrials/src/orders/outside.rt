use super::{SUM, SUM_REPORT, host_with};
use caf_outside::{MemHost, MemSink};
use caf_top::{Order, caf_main, caf_serial};
use std::test::Fail;

const ORDER: Order<'static> = Order::Step {
    file: "p",
    images: 1,
    seed: 18_446_744_073_709_551_615,
    events: 1_000_000,
    trace: None,
};

#[test]
fn a_sink_that_fails_keeps_what_it_took(rt: HostRuntime) -> Result<(), Fail> {
    let alloc = rt.alloc();
    for at in 0..SUM_REPORT.len() {
        // It takes a byte a call.
        let mut host = host_with(alloc, &[], SUM.as_bytes())?;
        let mut out = MemSink::new(alloc, &[at as u64], 1, 4096)?;
        let ended = caf_serial(alloc, &ORDER, &mut host, &mut out);
        assert_eq!(rt; ended.status, 8);
        assert_eq!(rt; out.bytes(), &SUM_REPORT.as_bytes()[..at]);
        assert_eq!(rt; ended.journal().len(), 4);
    }
    Ok(())
}

#[test]
fn a_file_that_gives_no_text_is_told(rt: HostRuntime) -> Result<(), Fail> {
    let alloc = rt.alloc();
    // One host fails its first call, and another lacks the name.
    for failing in [[0], [9]] {
        let mut host = MemHost::new(alloc, &failing, 0, 0)?;
        let mut out = MemSink::new(alloc, &[], 1000, 4096)?;
        let ended = caf_serial(alloc, &ORDER, &mut host, &mut out);
        assert_eq!(rt; ended.status, 7);
        assert_eq!(rt; out.bytes(), b"cannot read p\n".as_slice());
        assert_eq!(rt; ended.journal().len(), 0);
    }
    Ok(())
}

#[test]
fn a_listing_and_the_usage_may_fail_too(rt: HostRuntime) -> Result<(), Fail> {
    let alloc = rt.alloc();
    let mut host = host_with(alloc, &[], SUM.as_bytes())?;
    let mut out = MemSink::new(alloc, &[1], 4, 4096)?;
    let ended = caf_main(&rt, alloc, &["list", "p"], &mut host, &mut out);
    assert_eq!(rt; ended.status, 8);
    assert_eq!(rt; out.bytes(), b"caf ".as_slice());
    assert_eq!(rt; ended.journal().len(), 0);

    let mut out = MemSink::new(alloc, &[1], 6, 4096)?;
    let ended = caf_main(&rt, alloc, &["gen", "x"], &mut host, &mut out);
    assert_eq!(rt; ended.status, 8);
    assert_eq!(rt; out.bytes(), b"usage:".as_slice());
    Ok(())
}
