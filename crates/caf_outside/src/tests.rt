use super::*;
use std::test::Fail;

#[test]
fn a_file_is_saved_and_loaded_within_the_limit(rt: HostRuntime) -> Result<(), Fail> {
    let alloc = rt.alloc();
    let mut host = FileHost::new(alloc, &rt);
    assert_eq!(rt; host.save("text", b"five!"), Ok(()));
    assert_eq!(rt;
        host.load(alloc, "text", 5)?.as_slice(),
        b"five!".as_slice()
    );
    assert_eq!(rt; host.load(alloc, "text", 4).err(), Some(LoadFail::TooLong));
    assert_eq!(rt;
        host.load(alloc, "nothing", 5).err(),
        Some(LoadFail::Failed)
    );
    assert_eq!(rt; host.load(alloc, ".", 5).err(), Some(LoadFail::Failed));
    assert_eq!(rt; host.save(".", b"no"), Err(Failed));
    Ok(())
}

#[test]
fn standard_output_takes_a_piece(rt: HostRuntime) {
    let mut out = StdSink::new(&rt);
    assert_eq!(rt; out.write(b"a line\n"), Ok(7));
    assert_eq!(rt; out.write(b""), Ok(0));
}

#[test]
fn a_host_in_memory_saves_while_there_is_room(rt: HostRuntime) -> Result<(), Fail> {
    let alloc = rt.alloc();
    let mut host = MemHost::new(alloc, &[1], 2, 4)?;
    host.hold(alloc, "a", b"old")?;
    assert_eq!(rt; host.save("a", b"new"), Ok(()), "the first call");
    assert_eq!(rt;
        host.save("b", b"bee"),
        Err(Failed),
        "the call that is to fail"
    );
    assert_eq!(rt;
        host.save("b", b"four"),
        Err(Failed),
        "a byte more than the room"
    );
    assert_eq!(rt; host.save("bb", b"be"), Ok(()), "the second save");
    assert_eq!(rt; host.save("c", b""), Err(Failed), "a third save");
    assert_eq!(rt; host.text("a"), Some(b"new".as_slice()));
    assert_eq!(rt; host.text("b"), None);
    assert_eq!(rt; host.text("bb"), Some(b"be".as_slice()));
    assert_eq!(rt; host.load(alloc, "bb", 2)?.as_slice(), b"be".as_slice());
    Ok(())
}

#[test]
fn a_sink_in_memory_takes_pieces_while_there_is_room(rt: HostRuntime) -> Result<(), Fail> {
    let alloc = rt.alloc();
    let mut out = MemSink::new(alloc, &[1], 2, 3)?;
    assert_eq!(rt; out.write(b"abc"), Ok(2), "as much as a call takes");
    assert_eq!(rt; out.write(b"c"), Err(Failed), "the call that is to fail");
    assert_eq!(rt; out.write(b"cd"), Ok(1), "as much as there is room for");
    assert_eq!(rt; out.write(b""), Ok(0), "nothing fits, and nothing is given");
    assert_eq!(rt; out.write(b"d"), Err(Failed), "no room is left");
    assert_eq!(rt; out.bytes(), b"abc".as_slice());
    Ok(())
}
