//! What no clause says: that memory is enough, and the calls of the system.

ghost use Rattle.std.specs.Prelude.{◌≡◌, Some};

use crate::{
    Bottom, Die, DirFolder, Failed, Folder, MemFolder, MemSink, ReadFault, SegId, Side, Sink,
    StdoutSink, Top,
};
use std::process::Abort;
use std::test::Fail;

/// Writes a file of two pieces, and reads from its third byte.
fn write_and_read<F: Folder>(rt: &impl Abort, folder: &mut F, name: &str) -> Result<(), Failed> {
    folder.create(name)?;
    folder.append(name, b"abc")?;
    folder.append(name, b"d")?;
    let mut buf = [0u8; 8];
    for (at, want) in [
        (0, b"abcd".as_slice()),
        (2, b"cd".as_slice()),
        (4, b"".as_slice()),
        (9, b"".as_slice()),
    ] {
        let count = folder.read_at(name, at, &mut buf);
        assert_eq!(rt; count, Ok(want.len()), "at {at}");
        if want.len() <= buf.len() {
            assert_eq!(rt; &buf[..want.len()], want, "at {at}");
        }
    }
    assert_eq!(rt;
        folder.read_at("none", 0, &mut buf),
        Err(ReadFault::Missing)
    );
    Ok(())
}

fn put_all<S: Sink>(sink: &mut S, pieces: &[&[u8]]) -> Result<(), Failed> {
    for piece in pieces {
        sink.put(piece)?;
    }
    Ok(())
}

#[test]
fn memory_is_a_folder(rt: HostRuntime) -> Result<(), Fail> {
    let mut folder = MemFolder::new(rt.alloc(), &[9, 11], 2, 4)?;
    write_and_read(&rt, &mut folder, "a")?;
    assert_eq!(rt; folder.calls(), 8);
    assert_eq!(rt; folder.file("a"), Some(b"abcd".as_slice()));

    for (name, bytes, want) in [
        ("b", b"12345".as_slice(), false),
        ("b", b"1234".as_slice(), true),
        ("b", b"12".as_slice(), true),
        ("c", b"".as_slice(), false),
    ] {
        assert_eq!(rt; folder.put_file(name, bytes), want, "{name}");
    }
    let long_name = [b'n'; 256];
    assert!(rt; !folder.put_file(std::str::from_utf8(&long_name)?, b""));
    assert_eq!(rt; folder.file("b"), Some(b"12".as_slice()));
    assert_eq!(rt; folder.file("c"), None);

    let name = "b";
    let made = [folder.create("c"), folder.create("b"), folder.create("b")];
    assert_eq!(rt; made, [Err(Failed), Err(Failed), Ok(())]);
    assert_eq!(rt; folder.create(name), Err(Failed));
    folder.create(name)?;
    folder.append(name, b"1234")?;
    assert_eq!(rt; folder.append(name, b"5"), Err(Failed));
    assert_eq!(rt; folder.file("b"), Some(b"1234".as_slice()));
    assert_eq!(rt; folder.calls(), 15);
    Ok(())
}

#[test]
fn memory_is_a_sink(rt: HostRuntime) -> Result<(), Fail> {
    let mut sink = MemSink::new(rt.alloc(), &[1], 5)?;
    for (piece, want, written) in [
        (b"ab".as_slice(), Ok(()), b"ab".as_slice()),
        (b"c".as_slice(), Err(Failed), b"ab".as_slice()),
        (b"cde".as_slice(), Ok(()), b"abcde".as_slice()),
        (b"f".as_slice(), Err(Failed), b"abcde".as_slice()),
    ] {
        assert_eq!(rt; sink.put(piece), want);
        assert_eq!(rt; sink.written(), written);
    }
    assert_eq!(rt; sink.calls(), 4);
    assert_eq!(rt; put_all(&mut sink, &[b"".as_slice()]), Ok(()));
    Ok(())
}

#[test]
fn real_files_are_a_folder(rt: HostRuntime) -> Result<(), Fail> {
    let mut folder = DirFolder::new(&rt, rt.alloc())?;
    write_and_read(&rt, &mut folder, "a.txt")?;
    write_and_read(&rt, &mut folder, "a.txt")?;
    assert_eq!(rt; folder.create("none/a.txt"), Err(Failed));
    let long_name = [b'n'; 4097];
    assert_eq!(rt;
        folder.create(std::str::from_utf8(&long_name)?),
        Err(Failed)
    );
    let mut buf = [0u8; 8];
    assert_eq!(rt; folder.read_at(".", 0, &mut buf), Err(ReadFault::Failed));
    Ok(())
}

#[test]
fn standard_output_is_a_sink(rt: HostRuntime) -> Result<(), Fail> {
    let mut sink = StdoutSink::new(&rt);
    put_all(
        &mut sink,
        &[b"a line ".as_slice(), b"in two pieces\n".as_slice()],
    )?;
    Ok(())
}

#[test]
fn segments_of_a_die_are_numbers(rt: HostRuntime) -> Result<(), Fail> {
    let third: SegId<Bottom> = SegId::new(2);
    assert_eq!(rt; third.clone()?.index(), third.index());
    assert!(rt; Top::DIE == Die::Top && Bottom::DIE == Die::Bottom);
    Ok(())
}
