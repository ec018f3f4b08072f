use super::*;
use fp_base::{Failed, MemFolder, NoMemory};
use std::alloc::Global;
use std::test::Fail;

#[test]
fn numbers_of_tokens(rt: HostRuntime) -> Result<(), Fail> {
    let table: [(&[u8], u64, Result<u64, NumberFault>); 7] = [
        (b"007", 100, Ok(7)),
        (b"100", 100, Ok(100)),
        (b"101", 100, Err(NumberFault::TooLarge)),
        (b"12a", 100, Err(NumberFault::NotDigits)),
        (
            b"99999999999999999999999a",
            100,
            Err(NumberFault::NotDigits),
        ),
        (b"", 100, Err(NumberFault::NotDigits)),
        (b"1152921504606846976", 1 << 60, Ok(1 << 60)),
    ];
    for (token, most, answer) in table {
        assert!(rt; number(token, most) == answer);
    }
    Ok(())
}

#[test]
fn signed_numbers_of_tokens(rt: HostRuntime) -> Result<(), Fail> {
    let table: [(&[u8], u64, Result<i64, NumberFault>); 5] = [
        (b"-0", 5, Ok(0)),
        (b"-5", 5, Ok(-5)),
        (b"5", 5, Ok(5)),
        (b"-6", 5, Err(NumberFault::TooLarge)),
        (b"--5", 5, Err(NumberFault::NotDigits)),
    ];
    for (token, most, answer) in table {
        assert!(rt; signed(token, most) == answer);
    }
    Ok(())
}

#[test]
fn tokens_between_blanks(rt: HostRuntime) -> Result<(), Fail> {
    let mut tokens = Tokens::new(b"\r\n Pin\tP1  0 \r\nend\t");
    assert!(rt; tokens.begins(b"Pin") && !tokens.begins(b"Pi"));
    assert_eq!(rt; tokens.next(), Some(Token { start: 3, end: 6 }));
    assert_eq!(rt; tokens.next(), Some(Token { start: 7, end: 9 }));
    assert_eq!(rt; tokens.next(), Some(Token { start: 11, end: 12 }));
    assert_eq!(rt; tokens.next(), Some(Token { start: 15, end: 18 }));
    assert_eq!(rt; tokens.next(), None);
    assert_eq!(rt; tokens.length(), 19);
    Ok(())
}

fn pin(tokens: &mut Tokens<'_>) -> Result<(u64, u64), TextFault> {
    tokens.keyword(b"Pin")?;
    let name = tokens.name()?;
    let x = tokens.number(1, 9, Kind::Limit)?;
    tokens.end()?;
    Ok((name.at, x))
}

#[test]
fn first_fault_of_a_statement(rt: HostRuntime) -> Result<(), Fail> {
    let table: [(&[u8], Result<(u64, u64), TextFault>); 9] = [
        (b"Pin a 5", Ok((4, 5))),
        (
            b"Pi a 5",
            Err(TextFault::Wrong {
                at: 0,
                kind: Kind::Word,
            }),
        ),
        (
            b"Pin \xc8 5",
            Err(TextFault::Wrong {
                at: 4,
                kind: Kind::Name,
            }),
        ),
        (
            b"Pin a",
            Err(TextFault::Wrong {
                at: 5,
                kind: Kind::Ended,
            }),
        ),
        (
            b"Pin a x",
            Err(TextFault::Wrong {
                at: 6,
                kind: Kind::Number,
            }),
        ),
        (
            b"Pin a 1073741825",
            Err(TextFault::Wrong {
                at: 6,
                kind: Kind::Number,
            }),
        ),
        (
            b"Pin a 0",
            Err(TextFault::Wrong {
                at: 6,
                kind: Kind::Range,
            }),
        ),
        (
            b"Pin a 10",
            Err(TextFault::Wrong {
                at: 6,
                kind: Kind::Limit,
            }),
        ),
        (
            b"Pin a 5 6",
            Err(TextFault::Wrong {
                at: 8,
                kind: Kind::Trailing,
            }),
        ),
    ];
    for (text, answer) in table {
        assert!(rt; pin(&mut Tokens::new(text)) == answer);
    }
    Ok(())
}

fn one_item(alloc: Global) -> Result<Vec<u8>, TextFault> {
    let mut items = Vec::new(alloc);
    items.push(1)?;
    Ok(items)
}

#[test]
fn memory_by_question_mark(rt: HostRuntime) -> Result<(), Fail> {
    assert_eq!(rt; one_item(rt.alloc())?.len(), 1);
    Ok(())
}

/// A folder that holds 70,000 bytes under `a`, with room for the file `o`.
fn folder(alloc: Global, fails: &[u64]) -> Result<MemFolder, NoMemory> {
    let mut folder = MemFolder::new(alloc, fails, 2, 70_000)?;
    let mut bytes = Vec::new(alloc);
    for k in 0..70_000u32 {
        bytes.push((k % 251) as u8).map_err(|_| NoMemory)?;
    }
    let _ = folder.put_file("a", &bytes);
    Ok(folder)
}

#[test]
fn whole_files(rt: HostRuntime) -> Result<(), Fail> {
    let mut folder = folder(rt.alloc(), &[])?;
    let bytes = read_whole(rt.alloc(), &mut folder, "a", 70_000)?;
    assert!(rt; folder.file("a") == Some(bytes.as_slice()));
    let long = read_whole(rt.alloc(), &mut folder, "a", 69_999).err();
    assert_eq!(rt; long, Some(WholeFault::Long));
    let missing = read_whole(rt.alloc(), &mut folder, "b", 69_999).err();
    assert_eq!(rt; missing, Some(WholeFault::Missing));
    Ok(())
}

#[test]
fn a_device_that_fails_in_a_file(rt: HostRuntime) -> Result<(), Fail> {
    let mut folder = folder(rt.alloc(), &[1])?;
    let device = read_whole(rt.alloc(), &mut folder, "a", 70_000).err();
    assert_eq!(rt; device, Some(WholeFault::Device));
    Ok(())
}

#[test]
fn pieces_of_a_file(rt: HostRuntime) -> Result<(), Fail> {
    let mut folder = folder(rt.alloc(), &[])?;
    let mut writer = Writer::new(&mut folder, "o");
    writer.put(&mut folder, "o", b"Inst ");
    writer.number(&mut folder, "o", 0);
    writer.put(&mut folder, "o", b" ");
    writer.signed(&mut folder, "o", -17);
    writer.put(&mut folder, "o", &[b'x'; 5000]);
    writer.put(&mut folder, "o", b"\n");
    writer.finish(&mut folder, "o")?;
    let mut text = Vec::from_slice(rt.alloc(), b"Inst 0 -17")?;
    text.extend_from_slice(&[b'x'; 5000])?;
    text.extend_from_slice(b"\n")?;
    assert!(rt; folder.file("o") == Some(text.as_slice()));
    Ok(())
}

/// Writes pieces of 3 and 5,000 bytes, numbers and the end to the file `o`.
fn write_on(folder: &mut MemFolder) -> Result<(), Failed> {
    let mut writer = Writer::new(folder, "o");
    writer.put(folder, "o", b"abc");
    writer.put(folder, "o", &[b'x'; 5000]);
    writer.number(folder, "o", 1);
    writer.signed(folder, "o", -1);
    writer.finish(folder, "o")
}

#[test]
fn no_call_after_a_failed_one(rt: HostRuntime) -> Result<(), Fail> {
    for fails in 0..4u64 {
        let mut folder = folder(rt.alloc(), &[fails])?;
        assert!(rt; write_on(&mut folder).is_err());
        assert!(rt; folder.calls() == fails + 1);
    }
    Ok(())
}
