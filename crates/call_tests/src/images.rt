//! Files that hold an image, or none.
use crate::calls::{call, file, has_said, host_of};
use std::alloc::Global;
use std::test::Fail;
use std::thread::Threads;

// An instruction: operation, three registers and a number.
type Row = (u8, u8, u8, u8, u32);

fn push_number(bytes: &mut Vec<u8>, number: u32) -> Result<(), Fail> {
    bytes.extend_from_slice(&number.to_le_bytes())?;
    Ok(())
}

// The header of an image of one function and no data words.
fn push_header(bytes: &mut Vec<u8>, count: u32) -> Result<(), Fail> {
    bytes.extend_from_slice(b"XMTI")?;
    for number in [1, count, 1, 0, 0, 0, 0, 0, 0, 0, 0, 0, 0, 0, 0, 0] {
        push_number(bytes, number)?;
    }
    Ok(())
}

// The bytes of such an image, whose instruction k stands in line k + 1.
fn image(alloc: Global, rows: &[Row]) -> Result<Vec<u8>, Fail> {
    let mut bytes = Vec::new(alloc);
    let mut count = 0u32;
    for _ in rows {
        count = count.saturating_add(1);
    }
    push_header(&mut bytes, count)?;
    for row in rows {
        bytes.extend_from_slice(&[row.0, row.1, row.2, row.3])?;
        push_number(&mut bytes, row.4)?;
    }
    let mut line = 0u32;
    for _ in rows {
        line = line.saturating_add(1);
        push_number(&mut bytes, line)?;
    }
    for _ in 0..3 {
        push_number(&mut bytes, 0)?;
    }
    Ok(bytes)
}

// Whether `sim` of these bytes ends with this code and line, and prints nothing.
fn ends<R: Threads + Sync>(
    rt: &R,
    alloc: Global,
    bytes: &[u8],
    code: u8,
    err: &str,
) -> Result<bool, Fail> {
    let mut host = host_of(alloc, &[("p.img", bytes)])?;
    let found = call(rt, alloc, &mut host, "sim p.img --budget 1000 --dump d")?;
    let dumped = file(&host, "d").is_some();
    Ok(found == code && has_said(&host, "", err) && dumped == (code == 0))
}

static RETURN: [Row; 1] = [(24, 0, 0, 0, 0)];

#[test]
fn prefixes_are_short(rt: HostRuntime) -> Result<(), Fail> {
    let bytes = image(rt.alloc(), &RETURN)?;
    assert_eq!(rt; bytes.len(), 92);
    assert!(rt; ends(&rt, rt.alloc(), bytes.as_slice(), 0, "")?);
    for (length, _) in bytes.iter().enumerate() {
        let prefix = bytes.get(..length).ok_or("no prefix")?;
        assert!(rt;
            ends(&rt, rt.alloc(), prefix, 3, "xmt: p.img: Short\n")?,
            "{length} bytes"
        );
    }
    Ok(())
}

// The limit, and one byte more.
#[test]
fn long_files_are_refused(rt: HostRuntime) -> Result<(), Fail> {
    let mut bytes = vec![in rt.alloc(); b' '; 67_108_864]?;
    assert!(rt;
        ends(
            &rt,
            rt.alloc(),
            bytes.as_slice(),
            3,
            "xmt: p.img: BadMark\n"
        )?
    );
    bytes.push(b' ')?;
    assert!(rt;
        ends(
            &rt,
            rt.alloc(),
            bytes.as_slice(),
            3,
            "xmt: p.img: TooLong\n"
        )?
    );
    let mut host = host_of(
        rt.alloc(),
        &[("p.xmtc", b"main(){}"), ("m", bytes.as_slice())],
    )?;
    assert_eq!(rt; call(&rt, rt.alloc(), &mut host, "run p.xmtc --map m")?, 3);
    assert!(rt; has_said(&host, "", "xmt: m: TooLong\n"));
    Ok(())
}
