use std::alloc::Global;
use std::test::Fail;
use std::{env, fs};
use xmt_host::{Host, HostCall, HostFault, MemoryHost, RealHost, TakeFault, take_file};

// What a host in memory answers, call by call, when the second call of each kind fails.
#[test]
fn a_host_in_memory_fails_where_it_is_told(rt: HostRuntime) -> Result<(), Fail> {
    let alloc = rt.alloc();
    let mut failing = Vec::new(alloc);
    for call in [
        HostCall::Read,
        HostCall::Put,
        HostCall::Print,
        HostCall::Complain,
    ] {
        failing.push((call, 1))?;
    }
    let mut host = MemoryHost::new(alloc, failing);
    host.with_file("f", vec![in alloc; 7u8, 8, 9]?)?;
    let mut buf = [0; 2];
    assert_eq!(rt; host.read_at("f", 1, &mut buf), Ok(2));
    assert_eq!(rt; buf, [8, 9]);
    assert_eq!(rt; host.read_at("f", 0, &mut buf), Err(HostFault::Failed));
    assert_eq!(rt; host.read_at("f", 3, &mut buf), Ok(0));
    assert_eq!(rt; host.read_at("g", 0, &mut buf), Err(HostFault::Failed));
    assert_eq!(rt; host.put("g", b"new"), Ok(()));
    assert_eq!(rt; host.put("g", b"newer"), Err(HostFault::Failed));
    assert_eq!(rt; host.print(b"ab"), Ok(2));
    assert_eq!(rt; host.print(b"c"), Err(HostFault::Failed));
    assert_eq!(rt; host.print(b"d"), Ok(1));
    assert_eq!(rt; host.complain(b"e"), Ok(1));
    assert_eq!(rt; host.complain(b"f"), Err(HostFault::Failed));
    assert_eq!(rt; (host.faults, host.taken), (5, 2));
    assert_eq!(rt; host.calls, [4, 2, 3, 2]);
    assert!(rt; host.out.as_slice() == b"abd".as_slice());
    assert!(rt; host.err.as_slice() == b"e".as_slice());
    let kept = host.files.get("g").ok_or("the file is gone")?;
    assert!(rt; kept.as_slice() == b"new".as_slice());
    Ok(())
}

// How a file of 5,000 bytes is taken, with so many bytes as the limit and one call that fails.
fn taken(
    alloc: Global,
    name: &str,
    limit: u64,
    failing: Option<u64>,
) -> Result<Result<usize, TakeFault>, Fail> {
    let mut list = Vec::new(alloc);
    if let Some(call) = failing {
        list.push((HostCall::Read, call))?;
    }
    let mut host = MemoryHost::new(alloc, list);
    host.with_file("f", vec![in alloc; 7u8; 5000]?)?;
    Ok(match take_file(alloc, &mut host, name, limit) {
        Ok(bytes) => Ok(bytes.len()),
        Err(fault) => Err(fault),
    })
}

#[test]
fn files_are_taken_whole(rt: HostRuntime) -> Result<(), Fail> {
    let rows = [
        ("f", 5000, None, Ok(5000)),
        ("f", 4999, None, Err(TakeFault::TooLong)),
        ("f", 0, None, Err(TakeFault::TooLong)),
        ("g", 5000, None, Err(TakeFault::Fault)),
        ("f", 5000, Some(1), Err(TakeFault::Fault)),
        ("f", 5000, Some(9), Ok(5000)),
    ];
    for (name, limit, failing, want) in rows {
        assert_eq!(rt;
            taken(rt.alloc(), name, limit, failing)?,
            want,
            "{name} up to {limit}"
        );
    }
    Ok(())
}

// The host over real files gives back what was put, and counts what is absent.
#[test]
fn real_files_come_back(rt: HostRuntime) -> Result<(), Fail> {
    let folder = env::temp_dir(&rt)?;
    let name = format!(in rt.alloc(); "{}/xmt-real-host-test", folder.display())?;
    let mut host = RealHost::new(&rt);
    let put = host.put(name.as_str(), b"kept");
    let bytes = take_file(rt.alloc(), &mut host, name.as_str(), 100)?;
    let absent = take_file(rt.alloc(), &mut host, "no/such/file", 100);
    fs::remove_file(&rt, name.as_str())?;
    assert_eq!(rt; put, Ok(()));
    assert!(rt; bytes.as_slice() == b"kept".as_slice());
    assert!(rt; absent == Err(TakeFault::Fault));
    assert_eq!(rt; host.complain(b""), Ok(0));
    Ok(())
}
