use crate::gate::{MEETINGS, MeetingGate};
use std::alloc::Global;
use std::test::Fail;
use xmt_host::MemoryHost;
use xmt_top::xmt;

// The sum of all thread numbers.
const SUM: &str = "int T; main() { spawn(0, 999) { int e = $; psm(e, T); } printf(\"%d\\n\", T); }";

// A host in memory with this source.
fn host_of(alloc: Global, source: &str) -> Result<MemoryHost, Fail> {
    let mut host = MemoryHost::new(alloc, Vec::new(alloc));
    host.with_file("p.xmtc", Vec::from_slice(alloc, source.as_bytes())?)?;
    Ok(host)
}

// The words of a line, parted by single spaces.
fn words_of(alloc: Global, line: &str) -> Result<Vec<String>, Fail> {
    let mut words = Vec::new(alloc);
    for word in line.split(' ') {
        words.push(String::from_str(alloc, word)?)?;
    }
    Ok(words)
}

// Each of the 1000 numbers is drawn once, and each unit draws once more, past the last one.
#[test]
fn two_units_meet(rt: HostRuntime) -> Result<(), Fail> {
    let gate = MeetingGate::new();
    let mut host = host_of(rt.alloc(), SUM)?;
    let words = words_of(rt.alloc(), "run p.xmtc --units 2")?;
    let status = xmt(&rt, rt.alloc(), words.as_slice(), &mut host, &gate);
    assert_eq!(rt; status.code, 0);
    assert!(rt; host.out.as_slice() == "499500\n".as_bytes());
    assert_eq!(rt; gate.first.met(), MEETINGS);
    assert_eq!(rt; gate.second.met(), MEETINGS);
    assert_eq!(rt;
        gate.first.calls().saturating_add(gate.second.calls()),
        1002
    );
    Ok(())
}
