//! Calls of the commands over a host in memory.
use spawn_join::OpenGate;
use std::alloc::Global;
use std::test::Fail;
use std::thread::Threads;
use xmt_host::MemoryHost;
use xmt_top::xmt;

/// The compaction of an array by prefix sums.
pub(crate) const COMPACTION: &str =
    "#include <xmtc.h>\n#define N 6\nint A[N] = {5, 0, 7, 0, 0, 9};\nint B[N];\npsBaseReg x = 0;\nint main() {\n  int i;\n  int sum = 0;\n  spawn(0, N - 1) {\n    int e = 1;\n    if (A[$] != 0) { ps(e, x); B[e] = A[$]; }\n  }\n  for (i = 0; i < x; i++) sum += B[i];\n  printf(\"%d %d\\n\", x, sum);\n  return 0;\n}\n";

/// A thread past the end of an array, behind a print.
pub(crate) const PAST_THE_END: &str =
    "int A[6];\nmain() {\n  printf(\"a\\n\");\n  spawn(0, 4) {\n    if ($ == 4) A[$ + 2] = 1;\n  }\n}\n";

// The words of a line, parted by single spaces.
fn words_of(alloc: Global, line: &str) -> Result<Vec<String>, Fail> {
    let mut words = Vec::new(alloc);
    for word in line.split(' ') {
        words.push(String::from_str(alloc, word)?)?;
    }
    Ok(words)
}

/// A host with these files.
pub(crate) fn host_of(alloc: Global, files: &[(&str, &[u8])]) -> Result<MemoryHost, Fail> {
    let mut host = MemoryHost::new(alloc, Vec::new(alloc));
    for (name, bytes) in files {
        host.with_file(name, Vec::from_slice(alloc, bytes)?)?;
    }
    Ok(host)
}

/// The exit code of a call with these words.
pub(crate) fn call<R: Threads + Sync>(
    rt: &R,
    alloc: Global,
    host: &mut MemoryHost,
    line: &str,
) -> Result<u8, Fail> {
    let words = words_of(alloc, line)?;
    Ok(xmt(rt, alloc, words.as_slice(), host, &OpenGate).code)
}

/// The bytes of a file, where it is there.
pub(crate) fn file<'a>(host: &'a MemoryHost, name: &str) -> Option<&'a [u8]> {
    match host.files.get(name) {
        None => None,
        Some(bytes) => Some(bytes.as_slice()),
    }
}

/// The image of a source.
pub(crate) fn image_of<R: Threads + Sync>(
    rt: &R,
    alloc: Global,
    source: &str,
) -> Result<Vec<u8>, Fail> {
    let mut host = host_of(alloc, &[("p.xmtc", source.as_bytes())])?;
    if call(rt, alloc, &mut host, "cc p.xmtc --out p.img")? != 0 {
        return Err("the source is refused")?;
    }
    let bytes = file(&host, "p.img").ok_or("there is no image")?;
    Ok(Vec::from_slice(alloc, bytes)?)
}

/// Whether a host has printed and complained this.
pub(crate) fn has_said(host: &MemoryHost, out: &str, err: &str) -> bool {
    host.out.as_slice() == out.as_bytes() && host.err.as_slice() == err.as_bytes()
}
