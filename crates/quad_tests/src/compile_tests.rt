//! Whole sources compiled: the sizes of their images.
use std::test::Fail;
use xmt_base::Place;
use xmt_compile::{SourceKind, SourceRefusal, compile};

// Sources, and how many instructions, words and names their images have, or none.
#[test]
fn sources_are_compiled(rt: HostRuntime) -> Result<(), Fail> {
    let rows: [(&str, Option<(usize, usize, usize)>); 7] = [
        ("main(){}", Some((2, 0, 0))),
        ("int x; int A[3]; main() { }", Some((2, 4, 2))),
        ("int x; main() { x = 5; }", Some((6, 1, 1))),
        ("int x; main() { x = x + 2; }", Some((12, 1, 1))),
        ("main() { spawn(0, 3) { } }", Some((6, 0, 0))),
        ("main() { while (1) ; }", Some((7, 0, 0))),
        ("main() { x = 1; }", None),
    ];
    for (source, expected) in rows {
        let found = match compile(rt.alloc(), source.as_bytes()) {
            Ok(image) => Some((image.code.len(), image.words.len(), image.symbols.len())),
            Err(refusal) => {
                let place = Place {
                    line: 1,
                    column: 10,
                };
                let wanted = SourceRefusal::Refused(SourceKind::Unknown, place);
                assert!(rt; refusal == wanted, "the refusal of {source}");
                None
            }
        };
        assert!(rt; found == expected, "the image of {source}");
    }
    Ok(())
}
