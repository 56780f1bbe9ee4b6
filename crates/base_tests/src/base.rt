use xmt_base::{BinOp, Picker, UnOp, binary, is_format, is_name, unary};

const MOST: u32 = u32::MAX;

const LEAST: u32 = 0x8000_0000;

#[test]
fn operators_give_their_values(rt: HostRuntime) {
    let rows = [
        (BinOp::Add, 0x7fff_ffff, 1, Some(LEAST)),
        (BinOp::Sub, 3, 5, Some(MOST - 1)),
        (BinOp::Mul, 65536, 65536, Some(0)),
        (BinOp::Div, MOST - 6, 2, Some(MOST - 2)),
        (BinOp::Div, LEAST, MOST, Some(LEAST)),
        (BinOp::Div, 1, 0, None),
        (BinOp::Rem, MOST - 6, 2, Some(MOST)),
        (BinOp::Rem, LEAST, MOST, Some(0)),
        (BinOp::Rem, 1, 0, None),
        (BinOp::Shl, 1, 33, Some(2)),
        (BinOp::Shr, LEAST, 31, Some(MOST)),
        (BinOp::Shr, 8, 35, Some(1)),
        (BinOp::BitXor, 12, 10, Some(6)),
        (BinOp::Lt, MOST, 0, Some(1)),
        (BinOp::Ge, LEAST, 0x7fff_ffff, Some(0)),
        (BinOp::Ne, 7, 7, Some(0)),
    ];
    for (op, a, b, want) in rows {
        assert_eq!(rt; binary(op, a, b), want, "{op:?} of {a} and {b}");
    }
    let values = [
        (UnOp::Neg, LEAST, LEAST),
        (UnOp::Not, 0, 1),
        (UnOp::Not, 5, 0),
        (UnOp::Flip, 0, MOST),
        (UnOp::Plus, 9, 9),
    ];
    for (op, a, want) in values {
        assert_eq!(rt; unary(op, a), want, "{op:?} of {a}");
    }
    assert_eq!(rt; Picker::new(7).pick(4), 2);
}

#[test]
fn names_and_texts_are_told_apart(rt: HostRuntime) {
    let names: [(&[u8], bool); 9] = [
        (b"x", true),
        (b"_", true),
        (b"A9_z", true),
        (b"psmx", true),
        (b"psm", false),
        (b"inline", false),
        (b"9a", false),
        (b"a-b", false),
        (b"", false),
    ];
    for (text, want) in names {
        assert_eq!(rt; is_name(text), want);
    }
    let texts: [(&[u8], bool); 8] = [
        (b"", true),
        (b"a\t~\n", true),
        (b"%d %%d", true),
        (b"%d%d%d%d%d%d%d%d%d%d%d%d%d%d%d%d", true),
        (b"%d%d%d%d%d%d%d%d%d%d%d%d%d%d%d%d%d", false),
        (b"%", false),
        (b"%s", false),
        (b"\x7f", false),
    ];
    for (text, want) in texts {
        assert_eq!(rt; is_format(text), want);
    }
}
