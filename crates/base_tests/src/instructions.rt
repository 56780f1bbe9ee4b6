use std::test::Fail;
use xmt_base::BinOp;
use xmt_isa::{Instr, Location, Operation, SpawnAsk, Unit, UnitState};

// A control unit that is new, and the master at a spawn of three threads that passes on a register.
#[test]
fn units_are_made(rt: HostRuntime) -> Result<(), Fail> {
    let mut unit = Unit::new(rt.alloc(), 3)?;
    assert_eq!(rt; (unit.number(), unit.steps(), unit.thread()), (3, 0, None));
    assert!(rt; unit.args() == [0; 16].as_slice());
    assert_eq!(rt; unit.counts().threads, 0);
    unit.state = UnitState::Stopped;
    unit.ready();
    assert_eq!(rt; unit.state, UnitState::Draws);
    let mut master = Unit::new(rt.alloc(), 0)?;
    master.waits = true;
    master.regs[8] = 7;
    master.regs[9] = 7;
    let ask = SpawnAsk {
        at: 1,
        low: 2,
        high: 4,
        mask: 256,
    };
    let start = master.start(rt.alloc(), &ask)?;
    assert_eq!(rt;
        (start.at, start.low, start.count, start.depth),
        (1, 2, 3, 0)
    );
    assert_eq!(rt;
        (start.regs[8], start.regs[9], start.frame.len()),
        (7, 0, 512)
    );
    Ok(())
}

#[test]
fn instructions_have_the_numbers_of_the_table(rt: HostRuntime) {
    let rows = [
        ((1, 8, 0, 0, 5), Operation::Set(8, 5)),
        ((11, 8, 9, 10, 0), Operation::Binary(BinOp::BitOr, 8, 9, 10)),
        ((22, 0, 9, 0, 7), Operation::IfNot(9, 7)),
        ((30, 0, 3, 0, 4), Operation::Check(3, 4)),
        (
            (34, 3, 4, 0, 6),
            Operation::Load(3, Location::Indexed(4, 6)),
        ),
        ((42, 8, 0, 0, 1), Operation::Add(8, Location::Register(1))),
        ((44, 3, 4, 0, 256), Operation::Spawn(3, 4, 256)),
    ];
    for ((op, a, b, c, imm), operation) in rows {
        let instr = Instr { op, a, b, c, imm };
        assert_eq!(rt; instr.operation(), Some(operation));
    }
    assert_eq!(rt; Operation::Store(3, Location::Word(2)).instruction().op, 32);
}
