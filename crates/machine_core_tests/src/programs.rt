//! Programs in instructions: operation, registers and number. Instruction k stands in line k + 1.

pub type Row = (u8, u8, u8, u8, u32);

#[derive(Clone, Copy)]
pub enum Program {
    Sum,
    Idle,
    Index,
    Increment,
    Deep,
    Three,
    Endless,
    Last,
}

impl Program {
    pub fn code(self) -> &'static [Row] {
        match self {
            Program::Sum => &SUM,
            Program::Idle => &IDLE,
            Program::Index => &INDEX,
            Program::Increment => &INCREMENT,
            Program::Deep => &DEEP,
            Program::Three => &THREE,
            Program::Endless => &ENDLESS,
            Program::Last => &LAST,
        }
    }
}

// Four threads store `$ * $ + 1`, and the serial code stores and prints the sum.
static SUM: [Row; 20] = [
    (1, 3, 0, 0, 0),
    (1, 4, 0, 0, 3),
    (44, 3, 4, 0, 0),
    (5, 5, 1, 1, 0),
    (1, 6, 0, 0, 1),
    (3, 5, 5, 6, 0),
    (35, 5, 1, 0, 0),
    (45, 0, 0, 0, 0),
    (31, 3, 0, 0, 0),
    (31, 4, 0, 0, 1),
    (3, 3, 3, 4, 0),
    (31, 4, 0, 0, 2),
    (3, 3, 3, 4, 0),
    (31, 4, 0, 0, 3),
    (3, 3, 3, 4, 0),
    (32, 0, 3, 0, 4),
    (31, 3, 0, 0, 4),
    (27, 0, 3, 0, 0),
    (43, 0, 0, 0, 0),
    (24, 0, 0, 0, 0),
];

// Each of ten thousand threads ends at once.
static IDLE: [Row; 5] = [
    (1, 3, 0, 0, 0),
    (1, 4, 0, 0, 9999),
    (44, 3, 4, 0, 0),
    (45, 0, 0, 0, 0),
    (24, 0, 0, 0, 0),
];

// Of three threads the last one's number is no index.
static INDEX: [Row; 6] = [
    (1, 3, 0, 0, 0),
    (1, 4, 0, 0, 2),
    (44, 3, 4, 0, 0),
    (30, 0, 1, 0, 2),
    (45, 0, 0, 0, 0),
    (24, 0, 0, 0, 0),
];

// The serial code adds 2 to a register of the prefix sums.
static INCREMENT: [Row; 3] = [(1, 8, 0, 0, 2), (42, 8, 0, 0, 0), (24, 0, 0, 0, 0)];

// The main function calls itself.
static DEEP: [Row; 2] = [(23, 0, 0, 0, 0), (24, 0, 0, 0, 0)];

// It prints three times.
static THREE: [Row; 4] = [
    (43, 0, 0, 0, 0),
    (43, 0, 0, 0, 0),
    (43, 0, 0, 0, 0),
    (24, 0, 0, 0, 0),
];

// It loops.
static ENDLESS: [Row; 1] = [(20, 0, 0, 0, 0)];

// Two threads store their number, which is printed.
static LAST: [Row; 9] = [
    (1, 3, 0, 0, 0),
    (1, 4, 0, 0, 1),
    (44, 3, 4, 0, 0),
    (32, 0, 1, 0, 0),
    (45, 0, 0, 0, 0),
    (31, 3, 0, 0, 0),
    (27, 0, 3, 0, 0),
    (43, 0, 0, 0, 0),
    (24, 0, 0, 0, 0),
];
