//! Why a source is refused.
ghost use Rattle.std.specs.Prelude.{◌≡◌};
ghost use Rattle.front_end.specs.Kinds.{kind_of, kind_of_name, kind_of_block, of_tokens, of_parser, of_names, of_blocks};

use spawn_check::{SpawnKind, SpawnRefusal};
use std::alloc::{AllocError, AllocFailed};
use xmt_base::Place;
use xmt_lex::{LexKind, LexRefusal};
use xmt_parse::ParseRefusal;
use xmt_types::{NameKind, NameRefusal, Which};

/// Which rule a source breaks. The rules are tried in this order: the length; the tokens, of which
/// the first broken one in the text decides; the open brackets; the grammar; then the rules of
/// names and types, and then those of spawn blocks, of which the first in the text decides, and at
/// one place the first of this list; last the words that several threads may reach.
#[derive(Clone, Copy, Debug, PartialEq, Eq)]
pub enum SourceKind {
    /// The source has more than 1,048,576 bytes.
    TooLong,
    /// A byte that begins no token, or a control byte or one above 126 in a text.
    BadByte,
    /// A digit begins a run of letters, digits and `_` that is no number up to 4294967295.
    BadNumber,
    /// A `/*` without its `*/`.
    OpenComment,
    /// A text without its closing quote on its line.
    OpenText,
    /// A `\` in a text before another byte than `n`, `t`, `\` and `"`.
    BadEscape,
    /// A line that begins with `#` and is no `#include <..>` and no `#define NAME NUMBER`, or
    /// that defines a name a second time.
    HashLine,
    /// More than 200 of `(`, `[` and `{` stand open.
    TooDeep,
    /// The tokens are no program of nesting at most 200.
    Syntax,
    /// A name is declared nowhere in reach, or a called name has only a prototype.
    Unknown,
    /// A second declaration of a name in one scope.
    Double,
    /// An array or a function is used as a variable, or a prefix-sum names a register where a
    /// variable is wanted.
    NotScalar,
    /// A name with an index is no array.
    NotArray,
    /// A called name is no function.
    NotFunction,
    /// The second name of `ps` is no register.
    NotRegister,
    /// A call or a format has another number of values, or an initial list has more than there is
    /// room for.
    WrongCount,
    /// A `%` of a format is followed by neither `d` nor `%`.
    BadFormat,
    /// The value of a void call is used, or a void function returns one.
    VoidValue,
    /// A const variable is written.
    ConstWrite,
    /// A constant expression holds more than numbers and operators, or divides by 0.
    NotConstant,
    /// The length of an array is below 1.
    BadLength,
    /// A limit is passed.
    TooMany(Which),
    /// No function `main` without parameters is defined.
    NoMain,
    /// `$` outside every spawn block.
    DollarOutside,
    /// `return` inside a block.
    ReturnInside,
    /// `break` or `continue` with no loop around it inside the same block or, outside blocks, in
    /// the same function.
    JumpOut,
    /// `spawn` inside a block.
    Nested,
    /// `printf` inside a block, or a call there of a function from which a `printf` is reached.
    PrintInside,
    /// A call inside a block of a function from which a `spawn` is reached.
    CallReachesSpawn,
    /// The globals, and 257 times the variables that blocks share in one function, have more than
    /// 1,048,576 words.
    TooMuchMemory,
}

/// A source is refused.
#[derive(Clone, Copy, Debug, PartialEq, Eq)]
pub enum SourceRefusal {
    /// The rule that it breaks, and where.
    Refused(SourceKind, Place),
    NoMemory,
}

impl From<AllocError> for SourceRefusal {
    ghost use Rattle.front_end.specs.declared.refusal.SourceRefusal.TheVariants.{NoMemory};

    ghost from_gives = { λ _ refusal. refusal ≡ NoMemory };

    fn from(_: AllocError) -> Self {
        SourceRefusal::NoMemory
    }
}

impl<T: Drop> From<AllocFailed<T>> for SourceRefusal {
    ghost use Rattle.front_end.specs.declared.refusal.SourceRefusal.TheVariants.{NoMemory};

    ghost from_gives = { λ _ refusal. refusal ≡ NoMemory };

    fn from(_: AllocFailed<T>) -> Self {
        SourceRefusal::NoMemory
    }
}

// The rule of the tokens that is broken.
fn kind_of(kind: LexKind) -> SourceKind
    ensures { result ≡ kind_of kind }
{
    match kind {
        LexKind::BadByte => SourceKind::BadByte,
        LexKind::BadNumber => SourceKind::BadNumber,
        LexKind::OpenComment => SourceKind::OpenComment,
        LexKind::OpenText => SourceKind::OpenText,
        LexKind::BadEscape => SourceKind::BadEscape,
        LexKind::HashLine => SourceKind::HashLine,
    }
}

/// The refusal of a source that the lexer refuses.
pub(crate) fn of_tokens(refusal: LexRefusal) -> SourceRefusal
    ensures { result ≡ of_tokens refusal }
{
    match refusal {
        LexRefusal::Refused(kind, place) => SourceRefusal::Refused(kind_of(kind), place),
        LexRefusal::NoMemory => SourceRefusal::NoMemory,
    }
}

/// The refusal of a source that the parser refuses.
pub(crate) fn of_parser(refusal: ParseRefusal) -> SourceRefusal
    ensures { result ≡ of_parser refusal }
{
    match refusal {
        ParseRefusal::TooDeep(place) => SourceRefusal::Refused(SourceKind::TooDeep, place),
        ParseRefusal::Syntax(place) => SourceRefusal::Refused(SourceKind::Syntax, place),
        ParseRefusal::NoMemory => SourceRefusal::NoMemory,
    }
}

// The rule of names and types that is broken.
fn kind_of_name(kind: NameKind) -> SourceKind
    ensures { result ≡ kind_of_name kind }
{
    match kind {
        NameKind::Unknown => SourceKind::Unknown,
        NameKind::Double => SourceKind::Double,
        NameKind::NotScalar => SourceKind::NotScalar,
        NameKind::NotArray => SourceKind::NotArray,
        NameKind::NotFunction => SourceKind::NotFunction,
        NameKind::NotRegister => SourceKind::NotRegister,
        NameKind::WrongCount => SourceKind::WrongCount,
        NameKind::BadFormat => SourceKind::BadFormat,
        NameKind::VoidValue => SourceKind::VoidValue,
        NameKind::ConstWrite => SourceKind::ConstWrite,
        NameKind::NotConstant => SourceKind::NotConstant,
        NameKind::BadLength => SourceKind::BadLength,
        NameKind::TooMany(limit) => SourceKind::TooMany(limit),
        NameKind::NoMain => SourceKind::NoMain,
    }
}

// The line of the table of spawn blocks that is met.
fn kind_of_block(kind: SpawnKind) -> SourceKind
    ensures { result ≡ kind_of_block kind }
{
    match kind {
        SpawnKind::DollarOutside => SourceKind::DollarOutside,
        SpawnKind::ReturnInside => SourceKind::ReturnInside,
        SpawnKind::JumpOut => SourceKind::JumpOut,
        SpawnKind::Nested => SourceKind::Nested,
        SpawnKind::PrintInside => SourceKind::PrintInside,
        SpawnKind::CallReachesSpawn => SourceKind::CallReachesSpawn,
    }
}

/// The refusal of a source whose names and types break a rule.
pub(crate) fn of_names(refusal: NameRefusal) -> SourceRefusal
    ensures { result ≡ of_names refusal }
{
    match refusal {
        NameRefusal::Refused(kind, place) => SourceRefusal::Refused(kind_of_name(kind), place),
        NameRefusal::NoMemory => SourceRefusal::NoMemory,
    }
}

/// The refusal of a source whose program meets a line of the table of spawn blocks.
pub(crate) fn of_blocks(refusal: SpawnRefusal) -> SourceRefusal
    ensures { result ≡ of_blocks refusal }
{
    SourceRefusal::Refused(kind_of_block(refusal.kind), refusal.place)
}
