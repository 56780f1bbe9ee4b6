//! The breaches of the rules of names and types.
ghost use Rattle.std.specs.Prelude.{◌≡◌};
ghost use Rattle.name_scopes.specs.Fault as spec;

use xmt_base::Place;

/// A limit on what a source may have.
#[derive(Clone, Copy, Debug, PartialEq, Eq)]
pub enum Which {
    /// 200 variables in a function, parameters included.
    Variables,
    /// 8 parameters of a function.
    Parameters,
    /// 4,096 globals.
    Globals,
    /// 1,000 functions.
    Functions,
    /// 8 registers.
    Registers,
    /// 16 values of one `printf`.
    PrintValues,
    /// 256 values that wait in one expression.
    Waiting,
    /// 65,536 nodes of the tree.
    Nodes,
}

/// A rule of names and types that a source breaks. At one place the earlier kind comes first.
#[derive(Clone, Copy, Debug, PartialEq, Eq)]
pub enum NameKind {
    /// A name is declared nowhere in reach, or a called name has only a prototype.
    Unknown,
    /// A second declaration of a name in one scope.
    Double,
    /// An array or a function is used as a variable, or a prefix-sum names a register where a
    /// variable is wanted.
    NotScalar,
    /// A name with an index is no array.
    NotArray,
    /// A called name is no function.
    NotFunction,
    /// The second name of `ps` is no register.
    NotRegister,
    /// A call, a format or an initial list has another number of values.
    WrongCount,
    /// A `%` of a format is followed by neither `d` nor `%`.
    BadFormat,
    /// The value of a void call is used, or a void function returns one.
    VoidValue,
    /// A const variable is written.
    ConstWrite,
    /// A constant expression holds more than numbers and operators, or divides by 0.
    NotConstant,
    /// The length of an array is below 1.
    BadLength,
    /// A limit is passed.
    TooMany(Which),
    /// No function `main` without parameters is defined.
    NoMain,
}

/// A broken rule and where it is broken.
#[derive(Clone, Copy, Debug, PartialEq, Eq)]
pub struct Fault {
    pub kind: NameKind,
    pub place: Place,
}

fn rank_of_limit(which: Which) -> u32
    ensures { result ≡ spec.rank_of_limit which }
{
    match which {
        Which::Variables => 12,
        Which::Parameters => 13,
        Which::Globals => 14,
        Which::Functions => 15,
        Which::Registers => 16,
        Which::PrintValues => 17,
        Which::Waiting => 18,
        Which::Nodes => 19,
    }
}

fn rank(kind: NameKind) -> u32
    ensures { result ≡ spec.rank kind }
{
    match kind {
        NameKind::Unknown => 0,
        NameKind::Double => 1,
        NameKind::NotScalar => 2,
        NameKind::NotArray => 3,
        NameKind::NotFunction => 4,
        NameKind::NotRegister => 5,
        NameKind::WrongCount => 6,
        NameKind::BadFormat => 7,
        NameKind::VoidValue => 8,
        NameKind::ConstWrite => 9,
        NameKind::NotConstant => 10,
        NameKind::BadLength => 11,
        NameKind::TooMany(which) => rank_of_limit(which),
        NameKind::NoMain => 20,
    }
}

fn is_before(a: Fault, b: Fault) -> bool
    ensures { result ≡ spec.is_before a b }
{
    a.place.line < b.place.line
        || (a.place.line == b.place.line
            && (a.place.column < b.place.column
                || (a.place.column == b.place.column && rank(a.kind) < rank(b.kind))))
}

/// The first of two breaches, where there are any.
pub fn earlier(a: Option<Fault>, b: Option<Fault>) -> Option<Fault>
    ensures { result ≡ spec.earlier a b }
{
    match a {
        None => b,
        Some(one) => match b {
            None => a,
            Some(other) => Some(if is_before(other, one) { other } else { one }),
        },
    }
}

/// A breach, if the test holds.
pub fn when(holds: bool, kind: NameKind, place: Place) -> Option<Fault>
    ensures { result ≡ spec.first (spec.when holds kind place) }
{
    if holds {
        Some(Fault { kind, place })
    } else {
        None
    }
}

/// A breach.
pub fn breach(kind: NameKind, place: Place) -> Option<Fault>
    ensures { result ≡ spec.first (spec.one kind place) }
{
    Some(Fault { kind, place })
}
