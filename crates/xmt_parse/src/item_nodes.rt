//! Makes the nodes of items from the parts that were read.

ghost use Rattle.std.specs.Prelude.{◌≡◌, IfOk, Some};
ghost use Rattle.raw_tree.specs.Gives as gives;
ghost use Rattle.raw_tree.specs.Grammar.{name_of};
ghost use Rattle.raw_tree.specs.Items as grammar;
ghost use Rattle.raw_tree.specs.Reading.{got};
ghost use Rattle.raw_tree.specs.declared.tree.RawGlobal.TheVariants as global;
ghost use Rattle.raw_tree.specs.declared.tree.RawItemKind.TheVariants as i;
ghost use Rattle.raw_tree.specs.declared.tree.RawParams.TheVariants as params;
ghost use Rattle.xmt_parse.specs.Heads as heads;

use raw_tree::read::{Read, ReadError, name_of};
use raw_tree::{
    RawExpr, RawGlobal, RawItem, RawItemKind, RawName, RawParam, RawParams, RawRegister, RawResult,
    RawStmt, RawType, RawValues,
};
use sqlite_items::{Boxed, Items};
use std::alloc::{AllocError, Global};
use xmt_base::Place;
use xmt_lex::Token;

/// An item.
pub fn item(at: Place, kind: RawItemKind) -> RawItem
    ensures { result ≡ grammar.item at kind }
{
    RawItem { at, kind }
}

/// The values of an array.
pub fn array_values<'a>(
    at: Place,
    values: Items<RawExpr>,
    comma: bool,
    nest: u32,
    rest: &'a [Token],
) -> Read<'a, RawValues>
    ensures { Some (gives.view result) ≡ got (record { at = at; values = values; comma = comma }) nest rest.now }
{
    Read {
        tree: RawValues { at, values, comma },
        nest,
        rest,
    }
}

/// Values that could be left out.
pub fn some_values<'a>(values: Read<'a, RawValues>) -> Read<'a, Option<RawValues>>
    ensures { Some (gives.view result) ≡ got (Some values.entry.tree) values.entry.nest values.entry.rest.now }
{
    let Read { tree, nest, rest } = values;
    Read {
        tree: Some(tree),
        nest,
        rest,
    }
}

/// The global that `t` names.
pub fn scalar<'a>(
    alloc: Global,
    source: &[u8],
    t: Token,
    value: Read<'a, Option<Boxed<RawExpr>>>,
) -> Result<Read<'a, RawGlobal>, ReadError>
    ensures { gives.Gives result (got (global.Scalar (name_of source.now t) value.entry.tree) value.entry.nest value.entry.rest.now) }
{
    let Read { tree, nest, rest } = value;
    let name = name_of(alloc, source, t)?;
    Ok(Read {
        tree: RawGlobal::Scalar(name, tree),
        nest,
        rest,
    })
}

/// The array that `t` names, of the length that was read.
pub fn array<'a>(
    alloc: Global,
    source: &[u8],
    t: Token,
    length: Read<'a, Boxed<RawExpr>>,
    values: Read<'a, Option<RawValues>>,
) -> Result<Read<'a, RawGlobal>, ReadError>
    ensures { gives.Gives result (heads.sized (name_of source.now t) (gives.view length.entry) (gives.view values.entry)) }
{
    let Read {
        tree: size,
        nest: inner,
        ..
    } = length;
    let Read { tree, nest, rest } = values;
    let name = name_of(alloc, source, t)?;
    Ok(Read {
        tree: RawGlobal::Array(name, size, tree),
        nest: inner.max(nest),
        rest,
    })
}

/// The array that `t` names, as long as its values are many.
pub fn open_array<'a>(
    alloc: Global,
    source: &[u8],
    t: Token,
    values: Read<'a, RawValues>,
) -> Result<Read<'a, RawGlobal>, ReadError>
    ensures { gives.Gives result (got (global.Open (name_of source.now t) values.entry.tree) values.entry.nest values.entry.rest.now) }
{
    let Read { tree, nest, rest } = values;
    let name = name_of(alloc, source, t)?;
    Ok(Read {
        tree: RawGlobal::Open(name, tree),
        nest,
        rest,
    })
}

/// The globals of one type.
pub fn globals<'a>(ty: Read<'a, RawType>, all: Read<'a, Items<RawGlobal>>) -> Read<'a, RawItem>
    ensures { Some (gives.view result) ≡ got (grammar.item ty.entry.tree.at (i.Globals ty.entry.tree all.entry.tree)) 0 all.entry.rest.now }
{
    let Read { tree: ty, .. } = ty;
    let Read { tree, rest, .. } = all;
    Read {
        tree: item(ty.at, RawItemKind::Globals(ty, tree)),
        nest: 0,
        rest,
    }
}

/// A global register, with the value that it opens with.
pub fn register<'a>(
    name: Read<'a, RawName>,
    value: Read<'a, Option<Boxed<RawExpr>>>,
) -> Read<'a, RawRegister>
    ensures { Some (gives.view result) ≡ got (record { name = name.entry.tree; value = value.entry.tree }) value.entry.nest value.entry.rest.now }
{
    let Read { tree: name, .. } = name;
    let Read { tree, nest, rest } = value;
    Read {
        tree: RawRegister { name, value: tree },
        nest,
        rest,
    }
}

/// Global registers.
pub fn registers<'a>(at: Place, int: bool, all: Read<'a, Items<RawRegister>>) -> Read<'a, RawItem>
    ensures { Some (gives.view result) ≡ got (grammar.item at (i.Registers int all.entry.tree)) 0 all.entry.rest.now }
{
    let Read { tree, rest, .. } = all;
    Read {
        tree: item(at, RawItemKind::Registers(int, tree)),
        nest: 0,
        rest,
    }
}

/// A parameter.
pub fn param<'a>(
    ty: Read<'a, RawType>,
    name: Option<RawName>,
    rest: &'a [Token],
) -> Read<'a, RawParam>
    ensures { Some (gives.view result) ≡ got (record { ty = ty.entry.tree; name = name }) 0 rest.now }
{
    let Read { tree: ty, .. } = ty;
    Read {
        tree: RawParam { ty, name },
        nest: 0,
        rest,
    }
}

/// Parameters, one at least.
pub fn some_params<'a>(all: Read<'a, Items<RawParam>>) -> Read<'a, RawParams>
    ensures { Some (gives.view result) ≡ got (params.Some all.entry.tree) 0 all.entry.rest.now }
{
    let Read { tree, rest, .. } = all;
    Read {
        tree: RawParams::Some(tree),
        nest: 0,
        rest,
    }
}

/// What stands before the name of a function; `main` may stand alone.
#[derive(Clone, Copy, Debug, PartialEq, Eq)]
pub enum Returns {
    Int,
    Void,
    Main,
}

/// The head of a function before its parameters, with the token of its name.
#[derive(Clone, Copy)]
pub struct Head {
    pub at: Place,
    pub returns: Returns,
    pub name: Token,
}

fn result_of(alloc: Global, source: &[u8], head: Head) -> Result<RawResult, AllocError>
    ensures { IfOk result (λ made. made ≡ heads.result_of source.now head) }
{
    let name = name_of(alloc, source, head.name)?;
    Ok(match head.returns {
        Returns::Int => RawResult::Int(name),
        Returns::Void => RawResult::Void(name),
        Returns::Main => RawResult::Main(name),
    })
}

/// A function.
pub fn function<'a>(
    alloc: Global,
    source: &[u8],
    head: Head,
    all: RawParams,
    body: Read<'a, Items<RawStmt>>,
) -> Result<Read<'a, RawItem>, ReadError>
    ensures { gives.Gives result (heads.defined source.now head all (gives.view body.entry)) }
{
    let Read { tree, rest, .. } = body;
    let made = result_of(alloc, source, head)?;
    Ok(Read {
        tree: item(head.at, RawItemKind::Function(made, all, tree)),
        nest: 0,
        rest,
    })
}

/// A prototype.
pub fn prototype<'a>(
    alloc: Global,
    source: &[u8],
    head: Head,
    all: RawParams,
    rest: &'a [Token],
) -> Result<Read<'a, RawItem>, ReadError>
    ensures { gives.Gives result (got (grammar.item head.at (i.Proto (heads.result_of source.now head) all)) 0 rest.now) }
{
    let made = result_of(alloc, source, head)?;
    Ok(Read {
        tree: item(head.at, RawItemKind::Proto(made, all)),
        nest: 0,
        rest,
    })
}
