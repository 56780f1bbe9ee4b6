//! Reads the items of a program.

ghost use Rattle.std.specs.Prelude.{MatchOption, ◌≡◌, ◌<◌, ◌^◌, [], length, bytes_eq, codes};
ghost use Rattle.raw_tree.specs.Gives as gives;
ghost use Rattle.raw_tree.specs.Level.{bytes_of};
ghost use Rattle.raw_tree.specs.Reading as spec;
ghost use Rattle.raw_tree.specs.ReadingItems as items;
ghost use Rattle.raw_tree.specs.ReadingStatements as code;
ghost use Rattle.xmt_parse.specs.Heads as heads;

use crate::item_nodes::{
    Head, Returns, array, array_values, function, globals, open_array, param, prototype, register,
    registers, scalar, some_params, some_values,
};
use raw_expressions::{Part, read_part};
use raw_statements::{read_body, read_opening, read_type};
use raw_tree::kinds::{Expected, bytes_between, close_round, is_name, open_curly, open_round};
use raw_tree::read::{Read, ReadError, behind, followed_by, name_of, past, read_name};
use raw_tree::{RawGlobal, RawItem, RawParam, RawParams, RawRegister, RawValues};
use sqlite_items::Items;
use std::alloc::Global;
use xmt_base::Place;
use xmt_lex::{Keyword, Token, TokenKind};

// The first token.
fn first(ts: &[Token]) -> Option<Token>
    ensures { MatchOption result (ts.now ≡ []) (λ _. ts.now ≡ [] → ⊥) }
{
    match ts {
        [t, ..] => Some(*t),
        [] => None,
    }
}

// The values of an array, up to and with the `}`.
fn read_values<'a>(
    alloc: Global,
    source: &[u8],
    depth: u32,
    at: Place,
    ts: &'a [Token],
) -> Result<Read<'a, RawValues>, ReadError>
    requires { depth < 2 ^ 20 }
    ensures { gives.Gives result (items.values_of (spec.readers source.now depth).of_cond at ts.now) }
{
    let mut all = Items::new(alloc);
    let mut nest = 0;
    let mut left = ts;
    let mut turns = ts.len();
    'parts: loop {
        let one = read_part(alloc, source, depth, Part::Cond, left)?;
        let Read {
            tree,
            nest: inner,
            rest,
        } = one;
        all.push(tree.into_inner())?;
        nest = inner.max(nest);
        match behind(Expected::CloseCurly, rest) {
            Some(more) => {
                return Ok(array_values(at, all, false, nest, more));
            }
            None => match behind(Expected::Comma, rest) {
                None => {
                    return Err(ReadError::Syntax(rest.len()));
                }
                Some(more) => match behind(Expected::CloseCurly, more) {
                    Some(behind_all) => {
                        return Ok(array_values(at, all, true, nest, behind_all));
                    }
                    None => match first(more) {
                        None => {
                            return Err(ReadError::Syntax(0));
                        }
                        Some(_) => {
                            if turns == 0 {
                                return Err(ReadError::Syntax(more.len()));
                            }
                            turns -= 1;
                            left = more;
                        }
                    },
                },
            },
        }
    }
}

fn read_array<'a>(
    alloc: Global,
    source: &[u8],
    depth: u32,
    ts: &'a [Token],
) -> Result<Read<'a, RawValues>, ReadError>
    requires { depth < 2 ^ 20 }
    ensures { gives.Gives result (items.read_array (spec.readers source.now depth).of_cond ts.now) }
{
    match ts {
        [o, more @ ..] if open_curly(o.kind) => read_values(alloc, source, depth, o.place, more),
        _ => Err(ReadError::Syntax(ts.len())),
    }
}

fn read_values_of<'a>(
    alloc: Global,
    source: &[u8],
    depth: u32,
    ts: &'a [Token],
) -> Result<Read<'a, Option<RawValues>>, ReadError>
    requires { depth < 2 ^ 20 }
    ensures { gives.Gives result (items.read_values_of (spec.readers source.now depth).of_cond ts.now) }
{
    match behind(Expected::Equal, ts) {
        None => Ok(Read {
            tree: None,
            nest: 0,
            rest: ts,
        }),
        Some(more) => {
            let values = read_array(alloc, source, depth, more)?;
            Ok(some_values(values))
        }
    }
}

// An array of a written length, behind its `[`.
fn read_sized<'a>(
    alloc: Global,
    source: &[u8],
    depth: u32,
    t: Token,
    ts: &'a [Token],
) -> Result<Read<'a, RawGlobal>, ReadError>
    requires { depth < 2 ^ 20 }
    ensures { gives.Gives result (heads.of_length source.now depth t ts.now) }
{
    let length = read_part(alloc, source, depth, Part::Cond, ts)?;
    let length = followed_by(Expected::CloseSquare, length)?;
    let values = read_values_of(alloc, source, depth, length.rest)?;
    array(alloc, source, t, length, values)
}

// An array as long as its values are many, behind its `]`.
fn read_open<'a>(
    alloc: Global,
    source: &[u8],
    depth: u32,
    t: Token,
    ts: &'a [Token],
) -> Result<Read<'a, RawGlobal>, ReadError>
    requires { depth < 2 ^ 20 }
    ensures { gives.Gives result (heads.of_values source.now depth t ts.now) }
{
    let inner = past(Expected::Equal, ts)?;
    let values = read_array(alloc, source, depth, inner)?;
    open_array(alloc, source, t, values)
}

// A global, behind the token of its name.
fn read_named<'a>(
    alloc: Global,
    source: &[u8],
    depth: u32,
    t: Token,
    ts: &'a [Token],
) -> Result<Read<'a, RawGlobal>, ReadError>
    requires { depth < 2 ^ 20 }
    ensures { gives.Gives result (heads.global_of source.now depth t ts.now) }
{
    match behind(Expected::OpenSquare, ts) {
        None => {
            let value = read_opening(alloc, source, depth, Part::Cond, ts)?;
            scalar(alloc, source, t, value)
        }
        Some(inner) => match behind(Expected::CloseSquare, inner) {
            None => read_sized(alloc, source, depth, t, inner),
            Some(more) => read_open(alloc, source, depth, t, more),
        },
    }
}

fn read_global<'a>(
    alloc: Global,
    source: &[u8],
    depth: u32,
    ts: &'a [Token],
) -> Result<Read<'a, RawGlobal>, ReadError>
    requires { depth < 2 ^ 20 }
    ensures { gives.Gives result (items.read_global source.now (spec.readers source.now depth).of_cond ts.now) }
{
    match ts {
        [t, more @ ..] if is_name(t.kind) => read_named(alloc, source, depth, *t, more),
        _ => Err(ReadError::Syntax(ts.len())),
    }
}

fn read_global_list<'a>(
    alloc: Global,
    source: &[u8],
    depth: u32,
    ts: &'a [Token],
) -> Result<Read<'a, Items<RawGlobal>>, ReadError>
    requires { depth < 2 ^ 20 }
    ensures { gives.Gives result (spec.read_parted (items.read_global source.now (spec.readers source.now depth).of_cond) ts.now) }
{
    let mut all = Items::new(alloc);
    let mut nest = 0;
    let mut left = ts;
    let mut turns = ts.len();
    'parts: loop {
        let one = read_global(alloc, source, depth, left)?;
        let Read {
            tree,
            nest: inner,
            rest,
        } = one;
        all.push(tree)?;
        nest = inner.max(nest);
        match behind(Expected::Comma, rest) {
            None => {
                return Ok(Read {
                    tree: all,
                    nest,
                    rest,
                });
            }
            Some(more) => {
                if turns == 0 {
                    return Err(ReadError::Syntax(more.len()));
                }
                turns -= 1;
                left = more;
            }
        }
    }
}

fn read_globals<'a>(
    alloc: Global,
    source: &[u8],
    depth: u32,
    ts: &'a [Token],
) -> Result<Read<'a, RawItem>, ReadError>
    requires { depth < 2 ^ 20 }
    ensures { gives.Gives result (items.read_globals source.now (spec.readers source.now depth).of_cond ts.now) }
{
    let ty = read_type(alloc, ts)?;
    let all = read_global_list(alloc, source, depth, ty.rest)?;
    let all = followed_by(Expected::Semicolon, all)?;
    Ok(globals(ty, all))
}

fn read_register<'a>(
    alloc: Global,
    source: &[u8],
    depth: u32,
    ts: &'a [Token],
) -> Result<Read<'a, RawRegister>, ReadError>
    requires { depth < 2 ^ 20 }
    ensures { gives.Gives result (items.read_register source.now (spec.readers source.now depth).of_cond ts.now) }
{
    let name = read_name(alloc, source, ts)?;
    let value = read_opening(alloc, source, depth, Part::Cond, name.rest)?;
    Ok(register(name, value))
}

fn read_register_list<'a>(
    alloc: Global,
    source: &[u8],
    depth: u32,
    ts: &'a [Token],
) -> Result<Read<'a, Items<RawRegister>>, ReadError>
    requires { depth < 2 ^ 20 }
    ensures { gives.Gives result (spec.read_parted (items.read_register source.now (spec.readers source.now depth).of_cond) ts.now) }
{
    let mut all = Items::new(alloc);
    let mut nest = 0;
    let mut left = ts;
    let mut turns = ts.len();
    'parts: loop {
        let one = read_register(alloc, source, depth, left)?;
        let Read {
            tree,
            nest: inner,
            rest,
        } = one;
        all.push(tree)?;
        nest = inner.max(nest);
        match behind(Expected::Comma, rest) {
            None => {
                return Ok(Read {
                    tree: all,
                    nest,
                    rest,
                });
            }
            Some(more) => {
                if turns == 0 {
                    return Err(ReadError::Syntax(more.len()));
                }
                turns -= 1;
                left = more;
            }
        }
    }
}

fn registers_of<'a>(
    alloc: Global,
    source: &[u8],
    depth: u32,
    at: Place,
    int: bool,
    ts: &'a [Token],
) -> Result<Read<'a, RawItem>, ReadError>
    requires { depth < 2 ^ 20 }
    ensures { gives.Gives result (items.registers_of source.now (spec.readers source.now depth).of_cond at int ts.now) }
{
    let all = read_register_list(alloc, source, depth, ts)?;
    let all = followed_by(Expected::Semicolon, all)?;
    Ok(registers(at, int, all))
}

fn read_registers<'a>(
    alloc: Global,
    source: &[u8],
    depth: u32,
    at: Place,
    ts: &'a [Token],
) -> Result<Read<'a, RawItem>, ReadError>
    requires { depth < 2 ^ 20 }
    ensures { gives.Gives result (items.read_registers source.now (spec.readers source.now depth).of_cond at ts.now) }
{
    match behind(Expected::Int, ts) {
        None => registers_of(alloc, source, depth, at, false, ts),
        Some(more) => registers_of(alloc, source, depth, at, true, more),
    }
}

fn read_param<'a>(
    alloc: Global,
    source: &[u8],
    ts: &'a [Token],
) -> Result<Read<'a, RawParam>, ReadError>
    ensures { gives.Gives result (items.read_param source.now ts.now) }
{
    let ty = read_type(alloc, ts)?;
    match ty.rest {
        [t, more @ ..] if is_name(t.kind) => {
            let name = name_of(alloc, source, *t)?;
            Ok(param(ty, Some(name), more))
        }
        rest => Ok(param(ty, None, rest)),
    }
}

fn read_param_list<'a>(
    alloc: Global,
    source: &[u8],
    ts: &'a [Token],
) -> Result<Read<'a, Items<RawParam>>, ReadError>
    ensures { gives.Gives result (spec.read_parted (items.read_param source.now) ts.now) }
{
    let mut all = Items::new(alloc);
    let mut nest = 0;
    let mut left = ts;
    let mut turns = ts.len();
    'parts: loop {
        let one = read_param(alloc, source, left)?;
        let Read {
            tree,
            nest: inner,
            rest,
        } = one;
        all.push(tree)?;
        nest = inner.max(nest);
        match behind(Expected::Comma, rest) {
            None => {
                return Ok(Read {
                    tree: all,
                    nest,
                    rest,
                });
            }
            Some(more) => {
                if turns == 0 {
                    return Err(ReadError::Syntax(more.len()));
                }
                turns -= 1;
                left = more;
            }
        }
    }
}

// What stands between the brackets of a head; names may be left out.
fn read_params<'a>(
    alloc: Global,
    source: &[u8],
    ts: &'a [Token],
) -> Result<Read<'a, RawParams>, ReadError>
    ensures { gives.Gives result (items.read_params source.now ts.now) }
{
    match ts {
        [] => Err(ReadError::Syntax(0)),
        [t, ..] => {
            if close_round(t.kind) {
                Ok(Read {
                    tree: RawParams::Nothing,
                    nest: 0,
                    rest: ts,
                })
            } else {
                match behind(Expected::Void, ts) {
                    None => {
                        let all = read_param_list(alloc, source, ts)?;
                        Ok(some_params(all))
                    }
                    Some(more) => Ok(Read {
                        tree: RawParams::Void,
                        nest: 0,
                        rest: more,
                    }),
                }
            }
        }
    }
}

fn have_names(all: &[RawParam]) -> bool
    ensures { result ≡ items.have_names all.now }
{
    for p in all {
        if p.name.is_none() {
            return false;
        }
    }
    true
}

// Each parameter has a name, as those before a body must.
fn all_named(all: &RawParams) -> bool
    ensures { result ≡ items.all_named all.now }
{
    match all {
        RawParams::Some(list) => have_names(list.as_slice()),
        _ => true,
    }
}

// The body of a function, behind its parameters.
fn read_function<'a>(
    alloc: Global,
    source: &[u8],
    depth: u32,
    head: Head,
    all: RawParams,
    ts: &'a [Token],
) -> Result<Read<'a, RawItem>, ReadError>
    requires { depth < 2 ^ 20 }
    ensures { gives.Gives result (heads.function_of source.now depth head all ts.now) }
{
    if all_named(&all) {
        let inner = past(Expected::OpenCurly, ts)?;
        let body = read_body(alloc, source, depth, inner)?;
        function(alloc, source, head, all, body)
    } else {
        Err(ReadError::Syntax(ts.len()))
    }
}

// A function or a prototype, behind its name.
fn read_headed<'a>(
    alloc: Global,
    source: &[u8],
    depth: u32,
    head: Head,
    ts: &'a [Token],
) -> Result<Read<'a, RawItem>, ReadError>
    requires { depth < 2 ^ 20 }
    ensures { gives.Gives result (heads.item_of source.now depth head ts.now) }
{
    let inner = past(Expected::OpenRound, ts)?;
    let all = read_params(alloc, source, inner)?;
    let Read { tree, rest, .. } = followed_by(Expected::CloseRound, all)?;
    match behind(Expected::Semicolon, rest) {
        None => read_function(alloc, source, depth, head, tree, rest),
        Some(behind_all) => prototype(alloc, source, head, tree, behind_all),
    }
}

fn read_typed<'a>(
    alloc: Global,
    source: &[u8],
    depth: u32,
    at: Place,
    returns: Returns,
    ts: &'a [Token],
) -> Result<Read<'a, RawItem>, ReadError>
    requires { depth < 2 ^ 20 }
    ensures { gives.Gives result (items.read_typed source.now (code.read_piece source.now depth) at (heads.made returns) ts.now) }
{
    match ts {
        [t, more @ ..] if is_name(t.kind) => {
            let head = Head {
                at,
                returns,
                name: *t,
            };
            read_headed(alloc, source, depth, head, more)
        }
        _ => Err(ReadError::Syntax(ts.len())),
    }
}

fn is_main(source: &[u8], t: Token) -> bool
    ensures { result ≡ bytes_eq (bytes_of source.now t) (codes "main") }
{
    bytes_between(source, t.start as usize, t.end as usize) == b"main".as_slice()
}

// `main` with no word before it.
fn read_main<'a>(
    alloc: Global,
    source: &[u8],
    depth: u32,
    t: Token,
    ts: &'a [Token],
) -> Result<Read<'a, RawItem>, ReadError>
    requires { depth < 2 ^ 20 }
    ensures { gives.Gives result (items.read_main source.now (code.read_piece source.now depth) t ts.now) }
{
    if is_main(source, t) {
        let head = Head {
            at: t.place,
            returns: Returns::Main,
            name: t,
        };
        read_headed(alloc, source, depth, head, ts)
    } else {
        Err(ReadError::Syntax(ts.len() + 1))
    }
}

// The second of these tokens is a `(`.
fn is_head(ts: &[Token]) -> bool
    ensures { result ≡ items.is_head ts.now }
{
    match ts {
        [_, o, ..] => open_round(o.kind),
        _ => false,
    }
}

fn read_item<'a>(
    alloc: Global,
    source: &[u8],
    depth: u32,
    ts: &'a [Token],
) -> Result<Read<'a, RawItem>, ReadError>
    requires { depth < 2 ^ 20 }
    ensures { gives.Gives result (items.read_item source.now depth ts.now) }
{
    match ts {
        [] => Err(ReadError::Syntax(0)),
        [t, more @ ..] => match t.kind {
            TokenKind::Keyword(Keyword::PsBaseReg) => {
                read_registers(alloc, source, depth, t.place, more)
            }
            TokenKind::Keyword(Keyword::Void) => {
                read_typed(alloc, source, depth, t.place, Returns::Void, more)
            }
            TokenKind::Keyword(Keyword::Int) => {
                if is_head(more) {
                    read_typed(alloc, source, depth, t.place, Returns::Int, more)
                } else {
                    read_globals(alloc, source, depth, ts)
                }
            }
            TokenKind::Keyword(Keyword::Const) | TokenKind::Keyword(Keyword::Volatile) => {
                read_globals(alloc, source, depth, ts)
            }
            TokenKind::Name => read_main(alloc, source, depth, *t, more),
            _ => Err(ReadError::Syntax(ts.len())),
        },
    }
}

// The items to the end of the tokens, if there are any.
fn items_to_end(
    alloc: Global,
    source: &[u8],
    depth: u32,
    ts: &[Token],
) -> Result<Items<RawItem>, ReadError>
    requires { depth < 2 ^ 20 }
    ensures { gives.GivesAll result (items.items (items.read_item source.now depth) (length ts.now) [] ts.now) }
{
    let mut all = Items::new(alloc);
    let mut left = ts;
    let mut turns = ts.len();
    'parts: loop {
        match first(left) {
            None => {
                return Ok(all);
            }
            Some(_) => {
                if turns == 0 {
                    return Err(ReadError::Syntax(left.len()));
                }
                let one = read_item(alloc, source, depth, left)?;
                let Read { tree, rest, .. } = one;
                all.push(tree)?;
                turns -= 1;
                left = rest;
            }
        }
    }
}

/// The items to the end of the tokens, of nesting at most depth.
pub fn read_items(
    alloc: Global,
    source: &[u8],
    depth: u32,
    ts: &[Token],
) -> Result<Items<RawItem>, ReadError>
    requires { depth < 2 ^ 20 }
    ensures { gives.GivesAll result (items.read_items source.now depth ts.now) }
{
    match first(ts) {
        None => Err(ReadError::Syntax(0)),
        Some(_) => items_to_end(alloc, source, depth, ts),
    }
}
