//! How many nodes a tree has. The numbers stay at the greatest u64.
ghost use Rattle.std.specs.Prelude.{◌≡◌, map, sum, length};
ghost use Rattle.xmt_base.specs.Counters.{capped};
ghost use Rattle.name_faults.specs.Nodes as spec;

use name_scopes::{nodes, nodes_of_all, nodes_of_spot};
use raw_tree::{
    RawDecl, RawExpr, RawFirst, RawGlobal, RawItem, RawItemKind, RawLocal, RawParam, RawParams,
    RawStmt, RawStmtKind, RawValues,
};
use sqlite_items::Boxed;

fn nodes_of_option(e: &Option<Boxed<RawExpr>>) -> u64
    ensures { result ≡ capped (spec.nodes_of_option e.now) }
{
    match e {
        None => 0,
        Some(e) => nodes(e.get()),
    }
}

fn nodes_of_local(local: &RawLocal) -> u64
    ensures { result ≡ capped (spec.nodes_of_local local.now) }
{
    nodes_of_option(&local.value).saturating_add(1)
}

fn nodes_of_decl(decl: &RawDecl) -> u64
    ensures { result ≡ capped (spec.nodes_of_decl decl.now) }
{
    let mut total = 0u64;
    for one in decl.locals.as_slice() {
        total = total.saturating_add(nodes_of_local(one));
    }
    total
}

fn nodes_of_first(begin: &RawFirst) -> u64
    ensures { result ≡ capped (spec.nodes_of_first begin.now) }
{
    match begin {
        RawFirst::Decl(decl) => nodes_of_decl(decl),
        RawFirst::Value(value) => match value {
            None => 0,
            Some(e) => nodes(e.get()).saturating_add(1),
        },
    }
}

#[tactic(auto, unfolding(name_scopes::specs::Opened::opened))]
#[cycle(nodes)]
fn statement_nodes(s: &RawStmt) -> u64
    ensures { result ≡ capped (spec.statement_nodes s.now.kind) }
{
    match &s.kind {
        RawStmtKind::Block(body) => nodes_of_body(body.as_slice()).saturating_add(1),
        RawStmtKind::Decl(decl) => nodes_of_decl(decl.get()),
        RawStmtKind::Empty => 1,
        RawStmtKind::Value(e) => nodes(e.get()).saturating_add(1),
        RawStmtKind::If(test, body, other) => {
            let parts = nodes(test.get()).saturating_add(statement_nodes(body.get()));
            match other {
                None => parts.saturating_add(1),
                Some(other) => parts
                    .saturating_add(statement_nodes(other.get()))
                    .saturating_add(1),
            }
        }
        RawStmtKind::While(test, body) => nodes(test.get())
            .saturating_add(statement_nodes(body.get()))
            .saturating_add(1),
        RawStmtKind::Do(body, test) => statement_nodes(body.get())
            .saturating_add(nodes(test.get()))
            .saturating_add(1),
        RawStmtKind::For(begin, test, third, body) => {
            let head = nodes_of_first(begin.get())
                .saturating_add(nodes_of_option(test))
                .saturating_add(nodes_of_option(third));
            head.saturating_add(statement_nodes(body.get()))
                .saturating_add(1)
        }
        RawStmtKind::Break => 1,
        RawStmtKind::Continue => 1,
        RawStmtKind::Return(e) => nodes_of_option(e).saturating_add(1),
        RawStmtKind::Spawn(low, high, body) => {
            let bounds = nodes(low.get()).saturating_add(nodes(high.get()));
            bounds
                .saturating_add(nodes_of_body(body.as_slice()))
                .saturating_add(1)
        }
        RawStmtKind::Ps(_, _) => 1,
        RawStmtKind::Psm(_, place) => nodes_of_spot(place.get()).saturating_add(1),
        RawStmtKind::Print(_, values) => nodes_of_all(values.as_slice()).saturating_add(1),
    }
}

#[tactic(auto, unfolding(name_scopes::specs::Opened::opened))]
#[cycle(nodes)]
fn nodes_of_body(body: &[RawStmt]) -> u64
    ensures { result ≡ capped (spec.nodes_of_body body.now) }
{
    let mut total = 0u64;
    for s in body {
        total = total.saturating_add(statement_nodes(s));
    }
    total
}

fn nodes_of_values(values: &Option<RawValues>) -> u64
    ensures { result ≡ capped (spec.nodes_of_values values.now) }
{
    match values {
        None => 0,
        Some(values) => values.values.len() as u64,
    }
}

fn nodes_of_opening(value: &Option<Boxed<RawExpr>>) -> u64
    ensures { result ≡ capped (spec.nodes_of_opening value.now) }
{
    match value {
        None => 0,
        Some(_) => 1,
    }
}

fn nodes_of_global(global: &RawGlobal) -> u64
    ensures { result ≡ capped (spec.nodes_of_global global.now) }
{
    match global {
        RawGlobal::Scalar(_, value) => nodes_of_opening(value).saturating_add(1),
        RawGlobal::Array(_, _, values) => nodes_of_values(values).saturating_add(1),
        RawGlobal::Open(_, values) => (values.values.len() as u64).saturating_add(1),
    }
}

fn nodes_of_globals(all: &[RawGlobal]) -> u64
    ensures { result ≡ capped (sum (map spec.nodes_of_global all.now)) }
{
    let mut total = 0u64;
    for one in all {
        total = total.saturating_add(nodes_of_global(one));
    }
    total
}

/// The parameters of a head.
pub fn params_of(params: &RawParams) -> &[RawParam]
    ensures { result.now ≡ spec.params_of params.now }
{
    match params {
        RawParams::Nothing => &[],
        RawParams::Void => &[],
        RawParams::Some(all) => all.as_slice(),
    }
}

fn nodes_of_item(item: &RawItem) -> u64
    ensures { result ≡ capped (spec.nodes_of_item item.now.kind) }
{
    match &item.kind {
        RawItemKind::Globals(_, all) => nodes_of_globals(all.as_slice()),
        RawItemKind::Registers(_, all) => all.len() as u64,
        RawItemKind::Function(_, params, body) => (params_of(params).len() as u64)
            .saturating_add(nodes_of_body(body.as_slice()))
            .saturating_add(1),
        RawItemKind::Proto(_, _) => 0,
    }
}

/// How many nodes the typed tree of a raw one has.
pub(crate) fn nodes_of_items(items: &[RawItem]) -> u64
    ensures { result ≡ capped (spec.nodes_of_items items.now) }
{
    let mut total = 0u64;
    for one in items {
        total = total.saturating_add(nodes_of_item(one));
    }
    total
}
