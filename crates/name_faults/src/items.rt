//! The first breach in a whole tree.
ghost use Rattle.std.specs.Prelude.{◌≡◌, [], nat_lt, map, OnOk, IfOk};
ghost use Rattle.name_scopes.specs.Fault as fault;
ghost use Rattle.name_scopes.specs.Fault.{first};
ghost use Rattle.name_scopes.specs.Locals.{Env, env};
ghost use Rattle.name_scopes.specs.Table.{IsTable};
ghost use Rattle.name_scopes.specs.declared.fault.Which.TheVariants as which;
ghost use Rattle.name_faults.specs.Expressions as part;
ghost use Rattle.name_faults.specs.Nodes.{nodes_of_items as nodes_of_items_spec};
ghost use Rattle.name_scopes.specs.declared.fault.NameKind.TheVariants as kinds;
ghost use Rattle.name_faults.specs.Items as spec;

use crate::expressions::{constant_faults, constants_faults};
use crate::nodes::{nodes_of_items, params_of};
use crate::statements::{double_fault, statements};
use name_scopes::{
    Fault, Locals, Meaning, NameKind, Scope, Which, breach, constant, earlier, is_constant,
    no_names, when,
};
use raw_tree::{
    RawExpr, RawGlobal, RawItem, RawItemKind, RawName, RawParam, RawProgram, RawRegister,
    RawResult, RawStmt, RawValues,
};
use sqlite_items::{Boxed, Items};
use std::alloc::{AllocError, Global};
use xmt_base::Place;

/// What the whole file declares: the names, and where each global, register and function is
/// declared, in order.
#[derive(Drop)]
pub struct File {
    pub scope: Scope,
    pub globals: Items<Place>,
    pub registers: Items<Place>,
    pub functions: Items<Place>,
}

// A file in which nothing is declared.
fn empty_file(alloc: Global) -> File
    ensures table { IsTable result.scope }
    ensures names { spec.names result ≡ spec.no_names }
{
    File {
        scope: no_names(alloc),
        globals: Items::new(alloc),
        registers: Items::new(alloc),
        functions: Items::new(alloc),
    }
}

// The first declaration of a name counts.
fn declare_first(
    alloc: Global,
    scope: &mut Scope,
    name: &RawName,
    meaning: Meaning,
) -> Result<Option<Fault>, AllocError>
    requires { IsTable scope.old }
    ensures table { OnOk result (IsTable scope.new) }
    ensures declared { OnOk result (scope.new.declared ≡ spec.declare_first name.now meaning scope.old.declared) }
    ensures fault { IfOk result (λ found. found ≡ first (spec.again_fault name.now scope.old.declared)) }
{
    match scope.look(name.bytes.as_slice()) {
        None => {
            scope.declare(alloc, name.bytes.as_slice(), meaning)?;
            Ok(None)
        }
        Some(_) => Ok(breach(NameKind::Double, name.at)),
    }
}

fn name_of_global(global: &RawGlobal) -> &RawName
    ensures { result.now ≡ spec.name_of_global global.now }
{
    match global {
        RawGlobal::Scalar(name, _) => name,
        RawGlobal::Array(name, _, _) => name,
        RawGlobal::Open(name, _) => name,
    }
}

fn meaning_of_global(number: usize, constant: bool, global: &RawGlobal) -> Meaning
    ensures { result ≡ spec.meaning_of_global number constant global.now }
{
    match global {
        RawGlobal::Scalar(_, _) => Meaning::Scalar { number, constant },
        RawGlobal::Array(_, _, _) => Meaning::Array { number, constant },
        RawGlobal::Open(_, _) => Meaning::Array { number, constant },
    }
}

fn enter_global(
    alloc: Global,
    file: &mut File,
    constant: bool,
    global: &RawGlobal,
) -> Result<Option<Fault>, AllocError>
    requires { IsTable file.old.scope }
    ensures table { OnOk result (IsTable file.new.scope) }
    ensures names { OnOk result (spec.names file.new ≡ spec.enter_global constant global.now (spec.names file.old)) }
    ensures fault { IfOk result (λ found. found ≡ first (spec.again_fault (spec.name_of_global global.now) file.old.scope.declared)) }
{
    let name = name_of_global(global);
    let meaning = meaning_of_global(file.globals.len(), constant, global);
    let found = declare_first(alloc, &mut file.scope, name, meaning)?;
    file.globals.push(name.at)?;
    Ok(found)
}

fn enter_globals(
    alloc: Global,
    file: &mut File,
    constant: bool,
    all: &[RawGlobal],
) -> Result<Option<Fault>, AllocError>
    requires { IsTable file.old.scope }
    ensures table { OnOk result (IsTable file.new.scope) }
    ensures names { OnOk result (spec.names file.new ≡ spec.enter_globals constant all.now (spec.names file.old)) }
    ensures fault { IfOk result (λ found. found ≡ first (spec.again_globals constant all.now (spec.names file.old))) }
{
    let mut found = None;
    for x in all {
        let one = enter_global(alloc, file, constant, x)?;
        found = earlier(found, one);
    }
    Ok(found)
}

fn enter_register(
    alloc: Global,
    file: &mut File,
    register: &RawRegister,
) -> Result<Option<Fault>, AllocError>
    requires { IsTable file.old.scope }
    ensures table { OnOk result (IsTable file.new.scope) }
    ensures names { OnOk result (spec.names file.new ≡ spec.enter_register register.now (spec.names file.old)) }
    ensures fault { IfOk result (λ found. found ≡ first (spec.again_fault register.now.name file.old.scope.declared)) }
{
    let meaning = Meaning::Register {
        number: file.registers.len(),
    };
    let found = declare_first(alloc, &mut file.scope, &register.name, meaning)?;
    file.registers.push(register.name.at)?;
    Ok(found)
}

fn enter_registers(
    alloc: Global,
    file: &mut File,
    all: &[RawRegister],
) -> Result<Option<Fault>, AllocError>
    requires { IsTable file.old.scope }
    ensures table { OnOk result (IsTable file.new.scope) }
    ensures names { OnOk result (spec.names file.new ≡ spec.enter_registers all.now (spec.names file.old)) }
    ensures fault { IfOk result (λ found. found ≡ first (spec.again_registers all.now (spec.names file.old))) }
{
    let mut found = None;
    for x in all {
        let one = enter_register(alloc, file, x)?;
        found = earlier(found, one);
    }
    Ok(found)
}

/// The name in the head of a function.
pub fn name_of_head(head: &RawResult) -> &RawName
    ensures { result.now ≡ spec.name_of_head head.now }
{
    match head {
        RawResult::Int(name) => name,
        RawResult::Void(name) => name,
        RawResult::Main(name) => name,
    }
}

/// The calls of a function with this head have a value.
pub fn has_value(head: &RawResult) -> bool
    ensures { result ≡ spec.has_value head.now }
{
    match head {
        RawResult::Int(_) => true,
        RawResult::Void(_) => false,
        RawResult::Main(_) => true,
    }
}

fn enter_function(
    alloc: Global,
    file: &mut File,
    head: &RawResult,
    params: usize,
) -> Result<Option<Fault>, AllocError>
    requires { IsTable file.old.scope }
    ensures table { OnOk result (IsTable file.new.scope) }
    ensures names { OnOk result (spec.names file.new ≡ spec.enter_function head.now params (spec.names file.old)) }
    ensures fault { IfOk result (λ found. found ≡ first (spec.again_fault (spec.name_of_head head.now) file.old.scope.declared)) }
{
    let name = name_of_head(head);
    let meaning = Meaning::Function {
        number: file.functions.len(),
        value: has_value(head),
        params,
    };
    let found = declare_first(alloc, &mut file.scope, name, meaning)?;
    file.functions.push(name.at)?;
    Ok(found)
}

fn enter(alloc: Global, file: &mut File, item: &RawItem) -> Result<Option<Fault>, AllocError>
    requires { IsTable file.old.scope }
    ensures table { OnOk result (IsTable file.new.scope) }
    ensures names { OnOk result (spec.names file.new ≡ spec.enter item.now.kind (spec.names file.old)) }
    ensures fault { IfOk result (λ found. found ≡ first (spec.again item.now.kind (spec.names file.old))) }
{
    match &item.kind {
        RawItemKind::Globals(ty, all) => {
            let constant = is_constant(ty.qualifiers.as_slice());
            enter_globals(alloc, file, constant, all.as_slice())
        }
        RawItemKind::Registers(_, all) => enter_registers(alloc, file, all.as_slice()),
        RawItemKind::Function(head, params, _) => {
            enter_function(alloc, file, head, params_of(params).len())
        }
        RawItemKind::Proto(_, _) => Ok(None),
    }
}

// What the whole file declares, and the first name that it declares twice.
fn enter_all(alloc: Global, file: &mut File, items: &[RawItem]) -> Result<Option<Fault>, AllocError>
    requires { IsTable file.old.scope }
    ensures table { OnOk result (IsTable file.new.scope) }
    ensures names { OnOk result (spec.names file.new ≡ spec.enter_all items.now (spec.names file.old)) }
    ensures fault { IfOk result (λ found. found ≡ first (spec.again_all items.now (spec.names file.old))) }
{
    let mut found = None;
    for x in items {
        let one = enter(alloc, file, x)?;
        found = earlier(found, one);
    }
    Ok(found)
}

/// The names that the whole file declares, and what each stands for.
pub fn names_of_file(alloc: Global, items: &[RawItem]) -> Result<Scope, AllocError>
    ensures table { IfOk result (λ scope. IsTable scope) }
    ensures declared { IfOk result (λ scope. scope.declared ≡ (spec.enter_all items.now spec.no_names).declared) }
{
    let mut file = empty_file(alloc);
    let _again = enter_all(alloc, &mut file, items)?;
    let File { scope, .. } = file;
    Ok(scope)
}

fn is_length(n: u32) -> bool
    ensures { result ≡ spec.is_length n }
{
    0 < n && n < 1 << 31
}

fn room(n: u32) -> u32
    ensures { result ≡ spec.room n }
{
    if n < 1 << 31 { n } else { 0 }
}

fn length_fault(name: &RawName, words: Option<u32>) -> Option<Fault>
    ensures { result ≡ first (spec.length_fault name.now words) }
{
    match words {
        None => None,
        Some(n) => when(!is_length(n), NameKind::BadLength, name.at),
    }
}

fn count_fault(name: &RawName, count: usize, words: Option<u32>) -> Option<Fault>
    ensures { result ≡ first (spec.count_fault name.now count words) }
{
    match words {
        None => None,
        Some(n) => when((room(n) as usize) < count, NameKind::WrongCount, name.at),
    }
}

fn initial_faults(
    scope: &Scope,
    name: &RawName,
    words: Option<u32>,
    values: &Option<RawValues>,
) -> Option<Fault>
    requires { IsTable scope.now }
    ensures { result ≡ first (spec.initial_faults scope.now.declared name.now words values.now) }
{
    match values {
        None => None,
        Some(all) => {
            let count = count_fault(name, all.values.len(), words);
            earlier(count, constants_faults(scope, all.values.as_slice()))
        }
    }
}

fn constant_option(scope: &Scope, e: &Option<Boxed<RawExpr>>) -> Option<Fault>
    requires { IsTable scope.now }
    ensures { result ≡ first (part.constant_option scope.now.declared e.now) }
{
    match e {
        None => None,
        Some(e) => constant_faults(scope, e.get()),
    }
}

fn global_faults(scope: &Scope, global: &RawGlobal) -> Option<Fault>
    requires { IsTable scope.now }
    ensures { result ≡ first (spec.global_faults scope.now.declared global.now) }
{
    match global {
        RawGlobal::Scalar(_, value) => constant_option(scope, value),
        RawGlobal::Array(name, words, values) => {
            let number = constant(words.get());
            let words = constant_faults(scope, words.get());
            let length = length_fault(name, number);
            earlier(
                earlier(words, length),
                initial_faults(scope, name, number, values),
            )
        }
        RawGlobal::Open(name, all) => {
            let length = when(all.values.len() == 0, NameKind::BadLength, name.at);
            earlier(length, constants_faults(scope, all.values.as_slice()))
        }
    }
}

fn globals_faults(scope: &Scope, all: &[RawGlobal]) -> Option<Fault>
    requires { IsTable scope.now }
    ensures { result ≡ first (spec.globals_faults scope.now.declared all.now) }
{
    let mut found = None;
    for x in all {
        found = earlier(found, global_faults(scope, x));
    }
    found
}

fn registers_faults(scope: &Scope, all: &[RawRegister]) -> Option<Fault>
    requires { IsTable scope.now }
    ensures { result ≡ first (spec.registers_faults scope.now.declared all.now) }
{
    let mut found = None;
    for x in all {
        found = earlier(found, constant_option(scope, &x.value));
    }
    found
}

fn declare_param(
    alloc: Global,
    locals: &mut Locals,
    start: usize,
    param: &RawParam,
) -> Result<Option<Fault>, AllocError>
    requires { IsTable locals.old.scope }
    ensures table { OnOk result (IsTable locals.new.scope) }
    ensures env { OnOk result (env locals.new ≡ spec.declare_param param.now (env locals.old)) }
    ensures fault { IfOk result (λ found. found ≡ first (spec.double_named start param.now.name locals.old.scope.declared)) }
{
    let constant = is_constant(param.ty.qualifiers.as_slice());
    match &param.name {
        None => {
            locals.variables.push(param.ty.at)?;
            Ok(None)
        }
        Some(name) => {
            let found = double_fault(&locals.scope, start, name);
            locals.declare(alloc, constant, name)?;
            Ok(found)
        }
    }
}

/// Declares the parameters of a function, as its first variables, and finds the first breach in
/// them; `start` declarations are in reach before them.
pub fn declare_params(
    alloc: Global,
    locals: &mut Locals,
    start: usize,
    all: &[RawParam],
) -> Result<Option<Fault>, AllocError>
    requires { IsTable locals.old.scope }
    ensures table { OnOk result (IsTable locals.new.scope) }
    ensures env { OnOk result (env locals.new ≡ spec.declare_params all.now (env locals.old)) }
    ensures fault { IfOk result (λ found. found ≡ first (spec.params_faults start all.now (env locals.old))) }
{
    let mut found = None;
    for x in all {
        let one = declare_param(alloc, locals, start, x)?;
        found = earlier(found, one);
    }
    Ok(found)
}

fn place_of_param(param: &RawParam) -> Place
    ensures { result ≡ spec.place_of_param param.now }
{
    match &param.name {
        None => param.ty.at,
        Some(name) => name.at,
    }
}

// The ninth parameter.
fn past_params(params: &[RawParam]) -> Option<Fault>
    ensures { result ≡ first (fault.over 8 which.Parameters (map spec.place_of_param params.now)) }
{
    match params.get(8) {
        None => None,
        Some(x) => breach(NameKind::TooMany(Which::Parameters), place_of_param(x)),
    }
}

// The first place past a limit.
fn past(limit: usize, what: Which, places: &[Place]) -> Option<Fault>
    ensures { result ≡ first (fault.over limit what places.now) }
{
    match places.get(limit) {
        None => None,
        Some(place) => breach(NameKind::TooMany(what), *place),
    }
}

fn function_faults(
    alloc: Global,
    locals: &mut Locals,
    head: &RawResult,
    params: &[RawParam],
    body: &[RawStmt],
) -> Result<Option<Fault>, AllocError>
    requires { IsTable locals.old.scope }
    ensures table { OnOk result (IsTable locals.new.scope) }
    ensures declared { OnOk result (locals.new.scope.declared ≡ locals.old.scope.declared) }
    ensures fault { IfOk result (λ found. found ≡ first (spec.function_faults locals.old.scope.declared head.now params.now body.now)) }
{
    let start = locals.scope.declared.len();
    locals.variables = Items::new(alloc);
    let doubles = declare_params(alloc, locals, start, params)?;
    let inside = statements(alloc, locals, has_value(head), start, body)?;
    let variables = past(200, Which::Variables, locals.variables.as_slice());
    locals.leave(alloc, start)?;
    Ok(earlier(
        doubles,
        earlier(inside, earlier(past_params(params), variables)),
    ))
}

fn item_faults(
    alloc: Global,
    locals: &mut Locals,
    item: &RawItem,
) -> Result<Option<Fault>, AllocError>
    requires { IsTable locals.old.scope }
    ensures table { OnOk result (IsTable locals.new.scope) }
    ensures declared { OnOk result (locals.new.scope.declared ≡ locals.old.scope.declared) }
    ensures fault { IfOk result (λ found. found ≡ first (spec.item_faults locals.old.scope.declared item.now.kind)) }
{
    match &item.kind {
        RawItemKind::Globals(_, all) => Ok(globals_faults(&locals.scope, all.as_slice())),
        RawItemKind::Registers(_, all) => Ok(registers_faults(&locals.scope, all.as_slice())),
        RawItemKind::Function(head, params, body) => {
            function_faults(alloc, locals, head, params_of(params), body.as_slice())
        }
        RawItemKind::Proto(_, _) => Ok(None),
    }
}

fn items_faults(
    alloc: Global,
    locals: &mut Locals,
    items: &[RawItem],
) -> Result<Option<Fault>, AllocError>
    requires { IsTable locals.old.scope }
    ensures { IfOk result (λ found. found ≡ first (spec.items_faults locals.old.scope.declared items.now)) }
{
    let mut found = None;
    for x in items {
        let one = item_faults(alloc, locals, x)?;
        found = earlier(found, one);
    }
    Ok(found)
}

fn is_main(item: &RawItem) -> bool
    ensures { result ≡ spec.is_main item.now.kind }
{
    match &item.kind {
        RawItemKind::Function(head, params, _) => {
            name_of_head(head).bytes.as_slice() == b"main".as_slice()
                && params_of(params).len() == 0
        }
        _ => false,
    }
}

fn has_main(items: &[RawItem]) -> bool
    ensures { result ≡ spec.has_main items.now }
{
    items.iter().any(is_main)
}

fn limits_faults(globals: &[Place], functions: &[Place], registers: &[Place]) -> Option<Fault>
    ensures { result ≡ first (spec.limits_faults (record { declared = []; globals = globals.now; registers = registers.now; functions = functions.now })) }
{
    let globals = past(4_096, Which::Globals, globals);
    let functions = past(1_000, Which::Functions, functions);
    earlier(
        globals,
        earlier(functions, past(8, Which::Registers, registers)),
    )
}

// What is broken in the number of nodes.
fn nodes_fault(raw: &RawProgram) -> Option<Fault>
    ensures { result ≡ first (fault.when (nat_lt 65536 (nodes_of_items_spec raw.now.items)) (kinds.TooMany which.Nodes) raw.now.end) }
{
    when(
        nodes_of_items(raw.items.as_slice()) > 65_536,
        NameKind::TooMany(Which::Nodes),
        raw.end,
    )
}

fn end_faults(raw: &RawProgram) -> Option<Fault>
    ensures { result ≡ first (spec.end_faults raw.now) }
{
    earlier(
        nodes_fault(raw),
        when(!has_main(raw.items.as_slice()), NameKind::NoMain, raw.end),
    )
}

/// The first breach of the rules of names and types, by place and then by kind, where there is
/// one. It fails for want of memory alone.
pub fn first_fault(alloc: Global, raw: &RawProgram) -> Result<Option<Fault>, AllocError>
    ensures found { IfOk result (λ found. found ≡ first (spec.program_faults raw.now)) }
    ensures first { IfOk result (fault.IsFirstOf (spec.program_faults raw.now)) }
{
    let mut file = empty_file(alloc);
    let again = enter_all(alloc, &mut file, raw.items.as_slice())?;
    let File {
        scope,
        globals,
        registers,
        functions,
    } = file;
    let limits = limits_faults(
        globals.as_slice(),
        functions.as_slice(),
        registers.as_slice(),
    );
    let mut locals = Locals {
        scope,
        variables: Items::new(alloc),
    };
    let inside = items_faults(alloc, &mut locals, raw.items.as_slice())?;
    Ok(earlier(again, earlier(inside, earlier(limits, end_faults(raw)))))
}
