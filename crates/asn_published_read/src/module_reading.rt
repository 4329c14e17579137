//! Reads the modules of a text (X.680, "module definition"): headers, exports and imports.
ghost use Rattle.std.specs.Prelude.{◌≡◌, ◌<◌, ◌+◌, ℕ, length, OnOk};
ghost use Rattle.asn_published_text.specs.Modules.{StandIn};

use crate::assignments::after_assignments;
use crate::brackets::tokens_of;
use crate::value_forms::has_components;
use asn_published_text::instructions::is_own_reference;
use asn_published_text::modules::{ModuleText, World};
use asn_published_text::token::{Kind, Sign};
use asn_published_text::tokens::{Tokens, next};
use asn_published_text::words::is_reserved;
use asn_published_text::wrong::{TextFault, Wrong};
use std::alloc::Global;
use std::collections::HashMap;

/// The index after the object identifier in braces, where it stands at `at`.
fn after_components(tokens: &Tokens<'_>, at: usize) -> Result<usize, TextFault> {
    if !tokens.is(at, Sign::LeftBrace) {
        Ok(at)
    } else if has_components(tokens, at) {
        Ok(tokens.after(at))
    } else {
        Err(tokens.expected(at, "an object identifier"))
    }
}

/// The index after the identifier of a module, after its name: object identifier, and resource identifier.
fn after_identifier(tokens: &Tokens<'_>, from: usize) -> Result<usize, TextFault> {
    let at = after_components(tokens, from)?;
    if tokens.is_kind(at, Kind::Text) {
        Ok(next(at))
    } else {
        Ok(at)
    }
}

/// What the head of a module says, and the index after its BEGIN.
#[derive(Clone, Copy)]
struct Head {
    automatic: bool,
    extensible: bool,
    is_instructed: bool,
    begin: usize,
}

/// Reads the head of the module at `from`.
fn head_at(tokens: &Tokens<'_>, from: usize) -> Result<Head, TextFault> {
    if !tokens.is_capital(from) || is_reserved(tokens.text(from)) {
        return Err(tokens.expected(from, "the name of a module"));
    }
    let mut at = after_identifier(tokens, next(from))?;
    if !tokens.is_word(at, "DEFINITIONS") {
        return Err(tokens.expected(at, "DEFINITIONS"));
    }
    at = next(at);
    // an encoding reference, as `XER INSTRUCTIONS`
    let mut is_instructed = false;
    if tokens.is_word(next(at), "INSTRUCTIONS") {
        is_instructed = is_own_reference(tokens.text(at));
        at = next(next(at));
    }
    let mut automatic = false;
    if tokens.is_word(next(at), "TAGS") {
        automatic = tokens.is_word(at, "AUTOMATIC");
        if !automatic && !tokens.is_word(at, "EXPLICIT") && !tokens.is_word(at, "IMPLICIT") {
            return Err(tokens.expected(at, "AUTOMATIC, EXPLICIT or IMPLICIT"));
        }
        at = next(next(at));
    }
    let extensible = tokens.is_word(at, "EXTENSIBILITY") && tokens.is_word(next(at), "IMPLIED");
    if extensible {
        at = next(next(at));
    }
    at = tokens.past(at, Sign::Becomes, "::=")?;
    if !tokens.is_word(at, "BEGIN") {
        return Err(tokens.expected(at, "BEGIN"));
    }
    Ok(Head {
        automatic,
        extensible,
        is_instructed,
        begin: next(at),
    })
}

/// The index after a symbol of EXPORTS or IMPORTS, as `Name` or `Name {}`.
fn after_symbol(tokens: &Tokens<'_>, from: usize) -> Result<usize, TextFault> {
    if !tokens.is_kind(from, Kind::Word) {
        return Err(tokens.expected(from, "a name"));
    }
    let at = next(from);
    if !tokens.is(at, Sign::LeftBrace) {
        return Ok(at);
    }
    if tokens.other(at) == next(at) {
        Ok(next(next(at)))
    } else {
        Err(tokens.expected(next(at), "}"))
    }
}

/// The index after EXPORTS and its `;`, where it stands at `from`.
fn after_exports(tokens: &Tokens<'_>, from: usize) -> Result<usize, TextFault> {
    if !tokens.is_word(from, "EXPORTS") {
        return Ok(from);
    }
    let mut at = next(from);
    for _ in 0..tokens.len() {
        if tokens.is(at, Sign::Semicolon) {
            break;
        }
        at = after_symbol(tokens, at)?;
        if !tokens.is(at, Sign::Semicolon) {
            at = tokens.past(at, Sign::Comma, ", or ;")?;
        }
    }
    tokens.past(at, Sign::Semicolon, ";")
}

/// The index after the module that symbols come from, from the index after FROM and its name.
fn after_source(tokens: &Tokens<'_>, from: usize) -> Result<usize, TextFault> {
    let mut at = after_components(tokens, from)?;
    if tokens.is_identifier(at)
        && !tokens.is(next(at), Sign::Comma)
        && !tokens.is_word(next(at), "FROM")
        && at == from
    {
        // a value that is an object identifier
        at = next(at);
    }
    if !tokens.is_word(at, "WITH") {
        return Ok(at);
    }
    if tokens.is_one_of(next(at), &["SUCCESSORS", "DESCENDANTS"]) {
        Ok(next(next(at)))
    } else {
        Err(tokens.expected(next(at), "SUCCESSORS or DESCENDANTS"))
    }
}

/// Takes the module that stands at `at` for the source of symbols, and gives the index after it.
fn after_source_of<'t>(
    tokens: &Tokens<'t>,
    module: &mut ModuleText<'t>,
    symbols: &[&'t str],
    at: usize,
) -> Result<usize, TextFault>
    ensures file { «module».new.file ≡ «module».old.file }
{
    if !tokens.is_capital(at) {
        return Err(tokens.expected(at, "the name of a module"));
    }
    module.sources.push(at)?;
    let source = tokens.text(at);
    for symbol in symbols {
        let only = match module.imports.get(*symbol) {
            Some(other) if *other != Some(source) => None,
            _ => Some(source),
        };
        module.imports.insert(*symbol, only)?;
    }
    after_source(tokens, next(at))
}

/// The index after an imported symbol and its comma.
fn after_import(tokens: &Tokens<'_>, at: usize) -> Result<usize, TextFault> {
    let behind = after_symbol(tokens, at)?;
    if tokens.is(behind, Sign::Comma) {
        Ok(next(behind))
    } else if tokens.is_word(behind, "FROM") {
        Ok(behind)
    } else {
        Err(tokens.expected(behind, ", or FROM"))
    }
}

/// Takes IMPORTS and its `;`, where it stands at `from`, and gives the index after it.
fn after_imports<'t>(
    alloc: Global,
    tokens: &Tokens<'t>,
    module: &mut ModuleText<'t>,
    from: usize,
) -> Result<usize, TextFault>
    ensures file { «module».new.file ≡ «module».old.file }
{
    if !tokens.is_word(from, "IMPORTS") {
        return Ok(from);
    }
    let mut at = next(from);
    let mut symbols: Vec<&'t str> = Vec::new(alloc);
    for _ in 0..tokens.len() {
        if tokens.is(at, Sign::Semicolon) {
            break;
        }
        if tokens.is_word(at, "FROM") {
            at = after_source_of(tokens, module, symbols.as_slice(), next(at))?;
            symbols.clear();
        } else {
            symbols.push(tokens.text(at))?;
            at = after_import(tokens, at)?;
        }
    }
    if !symbols.is_empty() {
        return Err(tokens.expected(at, "FROM"));
    }
    tokens.past(at, Sign::Semicolon, ";")
}

/// Looks at the numbers of a text: one of several digits does not begin with 0 (X.680, "numbers").
fn check_numbers(tokens: &Tokens<'_>) -> Result<(), TextFault> {
    for at in 0..tokens.len() {
        let digits = tokens.text(at);
        if tokens.is_kind(at, Kind::Number) && digits.len() > 1 && digits.starts_with('0') {
            return Err(tokens.expected(at, "a number without leading zeros"));
        }
    }
    Ok(())
}

/// Takes the modules of a text, which is the one after those before.
pub(crate) fn add_text<'t>(
    alloc: Global,
    world: &mut World<'t>,
    text: &'t str,
) -> Result<(), TextFault>
    ensures files { OnOk result (length world.new.files.items ≡ length world.old.files.items + 1) }
    ensures modules { OnOk result (StandIn (length world.old.files.items) world.old.modules.items
        → StandIn (length world.new.files.items) world.new.modules.items) }
{
    let tokens = tokens_of(alloc, text)?;
    let file = world.files.len();
    if tokens.len() == 0 {
        return Err(tokens.expected(0, "the name of a module"));
    }
    let mut at = 0;
    for _ in 0..tokens.len() {
        if at >= tokens.len() {
            break;
        }
        at = add_module(alloc, world, &tokens, file, at)?;
    }
    check_numbers(&tokens)?;
    world.files.push(tokens)?;
    Ok(())
}

/// Takes what stands in a module from BEGIN on, and gives the index after it.
fn add_body<'t>(
    alloc: Global,
    world: &mut World<'t>,
    tokens: &Tokens<'t>,
    module: &mut ModuleText<'t>,
    begin: usize,
) -> Result<usize, TextFault>
    ensures file { «module».new.file ≡ «module».old.file }
    ensures files { world.new.files ≡ world.old.files }
    ensures modules { world.new.modules ≡ world.old.modules }
{
    let index = world.modules.len();
    let imports = after_exports(tokens, begin)?;
    let assignments = after_imports(alloc, tokens, module, imports)?;
    after_assignments(tokens, module, index, &mut world.assignments, assignments)
}

/// Takes the module at `from`, and gives the index after it.
fn add_module<'t>(
    alloc: Global,
    world: &mut World<'t>,
    tokens: &Tokens<'t>,
    file: usize,
    from: usize,
) -> Result<usize, TextFault>
    ensures files { OnOk result (world.new.files ≡ world.old.files) }
    ensures modules { OnOk result ((texts : ℕ) → file < texts → StandIn texts world.old.modules.items
        → StandIn texts world.new.modules.items) }
{
    let head = head_at(tokens, from)?;
    let name = tokens.text(from);
    let index = world.modules.len();
    if world.module_names.insert(name, index)?.is_some() {
        return Err(TextFault::At {
            line: tokens.line(from),
            wrong: Wrong::ModuleTwice,
        });
    }
    let mut module = ModuleText {
        file,
        name,
        automatic: head.automatic,
        extensible: head.extensible,
        is_instructed: head.is_instructed,
        imports: HashMap::new(alloc),
        sources: Vec::new(alloc),
        names: HashMap::new(alloc),
    };
    let at = add_body(alloc, world, tokens, &mut module, head.begin)?;
    world.modules.push(module)?;
    Ok(at)
}
