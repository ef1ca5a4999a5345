//! What a text declares.

ghost use Rattle.std.specs.Prelude.{◌≡◌, ◌++◌, map, IfOk, OnOk};
ghost use Rattle.serde_json.specs.View.{view};
ghost use Rattle.lsp_results.specs.Symbols.{text_shown, name_of, symbol_of, symbols_of};

use crate::page::{Page, end_of, location};
use crate::sorts::sort_in;
use model_names::{Declaration, TextNames};
use serde_json::{Value, json};
use source_lines::position::between;
use std::alloc::{AllocError, Global};

/// Bytes as a text, which is empty where they are no UTF-8.
pub fn text_shown(bytes: &[u8]) -> &str
    ensures { result.now ≡ text_shown bytes.now }
{
    match str::from_utf8(bytes) {
        Ok(text) => text,
        Err(_) => "",
    }
}

fn name_of<'t>(page: Page<'t>, declaration: &Declaration) -> &'t str
    ensures { result.now ≡ name_of page.entry declaration.now }
{
    let end = end_of(page, declaration.at, declaration.length);
    text_shown(between(page.text, declaration.at, end))
}

fn symbol(
    alloc: Global,
    page: Page<'_>,
    declarations: &[Declaration],
    declaration: &Declaration,
) -> Result<Value, AllocError>
    ensures { IfOk result (λ v. view v ≡ symbol_of page.entry declarations.now declaration.now) }
{
    let name = name_of(page, declaration);
    let kind = sort_in(declarations, declaration).number();
    let location = location(alloc, page, declaration.at, declaration.length)?;
    json!(in alloc; {"name": name, "kind": kind, "location": location})
}

/// Adds declarations, as editors list them.
fn add_symbols(
    list: &mut Vec<Value>,
    alloc: Global,
    page: Page<'_>,
    all: &[Declaration],
    some: &[Declaration],
) -> Result<(), AllocError>
    ensures { OnOk result (map view list.new.items ≡ map view list.old.items ++ map (symbol_of page.entry all.now) some.now) }
{
    for declaration in some {
        list.push(symbol(alloc, page, all, declaration)?)?;
    }
    Ok(())
}

/// What a text declares, as editors list it.
pub fn symbols(alloc: Global, page: Page<'_>, names: &TextNames) -> Result<Value, AllocError>
    ensures { IfOk result (λ v. view v ≡ symbols_of page.entry names.now) }
{
    let mut list = Vec::new(alloc);
    let all = names.declarations.as_slice();
    add_symbols(&mut list, alloc, page, all, all)?;
    add_symbols(
        &mut list,
        alloc,
        page,
        all,
        names.inlines.declarations.as_slice(),
    )?;
    Ok(Value::Array(list))
}
