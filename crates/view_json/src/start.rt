//! The line of the first state.

ghost use Rattle.std.specs.Prelude.{◌≡◌, ◌++◌, false, OnOk, codes};
ghost use Rattle.std.specs.List.{flat_map};
ghost use Rattle.promela_run.specs.Lines.{proctype_name};
ghost use Rattle.promela_run.specs.Moves.{moves as all_moves};
ghost use Rattle.view_tokens.specs.Printed.{Writes};
ghost use Rattle.view_json.specs.Objects.{text, member, cells};
ghost use Rattle.view_json.specs.Shown.{Told};
ghost use Rattle.view_json.specs.Steps.{named, proctype, proctypes, heading, start, TellsStart};
ghost use Rattle.view_json.specs.Added.{telling, AddsStart};

use crate::changed::{Behind, Shown};
use crate::lines::begin;
use crate::objects::{all_cells, number, written};
use crate::steps::add_objects;
use pml_program::program::Proctype;
use promela_run::moves::Move;
use run_state::live::Live;
use std::alloc::{AllocError, Global};
use view_text::writer::Writer;
use view_tokens::tokens::Json;

// Writes the name of a proctype.
fn proctype_name(proctype: &Proctype<'_>, json: &mut Json)
    ensures { Writes json.old json.new (named proctype.now) }
{
    let mut name = Writer::new(json.allocator());
    let mut bytes = name.take();
    let answer = run_values::change::proctype_name(&proctype.name, &mut bytes);
    name.put(bytes, answer);
    written(json, "name", &name);
}

// Writes a proctype: its name, and the line of its closing brace.
fn proctype(one: &Proctype<'_>, json: &mut Json)
    ensures { Writes json.old json.new (proctype one.now) }
{
    json.begin_object();
    proctype_name(one, json);
    number(json, "end", one.end.line() as usize);
    json.end_object();
}

fn each_proctype(proctypes: &[Proctype<'_>], json: &mut Json)
    ensures { Writes json.old json.new (flat_map proctype proctypes.now) }
{
    for one in proctypes {
        proctype(one, json);
    }
}

fn proctypes(live: &Live<'_, '_>, json: &mut Json)
    ensures { Writes json.old json.new (proctypes live.now.state.program) }
{
    json.key("proctypes");
    json.begin_array();
    each_proctype(live.program().proctypes.as_slice(), json);
    json.end_array();
}

// Writes the globals.
fn globals(live: &Live<'_, '_>, json: &mut Json)
    ensures { Writes json.old json.new (member (codes "globals") (cells live.now.state 0)) }
{
    json.key("globals");
    all_cells(live, json, 0);
}

// Writes what stands between the name of the event and the channels.
fn heading(live: &Live<'_, '_>, json: &mut Json, model: &str, is_lossy: bool)
    ensures { Writes json.old json.new (heading live.now.state model.now is_lossy) }
{
    number(json, "format", 1);
    json.key("model");
    json.string(model);
    json.key("lossy");
    json.boolean(is_lossy);
    proctypes(live, json);
    globals(live, json);
}

fn start(live: &Live<'_, '_>, alloc: Global, model: &str, is_lossy: bool) -> Json
    ensures { result.refused ≡ false → result.tokens ≡ start live.now.state model.now is_lossy }
{
    let mut json = begin(alloc, "start");
    heading(live, &mut json, model, is_lossy);
    json
}

/// Writes the line of the first state.
pub fn add_start(
    live: &Live<'_, '_>,
    model: &str,
    is_lossy: bool,
    moves: &[Move],
    shown: &mut Shown,
    out: &mut Writer,
) -> Result<(), AllocError>
    ensures { OnOk result (AddsStart (telling out.old shown.old) (telling out.new shown.new)
        live.now.state moves.now model.now is_lossy) }
{
    start(live, out.allocator(), model, is_lossy).finish(out);
    let behind = Behind {
        moves,
        older: 0,
        changes: &[],
    };
    add_objects(live, behind, true, shown, out)?;
    out.add(b"}\n");
    Ok(())
}
