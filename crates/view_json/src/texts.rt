//! The texts of moves, each as a string, written again where it was among the last few: first the last of all is asked.

ghost use Rattle.std.specs.Prelude.{◌≡◌, ◌<◌, Bool, true, false, [], All, length};
ghost use Rattle.promela_run.specs.declared.moves.Move.TheVariants.{Alone, Pair};
ghost use Rattle.std.specs.List.{flat_map, position};
ghost use Rattle.promela_run.specs.State.{State};
ghost use Rattle.promela_run.specs.World.{move_text};
ghost use Rattle.view_tokens.specs.Printed.{Writes};
ghost use Rattle.view_json.specs.Objects.{text};
ghost use Rattle.view_json.specs.Texts.{Reads, TellsMove, IsLine, same_parts};
ghost use Rattle.view_json.specs.Places.{passes_at};

use crate::known::text_at;
use crate::objects::whole;
use crate::singles::{behind, most_of};
use promela_run::moves::{Move, Pick};
use run_state::live::Live;
use run_texts::texts::add_move;
use std::alloc::Global;
use view_text::writer::Writer;
use view_tokens::tokens::Json;

/// Of what a move has its text: a process and the text of its offer, and those of a receiver, or no text.
#[derive(Clone, Copy)]
struct Parts<'p> {
    first: usize,
    text: &'p [u8],
    second: usize,
    reply: &'p [u8],
}

/// What was written of a move that has these parts; where the first has no text, nobody knows of what.
#[derive(Drop)]
struct Line {
    first: usize,
    text: Vec<u8>,
    second: usize,
    reply: Vec<u8>,
    written: Json,
}

impl Line {
    // Nothing was written.
    fn new(alloc: Global) -> Line
        ensures { result.text.items ≡ [] }
    {
        Line {
            first: 0,
            text: Vec::new(alloc),
            second: 0,
            reply: Vec::new(alloc),
            written: Json::new(alloc),
        }
    }
}

// None that are known.
fn no_parts<'p>() -> Parts<'p>
    ensures { result.text.now ≡ [] }
{
    Parts {
        first: 0,
        text: &[],
        second: 0,
        reply: &[],
    }
}

// The parts of a move of one process.
fn parts_alone<'p>(live: &Live<'p, '_>, pick: Pick) -> Parts<'p>
    ensures { (is_late : Bool) → TellsMove live.now.state (Alone pick is_late) result }
{
    Parts {
        first: pick.process,
        text: text_at(live, pick),
        second: 0,
        reply: &[],
    }
}

// The parts of a rendezvous.
fn parts_of_pair<'p>(live: &Live<'p, '_>, sender: Pick, receiver: Pick) -> Parts<'p>
    ensures { (is_late : Bool) → TellsMove live.now.state (Pair sender receiver is_late) result }
{
    let reply = text_at(live, receiver);
    if reply.is_empty() {
        return no_parts();
    }
    Parts {
        first: sender.process,
        text: text_at(live, sender),
        second: receiver.process,
        reply,
    }
}

fn parts_of<'p>(live: &Live<'p, '_>, m: Move) -> Parts<'p>
    ensures { TellsMove live.now.state m result }
{
    match m {
        Move::Death(_) => no_parts(),
        Move::Alone(pick, _) => parts_alone(live, pick),
        Move::Pair(sender, receiver, _) => parts_of_pair(live, sender, receiver),
    }
}

// Whether what was written is of these parts, which are known.
fn are_same(line: &Line, parts: &Parts<'_>) -> bool
    ensures { result ≡ same_parts line.now parts.now }
{
    line.text.len() != 0
        && line.first == parts.first
        && line.second == parts.second
        && line.text.as_slice() == parts.text
        && line.reply.as_slice() == parts.reply
}

// Bytes in the place of others: whether memory was there for them.
fn is_kept(memory: &mut Vec<u8>, bytes: &[u8]) -> bool
    ensures { result ≡ true → memory.new.items ≡ bytes.now }
{
    memory.clear();
    memory.extend_from_slice(bytes).is_ok()
}

// Keeps of what parts a line is.
fn keep(parts: Parts<'_>, line: &mut Line)
    ensures line { (0 < length line.new.text.items) → IsLine line.new parts.entry }
    ensures written { line.new.written ≡ line.old.written }
{
    line.first = parts.first;
    line.second = parts.second;
    if !is_kept(&mut line.reply, parts.reply) || !is_kept(&mut line.text, parts.text) {
        line.text.clear();
    }
}

// Writes the text of a move, in the memory of a line that is begun anew.
fn move_text(live: &Live<'_, '_>, json: &mut Json, m: Move, line: &mut Writer)
    ensures { Writes json.old json.new (text (move_text live.now.state m)) }
{
    line.clear();
    let mut bytes = line.take();
    let answer = add_move(live, m, &mut bytes);
    line.put(bytes, answer);
    whole(json, line);
}

// Writes the text of a move anew.
fn renew(live: &Live<'_, '_>, m: Move, parts: Parts<'_>, last: &mut Line, memory: &mut Writer)
    requires { TellsMove live.now.state m parts }
    ensures reads { Reads live.now.state last.new }
    ensures written { last.new.written.refused ≡ false → last.new.written.tokens ≡ text (move_text live.now.state m) }
{
    last.written.clear();
    move_text(live, &mut last.written, m, memory);
    keep(parts, last);
}

// Writes the text of a move that has these parts, where it is not the same as before.
fn settle(live: &Live<'_, '_>, m: Move, parts: Parts<'_>, last: &mut Line, memory: &mut Writer)
    requires reads { Reads live.now.state last.old }
    requires tells { TellsMove live.now.state m parts }
    ensures reads { Reads live.now.state last.new }
    ensures written { last.new.written.refused ≡ false → last.new.written.tokens ≡ text (move_text live.now.state m) }
{
    if are_same(last, &parts) {
        return;
    }
    renew(live, m, parts, last, memory);
}

// Writes the text of a move that has these parts, where this was written before.
fn add_line(
    live: &Live<'_, '_>,
    json: &mut Json,
    m: Move,
    parts: Parts<'_>,
    last: &mut Line,
    memory: &mut Writer,
)
    requires reads { Reads live.now.state last.old }
    requires tells { TellsMove live.now.state m parts }
    ensures reads { Reads live.now.state last.new }
    ensures written { Writes json.old json.new (text (move_text live.now.state m)) }
{
    settle(live, m, parts, last, memory);
    json.join(&last.written);
}

// The texts that were written last, the place of the last of all, and memory for one more.
#[derive(Drop)]
struct Lines {
    all: Vec<Line>,
    at: usize,
    most: usize,
    memory: Writer,
}

impl Lines {
    // None yet, of so many that are to be written.
    fn new(alloc: Global, count: usize) -> Lines
        ensures { result.all.items ≡ [] }
    {
        Lines {
            all: Vec::new(alloc),
            at: 0,
            most: most_of(count),
            memory: Writer::new(alloc),
        }
    }
}

// Whether what stands at a place has these parts.
fn is_at(all: &[Line], at: usize, parts: &Parts<'_>) -> bool
    ensures { result ≡ passes_at (λ line. same_parts line parts.now) all.now at }
{
    match all.get(at) {
        Some(line) => are_same(line, parts),
        None => false,
    }
}

// The place of a text that has these parts.
fn place_of(all: &[Line], parts: &Parts<'_>) -> Option<usize>
    ensures { result ≡ position (λ line. same_parts line parts.now) all.now }
{
    for at in 0..all.len() {
        if is_at(all, at, parts) {
            return Some(at);
        }
    }
    None
}

// A place for one more: a new one, or where there are enough that of the one that was written first.
fn make_place(last: &mut Lines) -> usize
    ensures { (s : State) → All (Reads s) last.old.all.items → All (Reads s) last.new.all.items }
{
    let len = last.all.len();
    if len < last.most {
        let one = Line::new(*last.all.allocator());
        return match last.all.push(one) {
            Ok(()) => len,
            Err(_) => len,
        };
    }
    behind(last.at, len)
}

// The place for a text that has these parts.
fn place_for(parts: &Parts<'_>, last: &mut Lines) -> usize
    ensures { (s : State) → All (Reads s) last.old.all.items → All (Reads s) last.new.all.items }
{
    match place_of(last.all.as_slice(), parts) {
        Some(at) => at,
        None => make_place(last),
    }
}

// Writes the text of a move that has these parts at a place.
fn add_at(
    live: &Live<'_, '_>,
    json: &mut Json,
    m: Move,
    parts: Parts<'_>,
    at: usize,
    last: &mut Lines,
)
    requires read { All (Reads live.now.state) last.old.all.items }
    requires tells { TellsMove live.now.state m parts }
    ensures read { All (Reads live.now.state) last.new.all.items }
    ensures written { Writes json.old json.new (text (move_text live.now.state m)) }
{
    last.at = at;
    if at < last.all.len() {
        add_line(live, json, m, parts, &mut last.all[at], &mut last.memory);
    } else {
        json.refuse();
    }
}

// Writes the text of a move that has these parts, where this was written before: first the last of all is asked.
fn add_parts(live: &Live<'_, '_>, json: &mut Json, m: Move, parts: Parts<'_>, last: &mut Lines)
    requires read { All (Reads live.now.state) last.old.all.items }
    requires tells { TellsMove live.now.state m parts }
    ensures read { All (Reads live.now.state) last.new.all.items }
    ensures written { Writes json.old json.new (text (move_text live.now.state m)) }
{
    let at = last.at;
    if at < last.all.len() {
        let line = &last.all[at];
        if are_same(line, &parts) {
            return json.join(&line.written);
        }
    }
    let at = place_for(&parts, last);
    add_at(live, json, m, parts, at, last);
}

// Writes the text of a move, where this was written before.
fn add_text(live: &Live<'_, '_>, json: &mut Json, m: Move, last: &mut Lines)
    requires { All (Reads live.now.state) last.old.all.items }
    ensures read { All (Reads live.now.state) last.new.all.items }
    ensures written { Writes json.old json.new (text (move_text live.now.state m)) }
{
    let parts = parts_of(live, m);
    add_parts(live, json, m, parts, last);
}

/// Writes the texts of moves.
pub(crate) fn move_texts(live: &Live<'_, '_>, json: &mut Json, moves: &[Move])
    ensures { Writes json.old json.new (flat_map (λ m. text (move_text live.now.state m)) moves.now) }
{
    let mut last = Lines::new(json.allocator(), moves.len());
    for m in moves {
        add_text(live, json, *m, &mut last);
    }
}
