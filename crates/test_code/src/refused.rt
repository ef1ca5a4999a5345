//! Growths that may be refused: each test passes with memory enough, and where any one growth of it is refused.
ghost use Rattle.std.specs.Prelude.{◌≡◌, ◌+◌, [], ◌∷◌, IfSome};
ghost use Rattle.run_start.specs.Bound.{cells_of};
ghost use Rattle.pml_program.specs.declared.form.Form.TheVariants.{Plain};
ghost use Rattle.pml_tree.specs.declared.tree.Scalar.TheVariants.{Byte, Short};

use crate::beginnings::begun_whole;
use crate::compare::same;
use crate::limits::sizes_of;
use crate::parts::{all, constants, globals, of_three, only, seen, taken, variable, variables};
use diagnostics::Stop;
use pml_channel::channel::Channel;
use pml_program::expr::{Expr, Target, Want};
use pml_program::program::{Action, Program, Slot};
use pml_store::store::Store;
use pml_tree::tree::{Removal, Scalar, Search, SendOrder};
use pml_value::few::{FewFields, FewSought};
use pml_value::message::{address_few, put_at};
use pml_value::receive::{ask_few, take_from};
use pml_value::statement::outcome;
use promela_process::place::Place;
use promela_run::live_channel::LiveChannel;
use run_printf::string::printed;
use run_start::Beginnings;
use run_start::create::create;
use run_start::started::Started;
use sqlite_items::Items;
use std::alloc::{AllocError, Global};
use std::process::Abort;

const NUMBER: Place = Place {
    frame: 0,
    variable: 0,
    cell: 0,
};

/// A frame is added with its cells, or none of them is.
fn adds_a_frame<R: Abort>(rt: &R, store: &mut Store)
    requires { store.old.most ≡ 27 }
    ensures { store.new.most ≡ 27 }
{
    let before = store.cells().len();
    if before > 24 {
        return;
    }
    let added = store.push_frame(&[2, 1]).is_ok();
    let more = if added { 3 } else { 0 };
    let cells = store.cells().len();
    same(rt, "a frame", "its cells", cells, before.wrapping_add(more));
    same(rt, "a frame", "written", store.written().len(), 0);
}

#[test]
fn frames(rt: HostRuntime) {
    let mut store = Store::new(rt.alloc(), 27);
    for _frame in 0..9u8 {
        adds_a_frame(&rt, &mut store);
    }
}

/// A number is stored and noted, or neither.
fn stores<R: Abort>(rt: &R, store: &mut Store, number: i32, held: i32) -> i32 {
    if store.size(0, 0) == 0 {
        return held;
    }
    let noted = store.written().len();
    let stored = store.set(NUMBER, number).is_ok();
    let held = if stored { number } else { held };
    same(
        rt,
        "a number",
        "the cells",
        store.cells().as_slice(),
        &[held],
    );
    let more = usize::from(stored);
    let written = store.written().len();
    same(rt, "a number", "noted", written, noted.wrapping_add(more));
    held
}

#[test]
fn numbers(rt: HostRuntime) {
    let mut store = Store::new(rt.alloc(), 1);
    if store.push_frame(&[1]).is_ok() {
        let mut held = 0;
        for number in 1..20i32 {
            held = stores(&rt, &mut store, number, held);
        }
    }
}

fn left_as_it_was<R: Abort>(rt: &R, channel: &Channel, first: &[i32], second: &[i32]) {
    if channel.len() == 2 {
        same(
            rt,
            "a channel",
            "its first message",
            channel.message(0),
            first,
        );
        same(
            rt,
            "a channel",
            "its second one",
            channel.message(1),
            second,
        );
    } else {
        same(rt, "a channel", "its messages", channel.len(), 0);
    }
}

/// A message is sent, or the channel is left as it was.
fn sends<R: Abort>(rt: &R, channel: &mut Channel)
    requires { channel.old ≡ record { capacity = 3; types = Plain Byte ∷ Plain Short ∷ []; messages = [] } }
{
    if channel.send(&[257, 40_000]).is_err() {
        left_as_it_was(rt, channel, &[], &[]);
        return;
    }
    if channel.send(&[3, 7]).is_err() {
        same(rt, "a channel", "its messages", channel.len(), 1);
        return;
    }
    if channel.send_sorted(&[2, 0]).is_err() {
        left_as_it_was(rt, channel, &[1, -25_536], &[3, 7]);
        return;
    }
    same(rt, "a channel", "its messages", channel.len(), 3);
    let second: &[i32] = &[2, 0];
    same(
        rt,
        "a channel",
        "its second one",
        channel.message(1),
        second,
    );
}

#[test]
fn messages(rt: HostRuntime) {
    if let Ok(mut channel) = of_three(rt.alloc()) {
        sends(&rt, &mut channel);
    }
}

/// `x++`.
fn counted(alloc: Global) -> Result<Items<Action<'static>>, AllocError> {
    let target = variable(alloc, 0, Scalar::Byte);
    all(alloc, [Action::Increment(target)])
}

/// A statement is taken, or it stores nothing.
fn takes<R: Abort>(rt: &R, store: &mut Store, action: &Action<'_>, held: i32) -> i32 {
    let next = held.wrapping_add(1);
    let goes = outcome(action, &seen(&*store, &[]));
    match taken(store, goes) {
        Ok(()) => {
            same(rt, "x++", "counts", store.cells().as_slice(), &[next]);
            next
        }
        Err(stop) => {
            same(rt, "x++", "is refused", stop, Stop::Memory);
            same(
                rt,
                "x++",
                "stores nothing",
                store.cells().as_slice(),
                &[held],
            );
            held
        }
    }
}

/// The same, often.
fn counts<R: Abort>(rt: &R, alloc: Global, action: &Action<'_>) {
    let mut store = Store::new(alloc, 1);
    if store.push_frame(&[1]).is_err() {
        return;
    }
    let mut held = 0;
    for _step in 0..20u8 {
        held = takes(rt, &mut store, action, held);
    }
}

#[test]
fn statements(rt: HostRuntime) {
    if let Ok(actions) = counted(rt.alloc()) {
        counts(&rt, rt.alloc(), actions.get(0).expect(&rt, "x++"));
    }
}

/// There is a first state, or memory was refused.
#[test]
fn first_states(rt: HostRuntime) {
    match begun_whole(rt.alloc()) {
        Ok(cells) => same(&rt, "a first state", "its cells", cells, 8),
        Err(stop) => same(&rt, "a first state", "is refused", stop, Stop::Memory),
    }
}

/// A message goes through a channel, or memory was refused: then it stands where it stood.
fn goes_through<R: Abort>(
    rt: &R,
    store: &mut Store,
    channels: &mut [LiveChannel],
    q: &Target,
    wants: &[Want; 2],
) {
    let fields = [Expr::Number(300), Expr::Number(7)];
    let mut numbers = FewFields::new();
    let Ok(at) = address_few(q, &fields, &seen(&*store, &*channels), &mut numbers) else {
        return;
    };
    if put_at(channels, at, SendOrder::Sorted, numbers.as_slice()).is_err() {
        return;
    }
    let mut asked = FewSought::new();
    let Ok(at) = ask_few(q, wants, &seen(&*store, &*channels), &mut asked) else {
        return;
    };
    let how = Removal::Remove;
    if take_from(store, channels, at, Search::First, how, asked.as_slice()).is_err() {
        let cells: &[i32] = &[1, 0, 0, 0, 0];
        same(
            rt,
            "a message",
            "the cells",
            store.cells().as_slice(),
            cells,
        );
    }
}

/// The same through the only channel, into `x`.
fn exchanges<R: Abort>(rt: &R, alloc: Global, channels: &mut [LiveChannel]) {
    let Ok(mut store) = globals(alloc) else {
        return;
    };
    let q = variable(alloc, 0, Scalar::Chan);
    let wants = [Want::Into(variable(alloc, 1, Scalar::Byte)), Want::Anything];
    goes_through(rt, &mut store, channels, &q, &wants);
}

#[test]
fn sent_and_received(rt: HostRuntime) {
    let Ok(channel) = of_three(rt.alloc()) else {
        return;
    };
    let mut channels = [LiveChannel { frame: 0, channel }];
    exchanges(&rt, rt.alloc(), &mut channels);
    same(
        &rt,
        "a message",
        "its channel",
        only(&channels).capacity(),
        3,
    );
}

/// A process is created, or what there was stays.
fn stands<R: Abort>(rt: &R, store: &Store, live: usize, ended: Result<(), Stop>) {
    match ended {
        Ok(()) => {
            same(rt, "a process", "its cells", store.cells().len(), 9);
            same(rt, "a process", "lives", live, 1);
        }
        Err(stop) => {
            let cells = store.cells().as_slice();
            same(rt, "no process", "is refused", stop, Stop::Memory);
            same(rt, "no process", "the cells", cells, &[0]);
            same(rt, "no process", "lives", live, 0);
        }
    }
}

/// How many cells there may be beside those of these variables, with one more.
fn most_cells(variables: &[Slot<'_>]) -> Option<u32>
    ensures { IfSome result (λ n. n ≡ cells_of variables.now + 1) }
{
    sizes_of(variables)?.cells.checked_add(1)
}

/// A process of the proctype with the number 5 is created beside a global.
fn creates<R: Abort>(
    rt: &R,
    alloc: Global,
    beginnings: &Beginnings<'_, '_>,
    variables: &[Slot<'_>],
) {
    let Some(most) = most_cells(variables) else {
        return;
    };
    let mut started = Started {
        store: Store::new(alloc, most),
        channels: Vec::new(alloc),
        sorts: Vec::new(alloc),
    };
    if started.store.push_frame(&[1]).is_err() {
        return;
    }
    let ended = create(beginnings, 5, variables, &[3], &mut started);
    stands(rt, &started.store, started.sorts.len(), ended);
}

/// The same, as far as there is memory for the tables of this model.
fn creates_in<R: Abort>(rt: &R, alloc: Global, program: &Program<'_>, variables: &[Slot<'_>]) {
    if let Ok(beginnings) = Beginnings::new(alloc, program) {
        creates(rt, alloc, &beginnings, variables);
    }
}

/// The same in a model that has nothing.
fn creates_alone<R: Abort>(rt: &R, alloc: Global, variables: &[Slot<'_>]) {
    let program = Program {
        globals: Items::new(alloc),
        constants: Items::new(alloc),
        typedefs: Items::new(alloc),
        proctypes: Items::new(alloc),
    };
    creates_in(rt, alloc, &program, variables);
}

#[test]
fn processes(rt: HostRuntime) {
    if let Ok(variables) = variables(rt.alloc()) {
        creates_alone(&rt, rt.alloc(), variables.as_slice());
    }
}

/// A string is printed behind what is there, or what is there begins as before.
#[test]
fn strings(rt: HostRuntime) {
    let names = constants();
    let Ok(mut text) = Vec::from_slice(rt.alloc(), b"old ") else {
        return;
    };
    let string = b"\"%e %x\\n%%%c %d\"";
    match printed(names.as_slice(), string, &[1, -1, 65, 7], &mut text) {
        Ok(()) => {
            let whole: &[u8] = b"old nak ffffffff\n%A 7";
            same(&rt, "a string", "behind the text", text.as_slice(), whole);
        }
        Err(_) => {
            let begins = text.as_slice().starts_with(b"old ");
            same(&rt, "a string", "begins as before", begins, true);
        }
    }
}
