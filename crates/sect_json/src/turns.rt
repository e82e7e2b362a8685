//! The turns of a schedule, as JSON.

ghost use Rattle.std.specs.Prelude.{◌≡◌, ◌<◌, [], IfOk, IfErr, OnOk, length, map, slice_index_or};
ghost use Rattle.std.specs.String.{string_bytes};
ghost use Rattle.serde_json.specs.View.{view};
ghost use Rattle.sect_front.specs.Front.{IsSpelled};
ghost use Rattle.sect_store.specs.Printing.{state_text as state_by};
ghost use Rattle.sect_emit.specs.Compiled.{program_of};
ghost use Rattle.sect_world.specs.{Schedules.{IsUnrun}, Worlds.{IsRefused}, Standings.{IsStandingThere}};
ghost use Rattle.sect_json.specs.Turns.{TurnView, turn_json, IsTurnsDocument, local_with, local_json, locals_json};
ghost use Rattle.sect_json.specs.Turns.{turns_with, place_at, deed_at, standing_json, end_at as end_by};
ghost use Rattle.sect_json.specs.steps.{Inspected.{IsInspected}, Turning.{IsTurnOf, IsSchedule, told_shown, told_by}};

use crate::changes::changed_values;
use crate::context::Inspected;
use crate::events::{Told, turn_value};
use crate::objects::datum_value;
use crate::outcomes::outcome_value;
use crate::placed_nodes::{origin_at, told_origin};
use crate::writing::document;
use sect_emit::{Compiled, put_graphed_node};
use sect_object::Members;
use sect_places::{LineIndex, node_spans};
use sect_store::{Printer, Work};
use sect_types::{Datum, End, Program};
use sect_world::{Standing, World, WorldFault};
use serde_json::Value;
use std::alloc::{AllocError, Global};

/// The turns of these threads from the start of a compiled program, whose text this is: of each its events, and beside
/// the first the statement that its thread has run, where that stands, the fields that it has changed, and the thread's
/// locals after it; and what the run has come to.
pub fn turns_document(
    alloc: Global,
    source: &[u8],
    compiled: &Compiled,
    fuel: u32,
    schedule: &[u16],
) -> Result<String, WorldFault>
    requires { IsSpelled source.now (program_of compiled.now).source }
    ensures answers { IfOk result (λ text.
        IsTurnsDocument source.now compiled.now fuel schedule.now (string_bytes text)) }
    ensures refuses { IfErr result (λ why. IsUnrun why schedule.now (length (program_of compiled.now).texts)) }
{
    let program = compiled.scheme().program();
    let spans = node_spans(alloc, source, program)?;
    let lines = LineIndex::new(alloc, source)?;
    let of = Inspected {
        source: &lines,
        compiled,
        spans: &spans,
        names: &[],
    };
    let value = schedule_value(alloc, &of, fuel, schedule)?;
    Ok(document(alloc, &value)?)
}

/// All turns, and what they have come to.
fn schedule_value(
    alloc: Global,
    of: &Inspected<'_>,
    fuel: u32,
    schedule: &[u16],
) -> Result<Value, WorldFault>
    requires { IsInspected of.now }
    ensures answers { IfOk result (λ v. IsSchedule of.now fuel schedule.now (view v)) }
    ensures refuses { IfErr result (λ why.
        IsUnrun why schedule.now (length (program_of of.now.compiled.now).texts)) }
{
    let printer = Printer::new(alloc, of.compiled.scheme().program())?;
    let mut world = World::start(alloc, of.compiled, fuel)?;
    let mut turns = Vec::with_capacity(alloc, schedule.len())?;
    for thread in schedule {
        match told_turn(alloc, of, &printer, &mut world, *thread) {
            Ok(turn) => turns.push_reserved(turn),
            Err(fault) => return Err(fault),
        }
    }
    world.facts();
    let run = world.finish();
    let outcome = outcome_value(alloc, &printer, &run.outcome)?;
    Ok(told_schedule(alloc, outcome, turns)?)
}

/// These turns, and what they have come to.
fn told_schedule(alloc: Global, outcome: Value, turns: Vec<Value>) -> Result<Value, AllocError>
    ensures { IfOk result (λ v. view v ≡ turns_with (view outcome) (map view turns.items)) }
{
    let members = Members::new(alloc)
        .with("outcome", outcome)?
        .with("turns", turns)?;
    Ok(members.object())
}

/// The turn of a thread.
fn told_turn(
    alloc: Global,
    of: &Inspected<'_>,
    printer: &Printer<'_>,
    world: &mut World<'_>,
    thread: u16,
) -> Result<Value, WorldFault>
    requires inspected { IsInspected of.now }
    requires printer { printer.now ≡ program_of of.now.compiled.now }
    requires compiled { world.old.compiled ≡ of.now.compiled.now }
    ensures told { IfOk result (λ v. (x : TurnView) × IsTurnOf thread world.old world.new x
        × (view v ≡ turn_json of.now.compiled.now of.now.source.now of.now.spans.now x)) }
    ensures within { OnOk result (thread < length (program_of world.old.compiled).texts) }
    ensures refused { IfErr result (λ fault.
        IsRefused fault thread (length (program_of world.old.compiled).texts)) }
{
    if thread >= world.thread_count() {
        return Err(WorldFault::NoSuchThread(thread));
    }
    let stood = world.standing(thread);
    let fields = changed_values(alloc, printer, world, thread)?;
    let before = world.trace().len();
    match world.turn(thread) {
        Ok(_) => {
            let _count = world.thread_count();
            let events = world.trace().since(alloc, before)?;
            let stands = world.standing(thread);
            let turn = Turn {
                thread,
                stood,
                fields,
                stands,
                work: world.work(thread),
                end: end_at(stands, world.end_of(thread)),
            };
            let told = told_of(alloc, of, turn)?;
            let program = of.compiled.scheme().program();
            Ok(turn_value(alloc, program, told, events.as_slice())?)
        }
        Err(fault) => Err(fault),
    }
}

/// A turn: its thread, where that stood before, the fields that the turn has changed, and where the thread stands, what
/// it works with and how it has ended after it.
#[derive(Drop)]
struct Turn<'a> {
    thread: u16,
    stood: Standing,
    fields: Vec<Value>,
    stands: Standing,
    work: &'a Work,
    end: Option<End>,
}

/// How a thread has come to its end that stands there.
fn end_at(standing: Standing, end: Option<End>) -> Option<End>
    ensures { result ≡ end_by standing end }
{
    match standing {
        Standing::At(_, _) => end,
        Standing::Broken(why) => Some(End::Failed(why)),
    }
}

/// What is told of a turn beside its deed.
fn told_of(alloc: Global, of: &Inspected<'_>, turn: Turn<'_>) -> Result<Told, AllocError>
    requires inspected { IsInspected of.now }
    requires thread { turn.thread < length (program_of of.now.compiled.now).texts }
    requires before { IsStandingThere of.now.compiled.now turn.stood }
    requires after { IsStandingThere of.now.compiled.now turn.stands }
    ensures { IfOk result (λ told. told_shown told
        ≡ told_by of.now.compiled.now of.now.source.now of.now.spans.now turn.entry) }
{
    let Turn {
        thread,
        stood,
        fields,
        stands,
        work,
        end,
    } = turn;
    Ok(Told {
        fields: Value::Array(fields),
        locals: locals_value(alloc, of.compiled, work, thread)?,
        next: standing_value(alloc, of, stands)?,
        place: place_value(alloc, of, stood)?,
        state: state_text(alloc, end)?,
        text: deed_text(alloc, of.compiled, stood)?,
    })
}

/// The locals of a thread, and what they hold.
fn locals_value(
    alloc: Global,
    compiled: &Compiled,
    work: &Work,
    thread: u16,
) -> Result<Value, AllocError>
    requires { thread < length (program_of compiled.now).texts }
    ensures { IfOk result (λ v. view v ≡ locals_json compiled.now work.now thread) }
{
    let program = compiled.scheme().program();
    program.facts();
    let mut values = Vec::new(alloc);
    for local in 0..program.locals()[thread as usize].as_slice().len() as u16 {
        values.push(local_value(alloc, program, work, thread, local)?)?;
    }
    Ok(Value::Array(values))
}

/// A local of a thread, and what it holds.
fn local_value(
    alloc: Global,
    program: &Program,
    work: &Work,
    thread: u16,
    local: u16,
) -> Result<Value, AllocError>
    requires { local < length (slice_index_or program.now.locals thread []) }
    ensures { IfOk result (λ v. view v ≡ local_json program.now work.now thread local) }
{
    let called = program.local_name(thread, local);
    let name = format!(in alloc; "{called}")?;
    told_local(alloc, program, name, work.local(local))
}

/// A local of this name, and what it holds.
fn told_local(
    alloc: Global,
    program: &Program,
    name: String,
    datum: Datum,
) -> Result<Value, AllocError>
    ensures { IfOk result (λ v. view v ≡ local_with program.now (string_bytes name) datum) }
{
    let members = Members::new(alloc)
        .with("name", name)?
        .with_made("value", datum_value(alloc, program, datum))?;
    Ok(members.object())
}

/// What stands where a thread stands, and its place.
fn standing_value(
    alloc: Global,
    of: &Inspected<'_>,
    standing: Standing,
) -> Result<Value, AllocError>
    requires inspected { IsInspected of.now }
    requires there { IsStandingThere of.now.compiled.now standing }
    ensures { IfOk result (λ v. view v
        ≡ standing_json of.now.compiled.now of.now.source.now of.now.spans.now standing) }
{
    let place = place_value(alloc, of, standing)?;
    let members = Members::new(alloc)
        .with("place", place)?
        .with("text", deed_text(alloc, of.compiled, standing)?)?;
    Ok(members.object())
}

/// The place of what stands where a thread stands.
fn place_value(alloc: Global, of: &Inspected<'_>, standing: Standing) -> Result<Value, AllocError>
    requires inspected { IsInspected of.now }
    requires there { IsStandingThere of.now.compiled.now standing }
    ensures { IfOk result (λ v. view v ≡ place_at of.now.source.now of.now.spans.now standing) }
{
    match standing {
        Standing::At(graph, node) => origin_at(alloc, of, graph, node),
        Standing::Broken(_) => told_origin(alloc, Value::Null, Value::Null),
    }
}

/// What stands where a thread stands, as the listing has it.
fn deed_text(alloc: Global, compiled: &Compiled, standing: Standing) -> Result<String, AllocError>
    requires { IsStandingThere compiled.now standing }
    ensures { IfOk result (λ text. string_bytes text ≡ deed_at compiled.now standing) }
{
    match standing {
        Standing::At(graph, node) => {
            let mut text = String::new(alloc);
            put_graphed_node(&mut text, compiled, graph, node)?;
            Ok(text)
        }
        Standing::Broken(_) => String::from_str(alloc, "exit"),
    }
}

/// Whether a thread runs on, or how it has come to its end.
fn state_text(alloc: Global, end: Option<End>) -> Result<String, AllocError>
    ensures { IfOk result (λ text. string_bytes text ≡ state_by end) }
{
    match end {
        None => String::from_str(alloc, "running"),
        Some(end) => format!(in alloc; "{end}"),
    }
}
