ghost use Rattle.std.specs.Prelude.{◌≡◌, ◌≢◌, ◌≤◌, ◌+◌, [], length, true, false, Err, OnOk};
ghost use Rattle.curp_io.specs.Streaming.{TellsFault, wrote_of};
ghost use Rattle.curp_base.specs.Words.{Each};
ghost use Rattle.curp_check.specs.Claim.{IsClaimOfOrder};
ghost use Rattle.curp_law_print.specs.EventRanges.{AskedInRange, EventInRange};
ghost use Rattle.curp_script.specs.EventTexts.{claim_lines, event_line, history_lines, order_lines};
ghost use Rattle.curp_msg.specs.Limits.{step_limit};
ghost use Rattle.curp_script.specs.Script.{Whole};
ghost use Rattle.curp_model.specs.World as model;
ghost use Rattle.curp_play.specs.Play.{asked_of, claim_of};
ghost use Rattle.curp_play.specs.Players.{HasClaim, record_says, recorded};
ghost use Rattle.curp_runner.specs.Reading.{script_in};
ghost use Rattle.curp_runner.specs.Status.{EndsWhole, is_cut_short, status_of};
ghost use Rattle.curp_runner.specs.Writing.{PassesOn, PutsText, WritesText};

use crate::play::opened;
use curp_base::NoMemory;
use curp_check::laws::orders_are_short;
use curp_cmd::{Answer, KeptCommand, RequestId};
use curp_io::{Sink, Source};
use curp_law_print::{asked_is_in_range, event_is_in_range, printed_claims_are_read};
use curp_order::KeptEvent;
use curp_print::print_event;
use curp_runner::{Player, Status, close, run, write};
use curp_script::{EventLine, Header, Step};
use curp_world::World;
use curp_world::laws::a_step_is_one_event;
use std::alloc::Global;
use std::marker::Model;

/// Reads a script and plays it, and writes at its end what clients saw and the order of the requests, as lines that
/// `check` reads. It takes no handle, and returns.
///
/// Nothing is written before the end of the script, so where a line is refused, nothing is.
pub fn play_history<S: Source, K: Sink>(alloc: Global, source: &mut S, sink: &mut K) -> Status
    // It ends as the script does.
    ensures ends { S.tells source.old ≡ true → is_cut_short result ≡ false
        → result ≡ status_of (script_in (S.left source.old)).body.ending }
    ensures end { S.tells source.old ≡ true → result ≡ Status.Ok → S.left source.new ≡ [] }
    ensures complete { S.tells source.old ≡ true → (script_in (S.left source.old)).body.ending ≡ Whole
        → EndsWhole result (S.faults source.old) (S.faults source.new) (K.faults sink.old) (K.faults sink.new) }

    // It writes the lines of the history and of the order, and passes them on.
    ensures wrote { S.tells source.old ≡ true → WritesText (claim_of (script_in (S.left source.old)))
        (wrote_of K.tells K.held K.flushed K.faults sink.old sink.new) result }
    ensures passes_on { PassesOn (wrote_of K.tells K.held K.flushed K.faults sink.old sink.new) result }

    // These lines are read back as a history and an order of it, so `check` says yes.
    ensures claim { S.tells source.old ≡ true → result ≡ Status.Ok
        → IsClaimOfOrder (claim_of (script_in (S.left source.old))) }

    // A fault comes exactly where the count of faults rose first.
    ensures read_fault { TellsFault (result ≡ Status.ReadFault) (S.faults source.old) (S.faults source.new) }
    ensures write_fault { TellsFault (result ≡ Status.WriteFault) (K.faults sink.old) (K.faults sink.new) }
    ensures never_usage { result ≢ Status.Usage }
{
    let played = run::<Recorder, S, K>(alloc, source, sink);
    close(sink, played)
}

/// A world of which nothing is written before its end.
#[derive(Drop)]
struct Recorder {
    world: Box<World>,
}

impl Model for Recorder {
    ghost Value = { model.World };

    ghost view = { λ r. r.world.value };
}

impl Player for Recorder {
    type Line = Step;

    ghost rules = { recorded };

    ghost Fits = { λ number w. length w.history + 1 ≤ number };

    ghost Holds = { HasClaim };

    ghost ending = { λ bytes. (script_in bytes).body.ending };

    ghost script_text = { λ bytes. claim_of (script_in bytes) };

    ghost line_texts = { λ _. [] };

    ghost Stands = { λ bytes. IsClaimOfOrder (claim_of (script_in bytes)) };

    fn open(alloc: Global, header: &Header) -> Result<Recorder, NoMemory> {
        let world = opened(alloc, header)?;
        Ok(Recorder { world })
    }

    fn do_line(
        mut self,
        _number: u64,
        step: &Step,
        _text: &mut String,
    ) -> Result<Recorder, NoMemory> {
        match make_step(&mut self.world, step) {
            Ok(()) => Ok(self),
            Err(reason) => {
                drop(self);
                Err(reason)
            }
        }
    }

    fn write_end<K: Sink>(&self, alloc: Global, _number: u64, sink: &mut K) -> Result<(), Status> {
        write_claim(alloc, &self.world, sink)
    }

    ghost says = { record_says };
}

/// Makes a step. It adds one event at most to what clients saw.
fn make_step(world: &mut World, step: &Step) -> Result<(), NoMemory>
    ensures made { OnOk result (world.new ≡ (model.step world.old step.now).world) }
    ensures one { OnOk result (length world.new.history ≤ length world.old.history + 1) }
{
    a_step_is_one_event();
    match world.step(step) {
        Ok(_) => Ok(()),
        Err(reason) => Err(reason),
    }
}

/// Writes what clients saw in the world, and its order, as lines.
fn write_claim<K: Sink>(alloc: Global, world: &World, sink: &mut K) -> Result<(), Status>
    requires { length world.now.history ≤ step_limit }
    ensures puts { PutsText (claim_lines world.now.history (model.order world.now))
        (wrote_of K.tells K.held K.flushed K.faults sink.old sink.new) result }
    ensures claim { OnOk result (IsClaimOfOrder (claim_lines world.now.history (model.order world.now))) }
{
    printed_claims_are_read();
    orders_are_short();
    let order = world.order(alloc)?;
    write_events(alloc, world.history().events(), sink)?;
    write_order(alloc, &order, sink)
}

/// Writes the lines of events.
fn write_events<K: Sink>(alloc: Global, events: &[KeptEvent], sink: &mut K) -> Result<(), Status>
    ensures puts { PutsText (history_lines events.now)
        (wrote_of K.tells K.held K.flushed K.faults sink.old sink.new) result }
    ensures in_range { OnOk result (Each EventInRange events.now) }
{
    for kept in events {
        let event = kept.event();
        event_is_in_range(&event);
        write_line(alloc, &EventLine::Event(event), sink)?;
    }
    Ok(())
}

/// Writes the lines of the requests of an order, each with its answer.
fn write_order<K: Sink>(
    alloc: Global,
    order: &[(RequestId, KeptCommand, Answer)],
    sink: &mut K,
) -> Result<(), Status>
    ensures puts { PutsText (order_lines (asked_of order.now))
        (wrote_of K.tells K.held K.flushed K.faults sink.old sink.new) result }
    ensures in_range { OnOk result (Each AskedInRange (asked_of order.now)) }
{
    for (id, command, _) in order {
        asked_is_in_range(id, command);
        let line = EventLine::Place {
            id: *id,
            command: **command,
        };
        write_line(alloc, &line, sink)?;
    }
    Ok(())
}

/// Writes a line, with a line feed.
fn write_line<K: Sink>(alloc: Global, line: &EventLine, sink: &mut K) -> Result<(), Status>
    ensures { PutsText (event_line line.now) (wrote_of K.tells K.held K.flushed K.faults sink.old sink.new) result }
{
    let mut text = print_event(alloc, line)?;
    text.extend_from_slice(b"\n")?;
    write(sink, &text)
}
