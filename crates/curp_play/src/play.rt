ghost use Rattle.std.specs.Prelude.{◌≡◌, ◌≢◌, ◌⊎◌, ◌++◌, [], true, false, None, IfOk, OnOk, ⊤, string_bytes};
ghost use Rattle.curp_io.specs.Streaming.{TellsFault, wrote_of};
ghost use Rattle.curp_model.specs.World as model;
ghost use Rattle.curp_play.specs.Play.{HasAnOrder, HoldsWholeLines, OrderStands};
ghost use Rattle.curp_runner.specs.Reading.{script_in};
ghost use Rattle.curp_play.specs.Play.{text_of, texts_of};
ghost use Rattle.curp_play.specs.Players.{play_says, played};
ghost use Rattle.curp_runner.specs.Status.{EndsWhole, is_cut_short, status_of};
ghost use Rattle.curp_runner.specs.Writing.{PassesOn, WritesText};
ghost use Rattle.curp_script.specs.Headers.{bad_field};
ghost use Rattle.curp_script.specs.Script.{Whole};
ghost use Rattle.curp_report.specs.RunText.{made_text};

use curp_base::NoMemory;
use curp_io::{Sink, Source};
use curp_msg::Outcome;
use curp_report::{order_text, push_step_text};
use curp_runner::{Player, Status, close, run, write};
use curp_script::{Header, Step};
use curp_world::World;
use std::alloc::{AllocError, Global};
use std::marker::Model;

/// Reads a script, plays it, and writes what every step did and one order of the requests. It takes no handle, and
/// returns.
///
/// The text of a step is put into the sink before the next line is looked at, and passed on before the source is asked
/// for more. Before a refused line the texts of all earlier steps are written, and no order. Input and output that don't
/// tell their bytes, as the standard streams, still have the promises on faults and on the flush.
pub fn play_script<S: Source, K: Sink>(alloc: Global, source: &mut S, sink: &mut K) -> Status
    // It ends as the script does, read to its end or at the first line that is refused, unless a fault or want of
    // memory cuts it short.
    ensures ends { S.tells source.old ≡ true → is_cut_short result ≡ false
        → result ≡ status_of (script_in (S.left source.old)).body.ending }
    ensures end { S.tells source.old ≡ true → result ≡ Status.Ok → S.left source.new ≡ [] }
    // So a script within the grammar and its limits is played to its end, where there is memory and no fault.
    ensures complete { S.tells source.old ≡ true → (script_in (S.left source.old)).body.ending ≡ Whole
        → EndsWhole result (S.faults source.old) (S.faults source.new) (K.faults sink.old) (K.faults sink.new) }

    // It writes the text of the script, and passes it on.
    ensures wrote { S.tells source.old ≡ true → WritesText (text_of (script_in (S.left source.old)))
        (wrote_of K.tells K.held K.flushed K.faults sink.old sink.new) result }
    ensures passes_on { PassesOn (wrote_of K.tells K.held K.flushed K.faults sink.old sink.new) result }
    // Where reading fails, it has written what the whole lines say that it was given.
    ensures at_fault { S.tells source.old ≡ true → K.tells sink.old ≡ true → result ≡ Status.ReadFault
        → HoldsWholeLines (S.left source.old) (S.left source.new) (K.held sink.old) (K.held sink.new) }
    // Before it waited for more input it had passed on what it wrote.
    ensures passed_on { result ≡ Status.ReadFault → (K.flushed sink.new ≡ true) ⊎ (sink.new ≡ sink.old) }

    // The order that it prints is one of the history: each completed request stands once, each answer is that of one
    // thread, and what completed before another was invoked stands before it.
    ensures order { S.tells source.old ≡ true → result ≡ Status.Ok → HasAnOrder (script_in (S.left source.old)) }

    // A fault comes exactly where the count of faults rose first.
    ensures read_fault { TellsFault (result ≡ Status.ReadFault) (S.faults source.old) (S.faults source.new) }
    ensures write_fault { TellsFault (result ≡ Status.WriteFault) (K.faults sink.old) (K.faults sink.new) }
    ensures never_usage { result ≢ Status.Usage }
{
    let played = run::<Played, S, K>(alloc, source, sink);
    close(sink, played)
}

/// A world that is played, at a place of its own.
#[derive(Drop)]
struct Played {
    world: Box<World>,
}

impl Model for Played {
    ghost Value = { model.World };

    ghost view = { λ p. p.world.value };
}

/// It writes what each step did, and behind them its order.
impl Player for Played {
    type Line = Step;

    ghost rules = { played };

    ghost Fits = { λ _ _. ⊤ };

    ghost Holds = { OrderStands };

    ghost ending = { λ bytes. (script_in bytes).body.ending };

    ghost script_text = { λ bytes. text_of (script_in bytes) };

    ghost line_texts = { λ bytes. texts_of (script_in bytes) };

    ghost Stands = { λ bytes. HasAnOrder (script_in bytes) };

    fn open(alloc: Global, header: &Header) -> Result<Played, NoMemory> {
        let world = opened(alloc, header)?;
        Ok(Played { world })
    }

    fn do_line(mut self, number: u64, step: &Step, text: &mut String) -> Result<Played, NoMemory> {
        match make_step(&mut self.world, number, step, text) {
            Ok(()) => Ok(self),
            Err(reason) => {
                drop(self);
                Err(reason)
            }
        }
    }

    fn write_end<K: Sink>(&self, alloc: Global, _number: u64, sink: &mut K) -> Result<(), Status> {
        // What clients saw is a history, and the order is one of it.
        self.world.history();
        let order = self.world.order(alloc)?;
        let text = order_text(alloc, &order)?;
        write(sink, &text)
    }

    ghost says = { play_says };
}

/// The world of a header that was read.
pub(crate) fn opened(alloc: Global, header: &Header) -> Result<Box<World>, NoMemory>
    requires { bad_field header.now ≡ None }
    ensures { IfOk result (λ world. world.value ≡ model.opening header.now) }
{
    // Nothing but memory can be wanting.
    match World::begin(alloc, header) {
        Ok(world) => Ok(Box::new(alloc, world)?),
        Err(_) => Err(AllocError),
    }
}

/// Makes a step, and adds its text.
fn make_step(world: &mut World, number: u64, step: &Step, text: &mut String) -> Result<(), NoMemory>
    ensures made { OnOk result (world.new ≡ (model.step world.old step.now).world) }
    ensures text { OnOk result
        (string_bytes text.new ≡ string_bytes text.old ++ made_text number (model.step world.old step.now)) }
{
    match world.step(step) {
        Ok(outcome) => push_made(world, number, &outcome, text),
        Err(reason) => Err(reason),
    }
}

/// Adds the text of a step that led to this world.
fn push_made(
    world: &World,
    number: u64,
    outcome: &Outcome,
    text: &mut String,
) -> Result<(), NoMemory>
    ensures { OnOk result (string_bytes text.new
        ≡ string_bytes text.old ++ made_text number (record { world = world.now; outcome = outcome.now })) }
{
    push_step_text(text, number, outcome, world.sent(outcome.first))
}
