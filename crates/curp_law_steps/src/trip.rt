//! One round trip: what a witness answers to a record, and that the master's reply and the accepts of all witnesses
//! complete an update.

ghost use Rattle.std.specs.Prelude.{◌≡◌, ◌≢◌, ◌↔◌, ◌⊎◌, ℕ, Bool, List, [], ◌∷◌, Some};
ghost use Rattle.std.specs.List.{IsDistinct};
ghost use Rattle.std.specs.List.Sorted.{IsPermutation};
ghost use Rattle.curp_base.specs.Words.{At};
ghost use Rattle.curp_cmd.specs.Node.{same_node};
ghost use Rattle.curp_cmd.specs.declared.command.Command.{Command};
ghost use Rattle.curp_cmd.specs.declared.command.Request.{Request};
ghost use Rattle.curp_cmd.specs.declared.command.RequestId.{RequestId};
ghost use Rattle.curp_cmd.specs.declared.node.NodeId.{NodeId};
ghost use Rattle.curp_msg.specs.Moved.{Node};
ghost use Rattle.curp_msg.specs.declared.answer.Reason.{Reason};
ghost use Rattle.curp_msg.specs.declared.answer.Reason.TheVariants as reason;
ghost use Rattle.curp_msg.specs.declared.body.Body.{Body};
ghost use Rattle.curp_msg.specs.declared.config.Config.{Config};
ghost use Rattle.curp_msg.specs.declared.config.PartConfig.{PartConfig};
ghost use Rattle.curp_msg.specs.Input.{Input};
ghost use Rattle.curp_msg.specs.declared.message.Message.{Message};
ghost use Rattle.curp_msg.specs.declared.script.Header.{Header};
ghost use Rattle.curp_msg.specs.declared.script.Protocol.{Protocol};
ghost use Rattle.curp_model.specs.declared.Mode.TheVariants.{Idle, Frozen};
ghost use Rattle.curp_model.specs.Client.{ClientState, NumbersAreUsed, client_input, fresh_client, owner_of};
ghost use Rattle.curp_model.specs.Manager.{Shape, opening_config};
ghost use Rattle.curp_model.specs.Witness.{HoldsInOrder, WitnessState, fresh_witness, hold, on_witness};
ghost use Rattle.curp_model.specs.World.{opening};
ghost use Rattle.curp_law_steps.specs.Holding.{AcceptsRecord, ChangesNothing, HasNoConflict, HasRoomForRequest, HoldsId};
ghost use Rattle.curp_law_steps.specs.Holding.{IsAlikeButMarks, IsLeastConflict, IsLeastFull, IsNewTo, IsOfEpoch};
ghost use Rattle.curp_law_steps.specs.Holding.{IsOpen, IsStranger, RejectsWith};
ghost use Rattle.curp_law_steps.specs.Meeting.{CanBeFast, CanGlance, MeetsNothingIn, ReadMeetsNothingIn};
ghost use Rattle.curp_law_steps.specs.Reading.{ReadMeetsNothing, from_glanced, from_probed, live_of, quick_of};
ghost use Rattle.curp_law_steps.specs.Reading.{read_answers, read_completion_of, read_sendings};
ghost use Rattle.curp_law_steps.specs.Trip.{CompletesAtLast, CompletesNothing, GivesApart, MeetsNothing, Trip};
ghost use Rattle.curp_law_steps.specs.Trip.{WitnessesAreApart, accept_of, answers, completion_of, from_master};
ghost use Rattle.curp_law_steps.specs.Trip.{from_witness, invoked, reply_of, sendings};

/// When a witness rejects a record, and for which reason. The first that holds counts, in the order of these clauses;
/// where none does, it accepts. That what is held stands in order is so of a fresh witness, and stays so.
pub fn rejected_exactly()
    ensures idle { (w : WitnessState) (epoch : ℕ) (r : Request) → RejectsWith w epoch r reason.Idle ↔ (w.mode ≡ Idle) }
    ensures stranger { (w : WitnessState) (epoch : ℕ) (r : Request) (own : ℕ)
        → RejectsWith w epoch r (reason.Stranger own) ↔ IsStranger w epoch own }
    ensures frozen { (w : WitnessState) (epoch : ℕ) (r : Request)
        → RejectsWith w epoch r reason.Frozen ↔ ((w.mode ≡ Frozen) × IsOfEpoch w epoch) }
    ensures conflict { (w : WitnessState) (epoch : ℕ) (r : Request) (id : RequestId) → HoldsInOrder w
        → RejectsWith w epoch r (reason.Conflict id) ↔ (IsNewTo w epoch r × IsLeastConflict w r id) }
    ensures set_full { (w : WitnessState) (epoch : ℕ) (r : Request) (set : ℕ)
        → RejectsWith w epoch r (reason.SetFull set) ↔ (IsNewTo w epoch r × HasNoConflict w r × IsLeastFull w r set) }
    ensures accepted { (w : WitnessState) (epoch : ℕ) (r : Request)
        → AcceptsRecord w epoch r ↔ (IsOpen w epoch × (HoldsId w r.id ⊎ (HasNoConflict w r × HasRoomForRequest w r))) }
    ensures rejection_stands { (w : WitnessState) (epoch : ℕ) (r : Request) (why : Reason) → RejectsWith w epoch r why
        → ((id : RequestId) → why ≢ reason.Conflict id) → ChangesNothing w epoch r }
    ensures conflict_marks { (w : WitnessState) (epoch : ℕ) (r : Request) (id : RequestId)
        → RejectsWith w epoch r (reason.Conflict id) → IsAlikeButMarks w (hold w epoch r).state }
    ensures held_again { (w : WitnessState) (epoch : ℕ) (r : Request)
        → AcceptsRecord w epoch r → HoldsId w r.id → ChangesNothing w epoch r }
    ensures fresh_in_order { (sets ways : ℕ) → HoldsInOrder (fresh_witness sets ways) }
    ensures stays_in_order { (n : ℕ) (w : WitnessState) (from : NodeId) (message : Body)
        → HoldsInOrder w → HoldsInOrder (on_witness n w from message).state }
{}

/// An update that meets nothing in its way takes one round trip. The client sends the Update to the master and a Record
/// to each witness; each of them answers with one message, the unsynced reply and the accepts; and these, in any order,
/// complete the update at the last one and not before. With any one of them left out nothing completes.
pub fn one_round_trip()
    ensures sent { (t : Trip) → MeetsNothing t → (invoked t).messages ≡ sendings t }
    ensures replied { (t : Trip) → MeetsNothing t → from_master t ≡ reply_of t ∷ [] }
    ensures accepted { (t : Trip) → MeetsNothing t → (k : ℕ) (w : Node WitnessState) → At t.witnesses k w
        → from_witness t w ≡ accept_of t w ∷ [] }
    ensures completes { (t : Trip) → MeetsNothing t → (order : List Message) → IsPermutation (answers t) order
        → CompletesAtLast t.client.number (invoked t).state order (completion_of t) }
    ensures all_count { (t : Trip) → MeetsNothing t → (missing : Message) (others : List Message)
        → IsPermutation (answers t) (missing ∷ others) → CompletesNothing t.client.number (invoked t).state others }
{}

/// A read in protocol 2 that meets nothing in its way takes one round trip. The client sends the Glance to the master and a
/// Probe to each witness; the master answers with one Quick, the value in its log, since no entry that touches the key
/// still waits for a backup, and each witness with one Live; and these, in any order, complete the read at the last one and not
/// before, by the master's next capture number. With any one of them left out nothing completes.
pub fn one_round_trip_read()
    ensures sent { (t : Trip) (key : List ℕ) → ReadMeetsNothing t key → (invoked t).messages ≡ read_sendings t }
    ensures answered { (t : Trip) (key : List ℕ) → ReadMeetsNothing t key → from_glanced t ≡ quick_of t key ∷ [] }
    ensures live { (t : Trip) (key : List ℕ) → ReadMeetsNothing t key → (k : ℕ) (w : Node WitnessState)
        → At t.witnesses k w → from_probed t w ≡ live_of t w ∷ [] }
    ensures completes { (t : Trip) (key : List ℕ) → ReadMeetsNothing t key
        → (order : List Message) → IsPermutation (read_answers t) order
        → CompletesAtLast t.client.number (invoked t).state order (read_completion_of t key) }
    ensures all_count { (t : Trip) (key : List ℕ) → ReadMeetsNothing t key
        → (missing : Message) (others : List Message) → IsPermutation (read_answers t) (missing ∷ others)
        → CompletesNothing t.client.number (invoked t).state others }
{}

/// Two of the premises of a trip are always so: no number of what is pending is behind the client's last one, and the
/// witnesses of each partition that the client knows are different nodes. They are so at first, and every input of a
/// client keeps them; a configuration that a message brings has to have different witnesses itself.
pub fn premises_stay()
    ensures numbers_at_first { (fast : Bool) (protocol : Protocol) (config : Config)
        → NumbersAreUsed (fresh_client fast protocol config) }
    ensures numbers_stay { (n : ℕ) (c : ClientState) (given : Input)
        → NumbersAreUsed c → NumbersAreUsed (client_input n c given).state }
    ensures apart_at_first { (s : Shape) → WitnessesAreApart (opening_config s) }
    ensures apart_stay { (n : ℕ) (c : ClientState) (given : Input)
        → WitnessesAreApart c.config → GivesApart given → WitnessesAreApart (client_input n c given).state.config }
    ensures owner_apart { (config : Config) (command : Command) (part : PartConfig) → WitnessesAreApart config
        → owner_of config command ≡ Some part → IsDistinct same_node part.witnesses }
{}

/// The premises of a trip can be met: the first update of each client of an opening with one partition meets nothing,
/// where clients use the witnesses and each set has as many ways as the command has hashes.
pub fn trip_can_be_met()
    ensures at_opening { (h : Header) (n : ℕ) (command : Command) → CanBeFast h n command
        → MeetsNothingIn (opening h) n command }
{}

/// The premises of a read's trip can be met: the first read of each client of an opening of protocol 2, of any key and
/// with any number of partitions, meets nothing.
pub fn read_trip_can_be_met()
    ensures at_opening { (h : Header) (n : ℕ) (key : List ℕ) → CanGlance h n → ReadMeetsNothingIn (opening h) n key }
{}
