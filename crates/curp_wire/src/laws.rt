//! Laws of frames. Each is the contract of a function that does nothing: a caller has it by calling that function.
ghost use Rattle.std.specs.Prelude.{◌≡◌, ◌++◌, ℕ, List, true};
ghost use Rattle.curp_msg.specs.declared.message.Message.{Message};
ghost use Rattle.curp_wire.specs.Frame.{Frame, has_frame};

/// No frame begins another's: so a message that was written is read back, whatever follows its frame.
pub fn no_frame_begins_another()
    ensures { (a b : Message) (of_a of_b after_a after_b : List ℕ) → Frame a of_a → Frame b of_b
        → of_a ++ after_a ≡ of_b ++ after_b → (a ≡ b) × (of_a ≡ of_b) × (after_a ≡ after_b) }
{}

/// A message of which there is a frame has one by the test too: so `encode` refuses none that has a frame.
pub fn a_frame_is_had()
    ensures { (m : Message) (bytes : List ℕ) → Frame m bytes → has_frame m ≡ true }
{}
