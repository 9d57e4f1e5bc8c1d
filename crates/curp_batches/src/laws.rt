//! Laws of batches. Each is the contract of a function that does nothing: a caller has it by calling that function.
ghost use Rattle.std.specs.Prelude.{◌≡◌, ◌≢◌, ◌<◌, ◌∷◌, ◌++◌, ℕ, List};
ghost use Rattle.curp_base.specs.Words.{AreBytes};
ghost use Rattle.curp_journal.specs.declared.arrived.Arrived.{Arrived};
ghost use Rattle.curp_batches.specs.Batches.{IsEncoding};

/// Bytes are the encoding of one batch at most.
pub fn bytes_are_one_batch()
    ensures { (bytes : List ℕ) (one other : List Arrived) → IsEncoding one bytes → IsEncoding other bytes
        → one ≡ other }
{}

/// An encoding of which one byte was changed is no encoding of any batch.
pub fn a_changed_byte_is_found()
    ensures { (batch other : List Arrived) (before after : List ℕ) (x y : ℕ) → AreBytes after → x < 256 → y < 256
        → x ≢ y → IsEncoding batch (before ++ x ∷ after) → IsEncoding other (before ++ y ∷ after) → ⊥ }
{}
