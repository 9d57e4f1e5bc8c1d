//! Laws of encodings. Each is the contract of a function that does nothing: a caller has it by calling that function.
ghost use Rattle.std.specs.Prelude.{◌≡◌, ◌++◌, ℕ, List};
ghost use Rattle.curp_cmd.specs.declared.entry.Entry.{Entry};
ghost use Rattle.curp_items.specs.Encoding.{IsEntry, encoding};

/// No entry's encoding begins another's: so an entry that was packed is read back, whatever follows it.
pub fn no_encoding_begins_another()
    ensures { (a b : Entry) (after_a after_b : List ℕ) → IsEntry a → IsEntry b
        → encoding a ++ after_a ≡ encoding b ++ after_b → (a ≡ b) × (after_a ≡ after_b) }
{}
