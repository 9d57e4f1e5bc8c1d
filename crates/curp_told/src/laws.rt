//! Laws of what is told. Each is the contract of a function that does nothing: a caller has it by calling that
//! function.
ghost use Rattle.std.specs.Prelude.{◌≡◌, ◌<◌, ◌^◌, ◌++◌, ℕ, List, length};
ghost use Rattle.curp_durable.specs.declared.stand.Answered.{Answered};
ghost use Rattle.curp_told.specs.Told.{all_told, input_behind, parcels_of};

/// What is told of answers doesn't depend on the batches that they came in.
pub fn batches_do_not_show()
    ensures { (input : ℕ) (one other : List Answered) → input < 2 ^ 64
        → parcels_of (all_told input (one ++ other))
        ≡ parcels_of (all_told input one) ++ parcels_of (all_told (input_behind input (length one)) other) }
{}
