//! Laws of parcels. Each is the contract of a function that does nothing: a caller has it by calling that function.
ghost use Rattle.std.specs.Prelude.{◌≡◌, ◌++◌, ℕ, List, true};
ghost use Rattle.curp_journal.specs.declared.arrived.Arrived.{Arrived};
ghost use Rattle.curp_parcels.specs.Outgoing.{has_encoding, outgoing};
ghost use Rattle.curp_parcels.specs.Parcels.{IsParcel, incoming};
ghost use Rattle.curp_parcels.specs.Reading.{StandsFirst};
ghost use Rattle.curp_parcels.specs.declared.outgoing.Outgoing.{Outgoing};

/// No parcel begins another, and a parcel has one arrival.
pub fn no_arrival_begins_another()
    ensures { (one other : Arrived) (prefix prefix_other rest rest_other : List ℕ) → IsParcel incoming one prefix
        → IsParcel incoming other prefix_other → prefix ++ rest ≡ prefix_other ++ rest_other
        → (one ≡ other) × (rest ≡ rest_other) }
{}

/// The same of what goes out.
pub fn no_saying_begins_another()
    ensures { (one other : Outgoing) (prefix prefix_other rest rest_other : List ℕ) → IsParcel outgoing one prefix
        → IsParcel outgoing other prefix_other → prefix ++ rest ≡ prefix_other ++ rest_other
        → (one ≡ other) × (rest ≡ rest_other) }
{}

/// The bytes of an input that stand first behind their length are the same however they are looked at.
pub fn one_stands_first()
    ensures { (bytes one other rest rest_other : List ℕ) → StandsFirst bytes one rest → StandsFirst bytes other rest_other
        → (one ≡ other) × (rest ≡ rest_other) }
{}

/// What has a parcel has one by the test too: so `encode_outgoing` refuses nothing that has one.
pub fn what_is_said_has_an_encoding()
    ensures { (said : Outgoing) (bytes : List ℕ) → IsParcel outgoing said bytes → has_encoding said ≡ true }
{}
