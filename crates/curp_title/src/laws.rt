//! The law of titles. It is the contract of a function that does nothing: a caller has it by calling that function.
ghost use Rattle.std.specs.Prelude.{◌≡◌};
ghost use Rattle.curp_title.specs.Title.{IsTitle, title_bytes};
ghost use Rattle.curp_title.specs.declared.title.Title.{Title};

/// No two nodes have the same title, and no node has that of another header.
pub fn a_title_has_one_node_and_header()
    ensures { (one other : Title) → IsTitle one → IsTitle other → title_bytes one ≡ title_bytes other → one ≡ other }
{}
