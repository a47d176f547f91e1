//! The laws of every topology.

ghost use Rattle.std.specs.Prelude.{◌≡◌, ◌≤◌, ℕ, List, Option, IsTrue, IfSome};
ghost use Rattle.mca_codes.specs.Codes.{HasFieldsInRange};
ghost use Rattle.mca_codes.specs.declared.codes.Code.{Code};
ghost use Rattle.dimm_topology.specs.Labels.{is_label_or_none};
ghost use Rattle.dimm_topology.specs.Owners.{channel_of, owner_by_rows};
ghost use Rattle.dimm_topology.specs.Topology.{IsTopology};
ghost use Rattle.dimm_topology.specs.declared.label.TheConstants.{MOST_LABEL_BYTES};
ghost use Rattle.dimm_topology.specs.declared.row.Location.{Location};
ghost use Rattle.dimm_topology.specs.declared.row.Row.{Row};
ghost use Rattle.dimm_topology.specs.declared.topology.TheConstants.{MOST_ROWS};

/// The owner of an error is a label, or `Label::none()`.
pub fn owners_have_labels()
    ensures { (rows : List Row) (address : Option ℕ) (location : Option Location)
        → IsTopology rows
        → IfSome (owner_by_rows rows address location) (λ label. IsTrue (is_label_or_none label)) }
{}

/// The numbers behind the names that the definitions use.
pub fn numbers()
    ensures rows { MOST_ROWS ≡ 4096 }
    ensures label { MOST_LABEL_BYTES ≡ 32 }

    // An error names one of the channels 0 to 14.
    ensures channel { (code : Code) → HasFieldsInRange code
        → IfSome (channel_of code) (λ channel. channel ≤ 14) }
{}
