//! Ranges of addresses, searched by halving.

ghost use Rattle.std.specs.Prelude.{◌≡◌, ◌≤◌, [], OnOk, OnErr};
ghost use Rattle.std.specs.Bool.{IsFalse};
ghost use Rattle.std.specs.List.{list_any, find, prefix_len};
ghost use Rattle.std.specs.Option.{option_copied};
ghost use Rattle.dimm_topology.specs.Steps.Ranges.{meets, ends_before, put_in, IsRising};

use crate::Label;
use ras_base::NoMemory;
use std::alloc::Global;
use std::marker::Model;

/// A range of physical addresses, and the label of the module that it belongs to.
#[derive(Clone, Copy, Debug)]
pub(crate) struct HeldRange {
    pub(crate) label: Label,
    pub(crate) first: u64,
    pub(crate) last: u64,
}

/// Ranges in the order of their addresses, no two of which have an address in common.
#[derive(Debug, Drop)]
pub(crate) struct Ranges {
    ranges: Vec<HeldRange>,
}

impl Model for Ranges {
    ghost use Rattle.std.specs.Prelude.{List};
    ghost use Rattle.dimm_topology.specs.declared.ranges.HeldRange.{HeldRange};
    ghost use Rattle.dimm_topology.specs.Steps.Ranges.{IsRising};

    ghost Value = { List HeldRange };

    ghost view = { λ a. a.ranges.items };

    ghost invariant = { λ a. IsRising a.ranges.items };
}

impl Ranges {
    /// Returns an empty list of ranges.
    pub(crate) fn new(alloc: Global) -> Ranges
        ensures { result ≡ [] }
    {
        Ranges {
            ranges: Vec::new(alloc),
        }
    }

    /// Returns the first range that has an address in common with the addresses from `first` to
    /// `last`.
    pub(crate) fn meeting(&self, first: u64, last: u64) -> Option<&HeldRange>
        requires { first ≤ last }
        ensures { option_copied result ≡ find (meets first last) self.now }
    {
        let range = self.ranges.get(place(&self.ranges, first))?;
        (range.first <= last).then_some(range)
    }

    /// Inserts a range by its address. Requires that no other range has an address in common with
    /// it.
    pub(crate) fn put(&mut self, range: HeldRange) -> Result<(), NoMemory>
        requires upright { range.first ≤ range.last }
        requires free { IsFalse (list_any (meets range.first range.last) self.old) }
        ensures ok { OnOk result (self.new ≡ put_in range self.old) }
        ensures err { OnErr result (self.new ≡ self.old) }
    {
        let place = place(&self.ranges, range.first);
        Ok(self.ranges.insert(place, range)?)
    }
}

// Returns how many ranges end before an address.
fn place(ranges: &[HeldRange], address: u64) -> usize
    requires { IsRising ranges.now }
    ensures { result ≡ prefix_len (ends_before address) ranges.now }
{
    ranges.partition_point(
        |range: &HeldRange| -> bool
            ensures { result ≡ ends_before address range.now }
        { range.last < address },
    )
}
