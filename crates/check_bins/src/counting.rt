//! Bins, as they are counted and told.
ghost use Rattle.std.specs.Prelude.{◌≡◌, ◌++◌, [], ◌∷◌, List, flat_map, OnErr, OnOk, if◌then◌else◌};
ghost use Rattle.std.specs.BTreeMap.{IsOrdered};
ghost use Rattle.tl_text.specs.Text.{BeginsWith};
ghost use Rattle.check_bins.specs.Text.{TellsCoverage, bin_line};
ghost use Rattle.check_bins.specs.Counting.{Adds, AreCounted, bin_cmp, count_of};
ghost use Rattle.check_bins.specs.declared.bin.Bin.{Bin as IsBin};

use crate::bin::Bin;
use crate::counts::Counts;
use crate::words::push_line;
use std::alloc::{AllocError, Global};
use std::collections::BTreeMap;

impl Counts {
    /// No bin occurred.
    pub fn new(alloc: Global) -> Counts
        ensures { (bin : IsBin) → count_of result bin ≡ 0 }
    {
        Counts {
            counts: BTreeMap::new(alloc),
        }
    }

    /// The count of a bin.
    #[tactic(auto, unfolding(crate::specs::Counting::bin_cmp))]
    pub fn count(&self, bin: &Bin) -> u64
        ensures { result ≡ count_of self.now bin.now }
    {
        self.counts.get(bin).copied().unwrap_or(0)
    }

    /// Counts a bin.
    pub fn add(&mut self, bin: Bin) -> Result<(), AllocError>
        ensures { OnOk result (Adds self.old self.new (bin ∷ [])) }
    {
        let count = self.count(&bin).saturating_add(1);
        self.counts.insert(bin, count)?;
        Ok(())
    }

    /// Counts a bin if that is asked.
    pub fn add_if(&mut self, is_asked: bool, bin: Bin) -> Result<(), AllocError>
        ensures { OnOk result (Adds self.old self.new (if is_asked then bin ∷ [] else [])) }
    {
        if is_asked { self.add(bin) } else { Ok(()) }
    }

    /// Appends a line for each bin that occurred, in the order of bins, of a system of so many ports.
    #[tactic(auto, using(tl_text::proofs::TextLemmas::begins))]
    fn append_lines(&self, ports: usize, text: &mut Vec<u8>) -> Result<(), AllocError>
        ensures told { OnOk result (text.new.items
            ≡ text.old.items ++ flat_map (bin_line ports) self.now.counts.entries) }
        ensures ordered { OnOk result (IsOrdered bin_cmp self.now.counts) }
        ensures err { OnErr result (BeginsWith text.old.items text.new.items) }
    {
        for (bin, count) in self.counts.iter() {
            push_line(text, ports, bin, *count)?;
        }
        Ok(())
    }

    /// Appends the text of the counts of a system of so many ports: its head line, and a line for each bin that occurred.
    #[tactic(auto, using(tl_text::proofs::TextLemmas::begins))]
    pub fn append(&self, ports: usize, text: &mut Vec<u8>) -> Result<(), AllocError>
        ensures told { (all : List IsBin) → AreCounted self.now all
            → OnOk result (TellsCoverage ports all text.old.items text.new.items) }
        ensures err { OnErr result (BeginsWith text.old.items text.new.items) }
    {
        text.extend_from_slice(b"coverage 2\n")?;
        self.append_lines(ports, text)
    }
}
