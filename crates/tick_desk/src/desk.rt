// A pen and its passes.
ghost use Rattle.std.specs.Prelude.{◌≡◌, ◌+◌, ◌≤◌, ◌++◌, ◌∷◌, ℕ, true, length, slice_get, Some, All, IfOk, OnOk, OnErr, []};
ghost use Rattle.std.specs.Vec.{vec_len, vec_capacity};
ghost use Rattle.tick_table.specs.Sees.{PassSees};
ghost use Rattle.tick_desk.specs.Shows.{IsFresh, new_passes};

use crate::pass::Pass;
use crate::pen::Pen;
use ff_grain::NoMemory;
use std::alloc::Global;
use tick_table::Share;

/// The pen of a clock, and passes of it that nobody took out yet.
#[derive(Drop)]
pub struct Desk {
    pub pen: Pen,
    pub passes: Vec<Pass>,
    pub ghost owned: { (i : ℕ) (p : PassSees) →
        slice_get passes.items i ≡ Some p → p.table ≡ pen.table },
}

impl Desk {
    /// The clock that was never set: its journal has the cold hands alone, and the counter stands
    /// at 0. There is no pass, and no crank is out. Want of memory is the only error.
    pub fn start(alloc: Global) -> Result<Desk, NoMemory>
        ensures fresh { IfOk result (λ d. IsFresh d.pen d.passes.items) }
        ensures kept { IfOk result
            (λ d. (d.pen.kept ≡ []) × (d.pen.counters ≡ []) × (d.pen.met ≡ [])) }
    {
        let pen = Pen::new(alloc)?;
        let passes = Vec::new(alloc);
        Ok(Desk { pen, passes })
    }

    /// Whether nothing was done with the desk: true exactly where the journal is the cold hands
    /// alone, the pen's top is 0, no pass was ever made, there is none here, and no crank is out.
    pub fn is_fresh(&self) -> bool
        ensures fresh { result ≡ true → IsFresh self.now.pen self.now.passes.items }
        ensures exact { IsFresh self.now.pen self.now.passes.items → result ≡ true }
        ensures unused { result ≡ true → self.now.pen.kept ≡ [] }
    {
        self.passes.is_empty() && self.pen.is_fresh()
    }

    /// Makes `n` new passes, with the next numbers, behind those that are here. There are at most
    /// 16 in all, ever.
    ///
    /// Want of memory is the only error, and then nothing has changed: all that wants memory is
    /// taken before the first pass is made.
    pub fn passes(&mut self, alloc: Global, n: u32) -> Result<(), NoMemory>
        requires { self.old.pen.made + n ≤ 16 }
        ensures made { OnOk result
            (self.new.pen ≡ record self.old.pen { made = self.old.pen.made + n }) }
        ensures passes { OnOk result (self.new.passes.items ≡ self.old.passes.items
            ++ new_passes self.old.pen.table self.old.pen.made (length self.old.pen.journal) n) }
        ensures refused { OnErr result
            ((self.new.pen ≡ self.old.pen) × (self.new.passes.items ≡ self.old.passes.items)) }
    {
        let shares = self.shares(alloc, n)?;
        self.passes.reserve(n as usize)?;
        self.add_all(shares);
        Ok(())
    }

    // So many shares of the table, one for each new pass.
    fn shares(&self, alloc: Global, n: u32) -> Result<Vec<Share>, NoMemory>
        ensures many { IfOk result (λ s. length s.items ≡ n) }
        ensures shares { IfOk result (λ s. All (λ t. t ≡ self.now.pen.table) s.items) }
    {
        let mut shares = Vec::with_capacity(alloc, n as usize)?;
        for _ in 0..n {
            shares.push_reserved(self.pen.share()?);
        }
        Ok(shares)
    }

    // A new pass for each share. There is room for all of them.
    fn add_all(&mut self, shares: Vec<Share>)
        requires few { self.old.pen.made + length shares.items ≤ 16 }
        requires room { vec_len self.old.passes + length shares.items ≤ vec_capacity self.old.passes }
        requires shares { All (λ t. t ≡ self.old.pen.table) shares.items }
        ensures pen { self.new.pen ≡
            record self.old.pen { made = self.old.pen.made + length shares.items } }
        ensures passes { self.new.passes.items ≡ self.old.passes.items
            ++ new_passes self.old.pen.table self.old.pen.made (length self.old.pen.journal)
            (length shares.items) }
    {
        for share in shares {
            self.passes.push_reserved(self.pen.pass_by(share));
        }
    }
}
