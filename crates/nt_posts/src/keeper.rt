//! Where bytes are kept from one run to the next.

ghost use Rattle.std.specs.Prelude.{◌≡◌, ℕ, List, Option, Ok, Err, Some, None, IfOk, IfSome, Contains};
ghost use Rattle.nt_wire.specs.Frames.{HasCauseOfFault};
ghost use Rattle.nt_posts.specs.Keeping.{Saves};

use nt_values::Bytes;
use nt_wire::LinkFault;
use std::alloc::Global;
use std::marker::Model;

/// What keeps bytes.
pub trait Keeper {
    /// The bytes that it keeps, if it keeps any, where it tells.
    ghost content: { Self → Option (Option (List ℕ)) };

    /// How many calls failed. It never falls, and stands still at 2^64 - 1.
    ghost faults: { Self → ℕ };

    /// The bytes that are kept, and None where none are.
    ///
    /// # Errors
    ///
    /// `Failed` comes only where the count of faults rose, or stood at its end, and `Memory` for want
    /// of memory.
    fn load(&mut self) -> Result<Option<Bytes>, LinkFault>
        ensures content { content self.new ≡ content self.old }
        ensures loaded { IfOk result (λ loaded. IfSome (content self.old) (λ kept. loaded ≡ kept)) }
        ensures cause { HasCauseOfFault (faults self.old) (faults self.new) result };

    /// Keeps these bytes from now on, in place of those before.
    ///
    /// # Errors
    ///
    /// As for `load`. The bytes that are kept are then those before or these.
    fn save(&mut self, bytes: &[u8]) -> Result<(), LinkFault>
        ensures content { Saves (content self.old) bytes.now result (content self.new) }
        ensures cause { HasCauseOfFault (faults self.old) (faults self.new) result };
}

/// A keeper in memory, for tests. Some calls fail, by lists of their numbers.
#[derive(Drop)]
pub struct MemKeeper {
    alloc: Global,
    kept: Option<Bytes>,
    failing_loads: Vec<u64>,
    failing_saves: Vec<u64>,
    loads: u64,
    saves: u64,
    faults: u64,
}

impl Model for MemKeeper {
    ghost use Rattle.nt_posts.specs.Memory.{MemKept};

    ghost Value = { MemKept };

    ghost view = { λ k. record {
      kept = k.kept;
      failing_loads = k.failing_loads.items;
      failing_saves = k.failing_saves.items;
      loads = k.loads;
      saves = k.saves;
      faults = k.faults;
    } };
}

impl MemKeeper {
    /// A keeper of these bytes, or of none. The calls of `load` and of `save` with the numbers in the
    /// lists fail.
    pub fn new(
        alloc: Global,
        kept: Option<Bytes>,
        failing_loads: Vec<u64>,
        failing_saves: Vec<u64>,
    ) -> MemKeeper
        ensures { result ≡ record {
          kept = kept;
          failing_loads = failing_loads.items;
          failing_saves = failing_saves.items;
          loads = 0;
          saves = 0;
          faults = 0;
        } }
    {
        MemKeeper {
            alloc,
            kept,
            failing_loads,
            failing_saves,
            loads: 0,
            saves: 0,
            faults: 0,
        }
    }
}

impl Keeper for MemKeeper {
    ghost content = { λ k. Some k.kept };

    ghost faults = { λ k. k.faults };

    fn load(&mut self) -> Result<Option<Bytes>, LinkFault>
        ensures content { Some self.new.kept ≡ Some self.old.kept }
        ensures loaded { IfOk result (λ loaded. IfSome (Some self.old.kept) (λ kept. loaded ≡ kept)) }
        ensures cause { HasCauseOfFault self.old.faults self.new.faults result }

        ensures listed { Contains self.old.failing_loads self.old.loads
            → result ≡ Err LinkFault.Failed }
        ensures unlisted { result ≡ Err LinkFault.Failed
            → Contains self.old.failing_loads self.old.loads }
    {
        let call = self.loads;
        self.loads = call.saturating_add(1);
        if self.failing_loads.contains(&call) {
            self.faults = self.faults.saturating_add(1);
            return Err(LinkFault::Failed);
        }
        match &self.kept {
            Some(bytes) => Ok(Some(bytes.copy(self.alloc)?)),
            None => Ok(None),
        }
    }

    fn save(&mut self, bytes: &[u8]) -> Result<(), LinkFault>
        ensures content { Saves (Some self.old.kept) bytes.now result (Some self.new.kept) }
        ensures cause { HasCauseOfFault self.old.faults self.new.faults result }

        ensures listed { Contains self.old.failing_saves self.old.saves
            → result ≡ Err LinkFault.Failed }
        ensures unlisted { result ≡ Err LinkFault.Failed
            → Contains self.old.failing_saves self.old.saves }
    {
        let call = self.saves;
        self.saves = call.saturating_add(1);
        if self.failing_saves.contains(&call) {
            self.faults = self.faults.saturating_add(1);
            return Err(LinkFault::Failed);
        }
        self.kept = Some(Bytes::of(self.alloc, bytes)?);
        Ok(())
    }
}
