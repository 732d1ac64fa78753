//! What is kept of each topic, and what that comes to in all.

ghost use Rattle.std.specs.Prelude.{◌≡◌, [], length, map, false, IfOk};
ghost use Rattle.nt_rules.specs.outbox.Marks.{weight, turned, at_id, keys, handed, handed_all};
ghost use Rattle.nt_outbox.specs.Steps.{after, RiseFrom, HasNoBlank, AreOf};

use crate::delivery::{keep_marks, run_len};
use crate::key::Key;
use crate::mark::Mark;
use crate::marks::{change, count_at, hand_at, turned_at};
use crate::owing::{forget, note};
use crate::queue::keys;
use crate::step::Step;
use std::alloc::{AllocError, Global};
use std::marker::Model;

/// The topics of which something is kept. Contracts see what is kept of each, by rising id.
///
/// What all of it comes to is kept up with each change, so no call but the end of a topic walks the
/// topics of which nothing is owed.
#[derive(Drop)]
pub struct Kept {
    /// What is kept of each topic, by rising id.
    marks: Vec<Mark>,
    /// The ids of the topics of which something is owed, rising.
    owing: Vec<u32>,
    /// The weight of what is queued.
    weight: u64,
    /// How many messages are owed.
    count: u64,
}

impl Model for Kept {
    ghost use Rattle.std.specs.Prelude.{List};
    ghost use Rattle.nt_rules.specs.outbox.Marks.{Mark};
    ghost use Rattle.nt_topics.specs.contracts.properties.Update as update;
    ghost use Rattle.std.specs.Coded.{codes};

    ghost Value = { List Mark };

    ghost coded = { Prim.hlevel (codes, update.the_row.coded) };

    ghost use Rattle.nt_outbox.specs.Steps.{IsSound};

    ghost view = { λ k. k.marks.items };

    ghost invariant = { λ k. IsSound k.marks.items k.owing.items k.weight k.count };
}

impl Kept {
    /// Nothing is kept. It takes no memory.
    pub fn new(alloc: Global) -> Kept
        ensures { result ≡ [] }
    {
        Kept {
            marks: Vec::new(alloc),
            owing: Vec::new(alloc),
            weight: 0,
            count: 0,
        }
    }

    /// Nothing is kept any more.
    pub fn clear(&mut self)
        ensures { self.new ≡ [] }
    {
        self.marks.clear();
        self.owing.clear();
        self.weight = 0;
        self.count = 0;
    }

    /// What is kept of each topic, by rising id.
    pub fn marks(&self) -> &[Mark]
        ensures value { result.now ≡ self.now }
        ensures rising { RiseFrom 0 result.now }
    {
        self.marks.as_slice()
    }

    /// The weight of what is queued.
    pub fn weight(&self) -> u64
        ensures { result ≡ weight self.now }
    {
        self.weight
    }

    /// How many messages are owed.
    pub fn count(&self) -> u64
        ensures { result ≡ length (keys self.now) }
    {
        self.count
    }

    /// All that is owed, in the order in which it is handed.
    pub fn keys(&self, alloc: Global) -> Result<Vec<Key>, AllocError>
        ensures { IfOk result (λ ks. ks.items ≡ keys self.now) }
    {
        keys(alloc, &self.marks, &self.owing)
    }

    /// A step changes the topic of this id and name.
    pub fn changed(self, alloc: Global, id: u32, name: &str, step: Step) -> Result<Kept, AllocError>
        ensures { IfOk result (λ kept. kept ≡ at_id id name.now (after step) self) }
    {
        let mut marks = self.marks;
        let mut owing = self.owing;
        let others = self.count - count_at(&marks, id);
        let weight = change(alloc, &mut marks, self.weight, id, name, step)?;
        let owed = count_at(&marks, id);
        note(&mut owing, id, owed > 0)?;
        Ok(Kept {
            marks,
            owing,
            weight,
            count: others + owed,
        })
    }

    /// The topic of this id turned. It takes no memory.
    pub fn turn(&mut self, id: u32)
        ensures { self.new ≡ at_id id [] turned self.old }
    {
        let alloc = *self.marks.allocator();
        let others = self.count - count_at(&self.marks, id);
        self.weight = turned_at(alloc, &mut self.marks, self.weight, id);
        let owed = count_at(&self.marks, id);
        self.count = others + owed;
        if owed == 0 {
            forget(&mut self.owing, id);
        }
    }

    /// Keys of the topic of this id are handed. It tells too whether nothing of the topic has to be
    /// kept any more.
    fn hand(self, alloc: Global, id: u32, run: &[Key]) -> Result<(Kept, bool), AllocError>
        requires { AreOf id run.now }
        ensures kept { IfOk result (λ r. r.0 ≡ map (handed run.now) self) }
        ensures blank { IfOk result (λ r. r.1 ≡ false → HasNoBlank self → HasNoBlank r.0) }
    {
        let mut marks = self.marks;
        let mut owing = self.owing;
        let others = self.count - count_at(&marks, id);
        let (weight, is_blank) = hand_at(alloc, &mut marks, self.weight, id, run)?;
        let left = count_at(&marks, id);
        note(&mut owing, id, left > 0)?;
        let kept = Kept {
            marks,
            owing,
            weight,
            count: others + left,
        };
        Ok((kept, is_blank))
    }

    /// Takes what was handed out of what is kept. Each topic that the keys name is changed once,
    /// and the others are walked only where a topic is taken out.
    pub fn handed(self, alloc: Global, keys: Vec<Key>) -> Result<Kept, AllocError>
        requires { HasNoBlank self }
        ensures { IfOk result (λ kept. kept ≡ handed_all keys.items self) }
    {
        let mut keys = keys;
        keys.sort_by_key(|key| key.topic)?;
        let mut kept = self;
        let mut has_blank = false;
        let mut rest = keys.as_slice();
        while !rest.is_empty() {
            let first = &rest[0];
            let id = first.topic;
            let len = run_len(rest, id);
            let (run, others) = rest.split_at(len);
            let (next, is_blank) = kept.hand(alloc, id, run)?;
            kept = next;
            has_blank = has_blank || is_blank;
            rest = others;
        }
        if has_blank {
            keep_marks(&mut kept.marks);
        }
        Ok(kept)
    }
}
