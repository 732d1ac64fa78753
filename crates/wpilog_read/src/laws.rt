//! What reading means, by the grammar alone.

ghost use Rattle.std.specs.Prelude.{◌≡◌, ◌+◌, ◌≤◌, List, ℕ, Option, None, Some, ◌⊎◌, Ok, Err, [], true, false, length, take, ◌++◌, ◌==◌, if◌then◌else◌};
ghost use Rattle.wpilog_write.specs.declared.item.LogItem.{LogItem};
ghost use Rattle.wpilog_write.specs.declared.item.LogItem.TheVariants.{Start, Finish};
ghost use Rattle.wpilog_write.specs.Log.{IsHeader, Entries, type_named, type_of, IsItem, live_after};
ghost use Rattle.wpilog_read.specs.declared.item_at.ItemAt.{ItemAt};
ghost use Rattle.wpilog_read.specs.declared.fault.LogFault.{LogFault};
ghost use Rattle.wpilog_read.specs.declared.fault.LogKind.{LogKind};
ghost use Rattle.wpilog_read.specs.declared.fault.Stop.TheVariants.{Wanting, Known};
ghost use Rattle.wpilog_read.specs.Meaning.{IsLog, IsHeaderKnown, IsHeaderWanting, IsKnown, IsRecordWanting, IsRecordKind, Means};
ghost use Rattle.wpilog_read.specs.Run.{Reading, begun, start, next_of, Reads, IsReading, Stands};

/// One step of reading, by the grammar. Before the header nothing is read: a header is passed, and a
/// fault of it is answered exactly where it is known. After it an item is read exactly where a lawful
/// record comes next, a fault exactly where one is known, and nothing else.
pub fn step_is_unit()
    ensures header { (r : Reading) (header rest extra : List ℕ) → begun r ≡ false
        → r.rest ≡ header ++ rest → IsHeader header extra
        → next_of r ≡ next_of (record r
        { extra = Some extra; at = r.at + length header; rest = rest }) }
    ensures wrong_header { (r : Reading) (kind : LogKind) → begun r ≡ false
        → IsHeaderKnown kind r.rest → next_of r ≡ Err (Known kind) }
    ensures wanting_header { (r : Reading) → begun r ≡ false → IsHeaderWanting r.rest
        → next_of r ≡ Err Wanting }

    ensures item { (r m : Reading) (x : ItemAt) → begun r ≡ true → next_of r ≡ Ok (x, m)
        → (unit : List ℕ) × (r.rest ≡ unit ++ m.rest) × IsItem r.live unit x.item
        × (x.at ≡ r.at) × (m.at ≡ r.at + length unit) × (m.live ≡ live_after r.live x.item) }
    ensures read { (r : Reading) (unit rest : List ℕ) (item : LogItem) → begun r ≡ true
        → r.rest ≡ unit ++ rest → IsItem r.live unit item
        → next_of r ≡ Ok (
          record { at = r.at; item = item },
          record r
              { live = live_after r.live item; at = r.at + length unit; rest = rest },
        ) }

    ensures fault { (r : Reading) (kind : LogKind) → begun r ≡ true → next_of r ≡ Err (Known kind)
        → IsKnown kind r.live r.rest }
    ensures known { (r : Reading) (kind : LogKind) → begun r ≡ true → IsKnown kind r.live r.rest
        → next_of r ≡ Err (Known kind) }
    ensures wanting { (r : Reading) → begun r ≡ true → next_of r ≡ Err Wanting
        → (r.rest ≡ []) ⊎ IsRecordWanting r.live r.rest }
    ensures none { (r : Reading) → begun r ≡ true → IsRecordWanting r.live r.rest
        → next_of r ≡ Err Wanting }
{}

/// What is read is what the bytes mean, and each byte string means exactly one thing. What a reader
/// gave so far begins the items that the bytes mean. A fault after the header stands at the end of the
/// longest prefix that is a whole log, and what was read so far is one.
pub fn reading_is_meaning()
    ensures means { (bytes : List ℕ) (extra : Option (List ℕ)) (items : List ItemAt)
        (fault : Option LogFault) → IsReading bytes extra items fault → Means bytes extra items fault }
    ensures reads { (bytes : List ℕ) (extra : Option (List ℕ)) (items : List ItemAt)
        (fault : Option LogFault) → Means bytes extra items fault → IsReading bytes extra items fault }
    ensures some { (bytes : List ℕ) → (extra : Option (List ℕ)) × (items : List ItemAt)
        × (fault : Option LogFault) × Means bytes extra items fault }
    ensures one { (bytes : List ℕ) (extra other_extra : Option (List ℕ)) (items others : List ItemAt)
        (fault other : Option LogFault)
        → Means bytes extra items fault → Means bytes other_extra others other
        → (extra ≡ other_extra) × (items ≡ others) × (fault ≡ other) }
    ensures one_kind { (kind other : LogKind) (live : Entries) (rest : List ℕ)
        → IsRecordKind kind live rest → IsRecordKind other live rest → kind ≡ other }
    ensures begins { (bytes : List ℕ) (items others : List ItemAt) (r : Reading)
        (extra : Option (List ℕ)) (fault : Option LogFault)
        → Stands bytes items r → Means bytes extra others fault
        → (more : List ItemAt) × (others ≡ items ++ more) }
    ensures longest { (bytes extra other : List ℕ) (items others : List ItemAt) (fault : LogFault)
        (n : ℕ) (live : Entries) → Means bytes (Some extra) items (Some fault) → n ≤ length bytes
        → IsLog (take n bytes) other others live → n ≤ fault.at }
    ensures prefix { (bytes extra : List ℕ) (items : List ItemAt) (r : Reading) → r.extra ≡ Some extra
        → Reads (start bytes) items r
        → (bytes ≡ take r.at bytes ++ r.rest) × IsLog (take r.at bytes) extra items r.live }
{}

/// An entry is live from its Start to its Finish: after a Start its id has the type that its type
/// string names, and after a Finish none. Each other id is as it was.
pub fn entries_are_live()
    ensures start { (live : Entries) (time id other : ℕ) (name typ meta : List ℕ)
        → type_of (live_after live (Start time id name typ meta)) other
        ≡ (if other == id then Some (type_named typ) else type_of live other) }
    ensures finish { (bytes extra : List ℕ) (items : List ItemAt) (live : Entries) (time id other : ℕ) → IsLog bytes extra items live
        → type_of (live_after live (Finish time id)) other ≡ (if other == id then None else type_of live other) }
{}
