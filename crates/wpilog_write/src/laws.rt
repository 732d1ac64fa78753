//! What is written, by the grammar alone.

ghost use Rattle.std.specs.Prelude.{◌≡◌, ◌<◌, ◌≤◌, ◌↔◌, ◌++◌, List, [], ◌∷◌, ℕ, length, take, All, Option, None, Some};
ghost use Rattle.std.specs.Io.KnownBytes.{Appends};
ghost use Rattle.wpilog_write.specs.declared.item.LogItem.{LogItem};
ghost use Rattle.wpilog_write.specs.declared.refused.WriteRefused.{WriteRefused};
ghost use Rattle.wpilog_write.specs.Log.{most_bytes, Entries, type_of, live_after, MayCome, Live, IsItem, Log};
ghost use Rattle.wpilog_write.specs.Written.{header_of, record_of, log_of, IsCut};
ghost use Rattle.wpilog_write.specs.Writer.{too_large, refusal};
ghost use Rattle.wpilog_write.specs.Fits.{AreBytes, FitsTypes, IsWithin, HasWritten};

/// An item is refused exactly where it may not come or its payload passes the limit. Its record is a
/// lawful record of it where it isn't refused, and no bytes are where it is. No lawful record of an
/// item has fewer bytes.
pub fn written_records_are_lawful()
    ensures taken { (live : Entries) (item : LogItem)
        → (refusal live item ≡ None) ↔ (MayCome live item × IsWithin item) }
    ensures lawful { (live : Entries) (item : LogItem) → FitsTypes item → type_of live 0 ≡ None
        → refusal live item ≡ None → IsItem live (record_of item) item }
    ensures refused { (live : Entries) (bytes : List ℕ) (item : LogItem) (why : WriteRefused)
        → refusal live item ≡ Some why → ¬ IsItem live bytes item }
    ensures fewest { (live : Entries) (bytes : List ℕ) (item : LogItem) → AreBytes bytes
        → IsItem live bytes item → length (record_of item) ≤ length bytes }
{}

/// Items that may come one after another are written as a log of exactly these items, and no log of
/// them has fewer bytes.
pub fn written_logs_are_lawful()
    ensures lawful { (extra : List ℕ) (items : List LogItem) → length extra ≤ most_bytes
        → Live items → All IsWithin items → All FitsTypes items → Log extra items (log_of extra items) }
    ensures fewest { (extra bytes : List ℕ) (items : List LogItem) → AreBytes bytes
        → Log extra items bytes → length (log_of extra items) ≤ length bytes }
{}

/// What a writer's sink has taken, call after call, is the log of the items that were put. A write
/// that failed leaves a proper prefix of the log of these and the item that was put then, with all of
/// the log before it.
pub fn writing_is_a_log()
    ensures begun { (before now : Option (List ℕ)) (extra : List ℕ) → too_large extra ≡ None
        → Appends before now (header_of extra) → HasWritten before now extra [] [] }
    ensures put { (before now then : Option (List ℕ)) (extra : List ℕ) (items : List LogItem)
        (live : Entries) (item : LogItem) → HasWritten before now extra items live
        → FitsTypes item → refusal live item ≡ None → Appends now then (record_of item)
        → HasWritten before then extra (items ++ item ∷ []) (live_after live item) }
    ensures cut { (before now then : Option (List ℕ)) (extra : List ℕ) (items : List LogItem)
        (live : Entries) (item : LogItem) → HasWritten before now extra items live
        → IsCut (record_of item) now then
        → (cut : IsCut (log_of extra (items ++ item ∷ [])) before then)
        × (length (log_of extra items) ≤ cut.count) }
{}
