//! What spellings are, by the formats alone.

ghost use Rattle.std.specs.Prelude.{◌≡◌, ℕ, ◌<◌, ◌≤◌, List, length, take, ◌++◌, ◌↔◌, All};
ghost use Rattle.nt_msgpack.specs.Atoms.{AtomValue, IsByte, Spells, shortest, Fits, IsTyped};
ghost use Rattle.nt_msgpack.specs.Reading.{got, short, bad, IsShort, IsBad, atom_at};

/// No spelling is a proper prefix of another, and each spells one atom. So bytes that begin with a
/// spelling begin with no other, whatever follows.
pub fn spellings_are_apart()
    ensures { (a b : AtomValue) (x y r s : List ℕ) → Spells a x → Spells b y → x ++ r ≡ y ++ s
        → (a ≡ b) × (x ≡ y) }
{}

/// What `atom_at` gives, step by step, is what the formats say: an atom exactly where the bytes
/// begin with a spelling of it, whatever follows. Of bytes that are too few no prefix is a spelling,
/// and where there is no atom there is none however they go on.
pub fn spelling_is_reading()
    ensures reads { (a : AtomValue) (x rest : List ℕ) → Spells a x
        → atom_at (x ++ rest) ≡ got a (length x) }
    ensures got { (bytes : List ℕ) (a : AtomValue) (used : ℕ)
        → (atom_at bytes ≡ got a used)
        ↔ ((0 < used) × (used ≤ length bytes) × Spells a (take used bytes)) }
    ensures short { (bytes : List ℕ) → (atom_at bytes ≡ short) ↔ IsShort bytes }
    ensures bad { (bytes : List ℕ) (first : ℕ)
        → (atom_at bytes ≡ bad first) ↔ IsBad bytes first }
    ensures none_short { (bytes x rest : List ℕ) (a : AtomValue)
        → IsShort bytes → bytes ≡ x ++ rest → ¬ Spells a x }
    ensures none_bad { (bytes more x rest : List ℕ) (first : ℕ) (a : AtomValue)
        → IsBad bytes first → bytes ++ more ≡ x ++ rest → ¬ Spells a x }
{}

/// The shortest spelling of an atom spells it, and is read as it, whatever follows. No spelling of
/// the atom has fewer bytes.
pub fn shortest_is_least()
    ensures spells { (a : AtomValue) → Fits a → IsTyped a → Spells a (shortest a) }
    ensures again { (a : AtomValue) (rest : List ℕ) → Fits a → IsTyped a
        → atom_at (shortest a ++ rest) ≡ got a (length (shortest a)) }
    ensures fewest { (a : AtomValue) (x : List ℕ) → All IsByte x → Spells a x
        → length (shortest a) ≤ length x }
{}
