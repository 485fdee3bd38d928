//! Laws of what files list. The functions do nothing: their contracts are the laws.
ghost use Rattle.std.specs.Prelude.{◌≡◌, ℕ, ◌^◌, ◌<◌, ◌≤◌, IsTrue, List, length, Ok};
ghost use Rattle.sia_journal.specs.Listed.{HEADER, at_rest, listed};
ghost use Rattle.sia_edge.specs.Disk.{Leaves};
ghost use Rattle.sia_journal.specs.Journal.{ListsEither, MidAppend};

use sia_edge::Disk;

/// A whole journal that isn't longer than its limit lists its records.
pub fn at_rest_lists()
    ensures { (header : List ℕ) (limit : ℕ) (records : List (List ℕ)) → length header ≡ HEADER → limit < 2 ^ 64 → length (at_rest header records) ≤ limit
        → listed header limit (at_rest header records) ≡ Ok records }
{}

/// What a crash may leave while a payload is appended, or in an opening after that, lists the records before or those
/// and the payload.
pub fn mid_append_lists()
    ensures { (header : List ℕ) (limit : ℕ) (records : List (List ℕ)) (payload file : List ℕ) → length header ≡ HEADER → limit < 2 ^ 64
        → MidAppend header limit records payload file
        → ListsEither header limit records payload file }
{}

/// What a read gives after an append, also after one that failed, lists the records before or those and the payload.
pub fn after_append_lists<D: Disk>()
    ensures { IsTrue D.tells → (header : List ℕ) (limit : ℕ) (records : List (List ℕ)) (payload : List ℕ) (old new : D) → length header ≡ HEADER → limit < 2 ^ 64
        → Leaves (MidAppend header limit records payload) (D.standing old) (D.standing new) → ListsEither header limit records payload (D.standing new).seen }
{}
