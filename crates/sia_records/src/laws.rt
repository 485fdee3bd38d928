//! Laws of changes, writes and reads, beside that of every item ([`sia_encoding::laws`]). The functions do nothing: their contracts
//! are the laws.
ghost use Rattle.std.specs.Prelude.{◌≡◌, ◌&&◌, ◌⊎◌, ℕ, [], List, All, false, length, map, count_by};
ghost use Rattle.sia_diff.specs.declared.steps.DiffStep.{DiffStep as Step};
ghost use Rattle.sia_diff.specs.DiffSteps.{after};
ghost use Rattle.sia_records.specs.declared.change.Change.{Change as Told};
ghost use Rattle.sia_records.specs.Fitting.{actions_fit, sections_fit, update_fits};
ghost use Rattle.sia_records.specs.Reads.{Read, is_served};
ghost use Rattle.sia_records.specs.Stored.{Stored, changes_of, step_of, stored_after};
ghost use Rattle.sia_records.specs.Writes.{Prepared, is_prepared};

/// The roots of a contract's sectors after changes are the roots before them after the steps that the changes are.
pub fn roots_follow()
    ensures { (sectors : List Stored) (changes : List Told) → map (λ sector. sector.root) (stored_after sectors changes) ≡ after (map (λ sector. sector.root) sectors) (map step_of changes) }
{}

/// The changes that steps are, wherever their sectors lie, are those steps again.
pub fn steps_come_back()
    ensures { (steps : List Step) (slots : List ℕ) → map step_of (changes_of steps slots) ≡ steps }
{}

/// A write with a whole sector for each update whose range is fit is prepared exactly where its actions are fit.
pub fn asked_writes_are_prepared()
    ensures { (sector : ℕ) (write : Prepared) → length write.fetched ≡ count_by (update_fits sector) write.request.actions → All (λ old. length old ≡ sector) write.fetched
        → is_prepared sector write ≡ actions_fit sector write.request.actions }
{}

/// A read with a whole sector for each section, or with none where its sections aren't fit, is served exactly where they are.
pub fn asked_reads_are_served()
    ensures { (sector : ℕ) (read : Read) → ((length read.fetched ≡ length read.request.sections) × All (λ have. length have ≡ sector) read.fetched) ⊎ (sections_fit sector read.request.sections ≡ false)
        → is_served sector read ≡ sections_fit sector read.request.sections }
{}
