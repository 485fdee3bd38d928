//! Revisions that are spelled alike.
ghost use Rattle.std.specs.Prelude.{◌≡◌, true, IfOk};
ghost use Rattle.sia_types.specs.FileContracts.{revision as revision_codec};
ghost use Rattle.sia_forms.specs.Checks.{is_spelled_as as is_spelled_so};

use sia_forms::is_spelled_as;
use sia_kept::Typed;
use sia_types::Revision;
use std::alloc::{AllocError, Global};

/// Whether two revisions are spelled alike: then they are one. The error is want of memory.
pub(crate) fn is_same_revision(
    alloc: Global,
    one: &Revision,
    other: &Revision,
) -> Result<bool, AllocError>
    ensures spelled { IfOk result (λ same. same ≡ is_spelled_so revision_codec one.now other.now) }
    ensures one { IfOk result (λ same. same ≡ true → one.now ≡ other.now) }
{
    one.know();
    other.know();
    is_spelled_as(alloc, one, other)
}
