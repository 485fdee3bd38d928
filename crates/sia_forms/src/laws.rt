//! Laws of formations and renewals. The functions do nothing: their contracts are the laws.
ghost use Rattle.std.specs.Prelude.{◌≡◌, ℕ, List, Ok};
ghost use Rattle.sia_types.specs.declared.coin.Coin.{Coin};
ghost use Rattle.sia_types.specs.declared.file_contracts.Revision.{Revision};
ghost use Rattle.sia_types.specs.declared.settings.Settings.{Settings};
ghost use Rattle.sia_types.specs.declared.transaction.Transaction.{Transaction};
ghost use Rattle.sia_forms.specs.declared.plan.FormPlan.{FormPlan};
ghost use Rattle.sia_forms.specs.Building.{IsBuilt, KeepsLimits, form_outset, renew_outset};
ghost use Rattle.sia_forms.specs.Checks.{form_answer, renew_answer};
ghost use Rattle.sia_forms.specs.Parties.{both_address};

/// What [`crate::build_form`] makes, [`crate::check_form`] accepts with the plan's collateral under the same settings, where the
/// plan keeps the host's limits.
pub fn built_form_is_accepted()
    ensures { (plan : FormPlan) (s : Settings) (coins : List Coin) (renter_key : List ℕ) (tx : Transaction)
        → KeepsLimits plan s → IsBuilt plan s (form_outset plan s) coins renter_key tx
        → form_answer tx renter_key s ≡ Ok plan.collateral }
{}

/// What [`crate::build_renew`] makes, [`crate::check_renew`] accepts with the plan's collateral under the same settings, where
/// the plan keeps the host's limits and the old contract has the unlock hash of the two.
pub fn built_renewal_is_accepted()
    ensures { (plan : FormPlan) (s : Settings) (coins : List Coin) (renter_key : List ℕ) (newest : Revision) (tx : Transaction)
        → KeepsLimits plan s → newest.address ≡ both_address renter_key s.host_key
        → IsBuilt plan s (renew_outset plan s newest) coins renter_key tx
        → renew_answer tx newest s ≡ Ok plan.collateral }
{}
