//! Laws of the records, beside that of every item ([`sia_encoding::laws`]). The functions do nothing: their contracts are
//! the laws.
ghost use Rattle.std.specs.Prelude.{◌≡◌, ◌++◌, ℕ};
ghost use Rattle.sia_encoding.specs.Items.{list_of};
ghost use Rattle.sia_types.specs.declared.transaction.Transaction.{Transaction};
ghost use Rattle.sia_types.specs.Transaction.{transaction, unsigned};
ghost use Rattle.sia_types.specs.Signatures.{signature};

/// A transaction is spelled by its fields without the signatures, and then the signatures.
pub fn signatures_come_last()
    ensures { (tx : Transaction) → transaction.spelled tx ≡ unsigned tx ++ (list_of signature).spelled tx.signatures }
{}
