//! What a host is asked for.
use crate::want::Want;
use sia_blake::Hash;
use sia_records::{PaidRead, PreparedWrite};
use sia_rhp::{FormRequest, LockRequest, PaidRoots};
use sia_types::{Blob, Block, List, Signature, Transaction};

/// What a host is asked for: by sessions, and by the feed of blocks.
#[derive(Drop)]
pub enum Command {
    /// To begin a session.
    Enter,
    /// To tell the settings.
    Settings,
    /// To propose a formation.
    Form(FormRequest),
    /// To sign it, with the renter's signatures.
    FormSign(FormRequest, List<Signature>),
    /// To let the session hold a contract.
    Lock(LockRequest),
    /// To let it hold the contract no more.
    Unlock,
    /// To tell the bytes of a sector of its contract.
    Fetch(Want),
    /// To propose a change of its contract's sectors.
    Write(PreparedWrite),
    /// To sign it, with the renter's signature of the revision that it comes to.
    WriteSign(PreparedWrite, Blob),
    /// To tell parts of its contract's sectors.
    Read(PaidRead),
    /// To tell roots of its contract's sectors.
    Roots(PaidRoots),
    /// To propose a renewal of its contract.
    Renew(Transaction),
    /// To sign it, with the renter's signatures.
    RenewSign(Transaction, List<Signature>),
    /// To end the session.
    Leave,
    /// To put a block behind the last one.
    Apply(Block),
    /// To drop the last block.
    Revert,
    /// To hand out the stale contract with the least identifier above this one, or with the least of all.
    Stale(Hash, bool),
    /// To hand out the due contract with the least identifier above this one, or with the least of all.
    Due(Hash, bool),
}
