//! A rule of blocks that is broken.
ghost use Rattle.std.specs.Prelude.{◌≡◌, ◌≢◌};
ghost use Rattle.sia_rules.specs.declared.fault.BlockFault.TheVariants as block_fault;
ghost use Rattle.sia_rules.specs.Answers.{block_told};

use sia_rules::BlockFault;
use std::marker::Model;

/// The rule that a block breaks: any fault of a block but want of memory. Contracts see it as that fault.
#[derive(Clone, Copy)]
pub struct BrokenRule {
    fault: BlockFault,
}

impl Model for BrokenRule {
    ghost use Rattle.std.specs.Prelude.{◌≢◌};
    ghost use Rattle.sia_rules.specs.declared.fault.BlockFault.{BlockFault};
    ghost use Rattle.sia_rules.specs.declared.fault.BlockFault.TheVariants as block_fault;

    ghost Value = { BlockFault };

    ghost view = { λ rule. rule.fault };

    ghost inverse = { λ fault. record { fault = fault } };

    ghost invariant = { λ rule. rule.fault ≢ block_fault.Memory };
}

impl BrokenRule {
    /// The rule that a fault names; none for want of memory.
    pub fn of(fault: BlockFault) -> Option<BrokenRule>
        ensures { result ≡ block_told fault }
    {
        match fault {
            BlockFault::Memory => None,
            _ => Some(BrokenRule { fault }),
        }
    }

    /// The fault, which isn't want of memory.
    pub fn fault(&self) -> BlockFault
        ensures same { result ≡ self.now }
        ensures broken { result ≢ block_fault.Memory }
    {
        self.fault
    }
}
