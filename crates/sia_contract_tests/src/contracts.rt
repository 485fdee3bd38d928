//! Each point of a formation and of a renewal at its edge: what a host refuses, and its neighbour that it takes.
use crate::fixtures::{HOST, HOST_ADDRESS, RENTER, SMALL, newest};
use sia_blake::Hash;
use sia_encoding::List;
use sia_forms::{FormFault, both_address, check_form, check_renew, clearing};
use sia_types::{CoinOutput, FileContract, Item, Revision, Transaction};
use std::alloc::{AllocError, Global};
use std::test::Fail;

/// The renter's address.
const HOME: Hash = [6; 32];

/// A contract, how many times it stands in its transaction, and the answer: the collateral, or the point that fails.
#[derive(Clone, Copy, Debug)]
struct Case {
    copies: usize,
    size: u64,
    number: u64,
    keys: [[u8; 32]; 2],
    window: [u64; 2],
    valid: [u128; 2],
    missed: [u128; 3],
    host: Hash,
    answer: Result<u128, u64>,
}

/// A formation at height 100 that the host takes: it gives 50.
const FORMATION: Case = Case {
    copies: 1,
    size: 0,
    number: 0,
    keys: [RENTER, HOST],
    window: [102, 112],
    valid: [1_000, 250],
    missed: [1_000, 250, 0],
    host: HOST_ADDRESS,
    answer: Ok(50),
};

/// A renewal of 10 bytes for 7 blocks more: the price is 270, and 210 are at risk.
const RENEWAL: Case = Case {
    size: 10,
    valid: [1_000, 300],
    missed: [1_000, 90, 210],
    answer: Ok(30),
    ..FORMATION
};

const FORMATIONS: [Case; 18] = [
    FORMATION,
    Case {
        copies: 0,
        answer: Err(0),
        ..FORMATION
    },
    Case {
        copies: 2,
        answer: Err(0),
        ..FORMATION
    },
    Case {
        size: 1,
        answer: Err(1),
        ..FORMATION
    },
    Case {
        number: 1,
        answer: Err(1),
        ..FORMATION
    },
    Case {
        keys: [HOST, RENTER],
        answer: Err(1),
        ..FORMATION
    },
    Case {
        missed: [999, 250, 1],
        answer: Err(2),
        ..FORMATION
    },
    Case {
        missed: [1_000, 249, 1],
        answer: Err(2),
        ..FORMATION
    },
    Case {
        host: HOME,
        answer: Err(2),
        ..FORMATION
    },
    Case {
        window: [101, 111],
        answer: Err(3),
        ..FORMATION
    },
    Case {
        window: [102, 111],
        answer: Err(3),
        ..FORMATION
    },
    Case {
        window: [102, 200],
        ..FORMATION
    },
    Case {
        window: [102, 201],
        answer: Err(3),
        ..FORMATION
    },
    Case {
        valid: [1_000, 199],
        missed: [1_000, 199, 0],
        answer: Err(4),
        ..FORMATION
    },
    Case {
        valid: [1_000, 200],
        missed: [1_000, 200, 0],
        answer: Ok(0),
        ..FORMATION
    },
    Case {
        valid: [1_000, 260],
        missed: [1_000, 260, 0],
        answer: Ok(60),
        ..FORMATION
    },
    Case {
        valid: [1_000, 261],
        missed: [1_000, 261, 0],
        answer: Err(4),
        ..FORMATION
    },
    Case {
        window: [101, 201],
        number: 1,
        copies: 2,
        answer: Err(0),
        ..FORMATION
    },
];

const RENEWALS: [Case; 9] = [
    RENEWAL,
    Case {
        size: 0,
        answer: Err(1),
        ..RENEWAL
    },
    Case {
        missed: [1_000, 91, 209],
        answer: Err(2),
        ..RENEWAL
    },
    Case {
        missed: [1_000, 300, 0],
        answer: Err(2),
        ..RENEWAL
    },
    Case {
        window: [102, 111],
        missed: [1_000, 120, 180],
        answer: Err(3),
        ..RENEWAL
    },
    Case {
        valid: [1_000, 269],
        missed: [1_000, 59, 210],
        answer: Err(4),
        ..RENEWAL
    },
    Case {
        valid: [1_000, 270],
        missed: [1_000, 60, 210],
        answer: Ok(0),
        ..RENEWAL
    },
    Case {
        valid: [1_000, 330],
        missed: [1_000, 120, 210],
        answer: Ok(60),
        ..RENEWAL
    },
    Case {
        valid: [1_000, 331],
        missed: [1_000, 121, 210],
        answer: Err(4),
        ..RENEWAL
    },
];

#[test]
fn a_formation_is_taken_at_its_edges(rt: HostRuntime) -> Result<(), Fail> {
    let alloc = rt.alloc();
    for case in FORMATIONS {
        let tx = transaction(alloc, &case, [0; 32], List::new(alloc))?;
        let answer = check_form(alloc, &tx, &RENTER, &SMALL);
        assert!(rt; told(answer) == case.answer, "{case:?}");
    }
    Ok(())
}

#[test]
fn a_renewal_is_taken_at_its_edges(rt: HostRuntime) -> Result<(), Fail> {
    let alloc = rt.alloc();
    let old = newest(alloc, 10, 105, &[900, 100], &[900, 100, 0])?;
    for case in RENEWALS {
        let mut revisions = List::new(alloc);
        revisions.push(clearing(alloc, &old)?)?;
        let tx = transaction(alloc, &case, [5; 32], revisions)?;
        let answer = check_renew(alloc, &tx, &old, &SMALL);
        assert!(rt; told(answer) == case.answer, "{case:?}");
    }
    Ok(())
}

#[test]
fn what_clears_a_contract_is_as_it_has_to_be(rt: HostRuntime) -> Result<(), Fail> {
    let alloc = rt.alloc();
    let old = newest(alloc, 10, 105, &[900, 100], &[900, 100, 0])?;
    let cleared = clearing(alloc, &old)?;
    assert_eq!(rt; cleared.number, u64::MAX);
    assert_eq!(rt; cleared.size, 0);
    assert_eq!(rt; cleared.missed.len(), 2);
    for (name, size, number) in [("its size", 10, u64::MAX), ("its number", 0, u64::MAX - 1)] {
        let mut revisions = List::new(alloc);
        revisions.push(Revision {
            size,
            number,
            ..clearing(alloc, &old)?
        })?;
        let tx = transaction(alloc, &RENEWAL, [5; 32], revisions)?;
        let answer = check_renew(alloc, &tx, &old, &SMALL);
        assert!(rt; told(answer) == Err(0), "{name}");
    }
    Ok(())
}

// The collateral, or the point; none of the tests runs out of memory.
fn told(answer: Result<u128, FormFault>) -> Result<u128, u64> {
    match answer {
        Ok(collateral) => Ok(collateral),
        Err(FormFault::BadContract { point }) => Err(point),
        Err(FormFault::NoFunds { .. } | FormFault::Memory) => Err(u64::MAX),
    }
}

// The transaction of a case, whose contract has this root.
fn transaction(
    alloc: Global,
    case: &Case,
    root: Hash,
    revisions: List<Revision>,
) -> Result<Transaction, AllocError> {
    let mut contracts = List::new(alloc);
    for _ in 0..case.copies {
        contracts.push(contract(alloc, case, &root)?)?;
    }
    Ok(Transaction {
        coin_inputs: List::new(alloc),
        coin_outputs: List::new(alloc),
        contracts,
        revisions,
        proofs: List::new(alloc),
        fund_inputs: List::new(alloc),
        fund_outputs: List::new(alloc),
        fees: List::new(alloc),
        notes: List::new(alloc),
        signatures: List::new(alloc),
    })
}

fn contract(alloc: Global, case: &Case, root: &Hash) -> Result<FileContract, AllocError> {
    let [renter_key, host_key] = case.keys;
    let [renter, host] = case.valid;
    let [missed_renter, missed_host, void] = case.missed;
    Ok(FileContract {
        size: case.size,
        root: root.copy(alloc)?,
        start: case.window[0],
        end: case.window[1],
        payout: 0,
        valid: List::from_slice(alloc, &[output(renter, &HOME), output(host, &case.host)])?,
        missed: List::from_slice(
            alloc,
            &[
                output(missed_renter, &HOME),
                output(missed_host, &HOST_ADDRESS),
                output(void, &[0; 32]),
            ],
        )?,
        address: both_address(alloc, &renter_key, &host_key)?,
        number: case.number,
    })
}

fn output(value: u128, address: &Hash) -> CoinOutput {
    CoinOutput {
        value,
        address: *address,
    }
}
