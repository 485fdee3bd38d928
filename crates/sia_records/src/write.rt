//! Writes that are prepared: what takes time is done before the write comes to a host's turn (RHP2's write).
ghost use Rattle.std.specs.Prelude.{◌≡◌, ℕ, List as Sequence, ◌∷◌, ◌++◌, IfOk, IsTrue, OnOk, length, count_by, nat_eq};
ghost use Rattle.sia_records.specs.Writes.{is_prepared, puts_sector as puts, sectors_of, steps_of, updates_of};
ghost use Rattle.std.specs.List.{list_all};
ghost use Rattle.std.specs.Vec.Iter.{into_iter_items};
ghost use Rattle.sia_rhp.specs.declared.action.Action.{Action as Step};
ghost use Rattle.sia_records.specs.Making.{merged};

use crate::fetched::Fetched;
use crate::fitting::actions_fit;
use crate::making::{Made, make};
use sia_diff::DiffStep;
use sia_encoding::{Blob, Item, List};
use sia_rhp::{Action, WriteRequest};
use sia_types::UpdateProof;
use std::alloc::{AllocError, Global};
use std::marker::Model;
use std::vec::IntoIter;

/// A write, with a sector for each of its updates. Contracts see it as the request and these sectors, as they were.
///
/// It keeps the sectors after the updates, the roots of all new sectors and the proofs of the updates. Where an update has no
/// sector, or its range isn't fit in the sector, it keeps the request alone.
#[derive(Drop)]
pub struct PreparedWrite {
    request: WriteRequest,
    fetched: Fetched,
    made: Option<Made>,
}

impl Model for PreparedWrite {
    ghost use Rattle.sia_records.specs.Fetched.{fetched_sectors};
    ghost use Rattle.sia_records.specs.Making.{IsMade};
    ghost use Rattle.sia_records.specs.Writes.{Prepared};

    ghost Value = { Prepared };

    ghost view = { λ w. record { request = w.request; fetched = fetched_sectors w.fetched } };

    ghost invariant = { λ w. IsMade w.request.actions (fetched_sectors w.fetched) w.made };
}

/// Prepares a write with the sectors that its updates change, as they were fetched: one for each update whose range is fit, in order.
/// All hashing is done here. Its error is want of memory.
pub fn prepare_write(
    alloc: Global,
    request: WriteRequest,
    fetched: List<Blob>,
) -> Result<PreparedWrite, AllocError>
    ensures { IfOk result (λ write. write ≡ record { request = request; fetched = fetched }) }
{
    let seen = Fetched::new(&fetched);
    let made = make(alloc, request.actions.as_slice(), fetched)?;
    Ok(PreparedWrite {
        request,
        fetched: seen,
        made,
    })
}

impl PreparedWrite {
    /// What was asked.
    pub fn request(&self) -> &WriteRequest
        ensures { result.now ≡ self.now.request }
    {
        &self.request
    }

    /// Whether it is fit by its numbers, in sectors of so many bytes: at most 16 actions, each appended sector whole, each updated range
    /// fit, and a whole sector for each update. What the contract holds is not looked at.
    pub fn fits(&self, sector: u64) -> bool
        ensures { result ≡ is_prepared sector self.now }
    {
        match &self.made {
            None => false,
            Some(made) => {
                actions_fit(sector, self.request.actions.as_slice())
                    && are_whole(sector, made.changed.as_slice())
            }
        }
    }

    /// How many sectors it puts: those that it appends, and those that it updates. It takes no memory.
    pub fn sectors(&self) -> u64
        ensures { result ≡ count_by puts self.now.request.actions }
    {
        let actions = self.request.actions.as_slice();
        actions.iter().filter(|action| puts_sector(action)).count() as u64
    }

    /// The steps that its actions are for the list of the roots of the contract's sectors.
    pub fn steps(&self) -> &[DiffStep]
        requires { (sector : ℕ) × IsTrue (is_prepared sector self.now) }
        ensures { result.now ≡ steps_of self.now }
    {
        match &self.made {
            None => unreachable!(),
            Some(made) => made.steps.as_slice(),
        }
    }

    /// The proofs of its updates, in order. It takes no memory.
    pub fn into_updates(self) -> List<UpdateProof>
        requires { (sector : ℕ) × IsTrue (is_prepared sector self) }
        ensures { result ≡ updates_of self }
    {
        let PreparedWrite {
            request: _,
            fetched: _,
            made,
        } = self;
        match made {
            None => unreachable!(),
            Some(made) => made.proofs,
        }
    }

    /// The sectors that it puts, in order. Its error is want of memory.
    pub fn into_sectors(self, alloc: Global) -> Result<List<Blob>, AllocError>
        requires { (sector : ℕ) × IsTrue (is_prepared sector self) }
        ensures { IfOk result (λ sectors. sectors ≡ sectors_of self) }
    {
        let PreparedWrite {
            request,
            fetched: _,
            made,
        } = self;
        match made {
            None => unreachable!(),
            Some(made) => merge(alloc, request.actions, made.changed),
        }
    }

    /// An equal write. Its error is want of memory.
    pub fn copy(&self, alloc: Global) -> Result<PreparedWrite, AllocError>
        ensures { IfOk result (λ write. write ≡ self.now) }
    {
        let made = match &self.made {
            None => None,
            Some(made) => Some(made.copy(alloc)?),
        };
        Ok(PreparedWrite {
            request: self.request.copy(alloc)?,
            fetched: self.fetched.copy(),
            made,
        })
    }
}

/// Whether an action puts a sector that wasn't there before.
fn puts_sector(action: &Action) -> bool
    ensures { result ≡ puts action.now }
{
    match action {
        Action::Append(_) | Action::Update { .. } => true,
        Action::Trim(_) | Action::Swap(_, _) => false,
    }
}

/// Whether each sector has so many bytes.
fn are_whole(sector: u64, sectors: &[Blob]) -> bool
    ensures { result ≡ list_all (λ have. nat_eq (length have) sector) sectors.now }
{
    sectors.iter().all(|have| have.len() as u64 == sector)
}

/// Puts the new sector of an action behind the others, where the updated ones are given in order. Its error is want of memory.
fn put_sector(
    sectors: &mut List<Blob>,
    action: Action,
    changed: &mut IntoIter<Blob, Global>,
) -> Result<(), AllocError>
    ensures { OnOk result ((others : Sequence Step) → sectors.old ++ merged (action ∷ others) (into_iter_items changed.old) ≡ sectors.new ++ merged others (into_iter_items changed.new)) }
{
    match action {
        Action::Append(bytes) => {
            sectors.push(bytes)?;
            Ok(())
        }
        Action::Update { .. } => match changed.next() {
            None => Ok(()),
            Some(sector) => {
                sectors.push(sector)?;
                Ok(())
            }
        },
        Action::Trim(_count) => Ok(()),
        Action::Swap(_one, _other) => Ok(()),
    }
}

/// The new sectors of actions, in order, where the updated ones are given. Its error is want of memory.
fn merge(
    alloc: Global,
    actions: List<Action>,
    changed: List<Blob>,
) -> Result<List<Blob>, AllocError>
    ensures { IfOk result (λ sectors. sectors ≡ merged actions changed) }
{
    let mut sectors = List::new(alloc);
    let mut rest = changed.into_vec().into_iter();
    for action in actions.into_vec() {
        put_sector(&mut sectors, action, &mut rest)?;
    }
    Ok(sectors)
}
