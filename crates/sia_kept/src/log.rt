//! The events of a run, and the sessions that are live by them.
ghost use Rattle.std.specs.Prelude.{◌≡◌, ◌≢◌, ℕ, ◌+◌, ◌*◌, ◌<◌, ◌≤◌, ◌==◌, true, false, [], ◌∷◌, ◌++◌, map, length, if◌then◌else◌, vec_len, vec_capacity, IsSome, OnOk, OnErr, option_copied};
ghost use Rattle.std.specs.List.{count_by};
ghost use Rattle.sia_kept.specs.Logs.{LogView, earlier};
ghost use Rattle.sia_kept.specs.Sessions.{begins, challenge_at as challenge_so, session_changed, effect_of as effect_so, holder_among, is_held as is_held_so, live_sessions, sessions_after, sessions_by, with_number, without_session};

use crate::session::{Effect, Session, effect_of};
use sia_blake::{Hash, Hasher};
use sia_commands::{Event, Kind, Outcome};
use std::alloc::{AllocError, Global};
use std::marker::Model;
use std::mem::swap;

/// The events of a run, in order, and the live sessions, as they are and as they were before the last event. Contracts see the seed of the
/// challenges, the events, for how many more there is room, and whether an event was taken back; the leave of a live session always has
/// room.
#[derive(Drop)]
pub struct Log {
    seed: Hash,
    events: Vec<Event>,
    sessions: Vec<Session>,
    before: Vec<Session>,
    entered: u64,
    spare: u64,
    spoiled: bool,
}

impl Model for Log {
    ghost use Rattle.std.specs.Prelude.{◌≡◌, ◌+◌, ◌*◌, ◌≤◌, false, vec_len, vec_capacity};
    ghost use Rattle.std.specs.List.{count_by};
    ghost use Rattle.sia_kept.specs.Logs.{LogView, earlier, room_back};
    ghost use Rattle.sia_kept.specs.Sessions.{begins, live_sessions};

    ghost Value = { LogView };

    ghost view = { λ l. record { seed = l.seed; events = l.events.items; spare = l.spare; spoiled = l.spoiled } };

    ghost invariant = { λ l. (l.sessions.items ≡ live_sessions l.seed l.events.items) × (l.entered ≡ count_by begins l.events.items) × (vec_len l.events + vec_len l.sessions + room_back l.events.items l.spoiled + 3 * l.spare ≤ vec_capacity l.events) × (vec_len l.sessions + l.spare ≤ vec_capacity l.sessions) × (vec_len l.sessions + l.spare ≤ vec_capacity l.before) × (vec_len l.before ≤ vec_capacity l.sessions) × (l.spoiled ≡ false → (l.before.items ≡ live_sessions l.seed (earlier l.events.items)) × (vec_len l.events + vec_len l.before ≤ vec_capacity l.events)) };
}

impl Log {
    /// No event, and room for none. It takes no memory.
    #[tactic(auto, unfolding(crate::specs::Sessions::sessions_from))]
    pub fn new(alloc: Global, seed: Hash) -> Log
        ensures { result ≡ record { seed = seed; events = []; spare = 0; spoiled = false } }
    {
        Log {
            seed,
            events: Vec::new(alloc),
            sessions: Vec::new(alloc),
            before: Vec::new(alloc),
            entered: 0,
            spare: 0,
            spoiled: false,
        }
    }

    /// Makes room for one event more. Its error is want of memory.
    pub fn reserve(&mut self) -> Result<(), AllocError>
        ensures ok { OnOk result (self.new ≡ record self.old { spare = 1 }) }
        ensures err { OnErr result (self.new ≡ self.old) }
    {
        let live = self.sessions.len();
        self.events.reserve(live + 4)?;
        self.sessions.reserve(1)?;
        self.before.reserve(live + 1)?;
        self.spare = 1;
        Ok(())
    }

    /// Puts an event behind the last one, in room that is there.
    pub fn note(&mut self, event: Event)
        requires { 1 ≤ self.old.spare }
        ensures { self.new ≡ record self.old { events = self.old.events ++ event ∷ []; spare = 0 } }
    {
        let place = self.events.len() as u64;
        self.spare = 0;
        copy_sessions(&self.sessions, &mut self.before);
        follow(&self.seed, place, &event, &mut self.sessions);
        self.entered += begun(&event);
        let Ok(()) = self.events.push(event) else {
            unreachable!()
        };
    }

    /// Puts the leave of a live session behind the last event. There is always room for it.
    pub fn note_leave(&mut self, event: Event)
        requires live { IsSome (with_number event.session (live_sessions self.old.seed self.old.events)) }
        requires ends { effect_so event.kind event.outcome ≡ Effect.Ends }
        ensures { self.new ≡ record self.old { events = self.old.events ++ event ∷ [] } }
    {
        copy_sessions(&self.sessions, &mut self.before);
        end(&mut self.sessions, event.session);
        let Ok(()) = self.events.push(event) else {
            unreachable!()
        };
    }

    /// Puts another event, which does nothing to a session, in the place of the last one, and the sessions are as they were before that
    /// one. It is done once at most. It takes no memory.
    pub fn spoil(&mut self, event: Event)
        requires some { 0 < length self.old.events }
        requires once { self.old.spoiled ≡ false }
        requires stays { effect_so event.kind event.outcome ≡ Effect.Stays }
        ensures { self.new ≡ record self.old { events = earlier self.old.events ++ event ∷ []; spare = 0; spoiled = true } }
    {
        let Some(last) = self.events.pop() else {
            unreachable!()
        };
        self.entered -= begun(&last);
        self.spare = 0;
        self.spoiled = true;
        swap(&mut self.sessions, &mut self.before);
        let Ok(()) = self.events.push(event) else {
            unreachable!()
        };
    }

    /// The events, in order.
    pub fn events(&self) -> &[Event]
        ensures { result.now ≡ self.now.events }
    {
        self.events.as_slice()
    }

    /// How many sessions are live.
    pub fn live_count(&self) -> u64
        ensures { result ≡ length (live_sessions self.now.seed self.now.events) }
    {
        self.sessions.len() as u64
    }

    /// The session with this number, if it is live.
    pub fn session(&self, number: u64) -> Option<&Session>
        ensures { option_copied result ≡ with_number number (live_sessions self.now.seed self.now.events) }
    {
        find_session(self.sessions.as_slice(), number)
    }

    /// The session that holds a contract.
    pub fn holder(&self, contract: &Hash) -> Option<u64>
        ensures { result ≡ holder_among contract.now (live_sessions self.now.seed self.now.events) }
    {
        let found = self
            .sessions
            .as_slice()
            .iter()
            .find(|s| is_held(contract, &s.held))?;
        Some(found.number)
    }

    /// The challenge that the next event gives.
    pub fn next_challenge(&self) -> [u8; 16]
        ensures { result ≡ challenge_so self.now.seed (length self.now.events) }
    {
        challenge_at(&self.seed, self.events.len() as u64)
    }

    /// How many sessions have begun.
    pub fn entered(&self) -> u64
        ensures { result ≡ count_by begins self.now.events }
    {
        self.entered
    }
}

// Copies sessions, in room that is there.
fn copy_sessions(sessions: &Vec<Session>, copies: &mut Vec<Session>)
    requires { vec_len sessions.now ≤ vec_capacity copies.old }
    ensures items { copies.new.items ≡ sessions.now.items }
    ensures capacity { vec_capacity copies.old ≤ vec_capacity copies.new }
{
    copies.clear();
    for i in 0..sessions.len() {
        let Ok(()) = copies.push(sessions[i]) else {
            unreachable!()
        };
    }
}

// How many sessions an event begins.
fn begun(event: &Event) -> u64
    ensures { result ≡ (if begins event.now then 1 else 0) }
{
    match effect_of(event.kind, event.outcome) {
        Effect::Begins => 1,
        Effect::Acquires => 0,
        Effect::AsksAnew => 0,
        Effect::Frees => 0,
        Effect::Ends => 0,
        Effect::Stays => 0,
    }
}

// The session with this number.
fn find_session(sessions: &[Session], number: u64) -> Option<&Session>
    ensures { option_copied result ≡ with_number number sessions.now }
{
    sessions.iter().find(|s| s.number == number)
}

// Whether what a session holds is this contract.
fn is_held(contract: &Hash, held: &Option<Hash>) -> bool
    ensures { result ≡ is_held_so contract.now held.now }
{
    match held {
        None => false,
        Some(id) => *id == *contract,
    }
}

// The challenge that the event at a place gives.
#[tactic(auto, unfolding(crate::specs::Sessions::challenge_at, sia_encoding::specs::Spelling::spelled_u64))]
fn challenge_at(seed: &Hash, place: u64) -> [u8; 16]
    ensures { result ≡ challenge_so seed.now place }
{
    let mut hasher = Hasher::new();
    hasher.update(seed);
    hasher.update(&place.to_le_bytes());
    let digest = hasher.finish();
    let (front, _) = digest.split_at(16);
    let mut challenge = [0; 16];
    challenge.copy_from_slice(front);
    challenge
}

// The live sessions after an event at a place, with room for one more.
fn follow(seed: &Hash, place: u64, event: &Event, sessions: &mut Vec<Session>)
    requires { vec_len sessions.old < vec_capacity sessions.old }
    ensures items { sessions.new.items ≡ sessions_after seed.now place event.now sessions.old.items }
    ensures capacity { vec_capacity sessions.old ≤ vec_capacity sessions.new }
    ensures more { vec_len sessions.new ≤ vec_len sessions.old + 1 }
{
    let effect = effect_of(event.kind, event.outcome);
    let number = event.session;
    let challenge = challenge_at(seed, place);
    match effect {
        Effect::Begins => begin(sessions, number, challenge),
        Effect::Acquires => change(sessions, effect, number, challenge, event.contract),
        Effect::AsksAnew => change(sessions, effect, number, challenge, event.contract),
        Effect::Frees => change(sessions, effect, number, challenge, event.contract),
        Effect::Ends => end(sessions, number),
        Effect::Stays => {}
    }
}

// A session more, behind the others.
fn begin(sessions: &mut Vec<Session>, number: u64, challenge: [u8; 16])
    requires { vec_len sessions.old < vec_capacity sessions.old }
    ensures items { sessions.new.items ≡ sessions.old.items ++ record { number = number; challenge = challenge; held = None } ∷ [] }
    ensures capacity { vec_capacity sessions.old ≤ vec_capacity sessions.new }
    ensures more { vec_len sessions.new ≤ vec_len sessions.old + 1 }
{
    let begun = Session {
        number,
        challenge,
        held: None,
    };
    let Ok(()) = sessions.push(begun) else {
        unreachable!()
    };
}

// The sessions but those with a number.
fn end(sessions: &mut Vec<Session>, number: u64)
    ensures items { sessions.new.items ≡ without_session number sessions.old.items }
    ensures capacity { vec_capacity sessions.new ≡ vec_capacity sessions.old }
    ensures more { vec_len sessions.new ≤ vec_len sessions.old + 1 }
    ensures fewer { IsSome (with_number number sessions.old.items) → vec_len sessions.new < vec_len sessions.old }
{
    sessions.retain(|s| s.number != number);
}

// The sessions, where those with a number are changed.
fn change(
    sessions: &mut Vec<Session>,
    effect: Effect,
    number: u64,
    challenge: [u8; 16],
    contract: Option<Hash>,
)
    ensures items { sessions.new.items ≡ map (λ s. if s.number == number then session_changed effect challenge contract s else s) sessions.old.items }
    ensures capacity { vec_capacity sessions.new ≡ vec_capacity sessions.old }
    ensures more { vec_len sessions.new ≡ vec_len sessions.old }
{
    for i in 0..sessions.len() {
        let session = sessions[i];
        sessions[i] = changed(effect, number, challenge, contract, session);
    }
}

// A session, changed where it has this number.
fn changed(
    effect: Effect,
    number: u64,
    challenge: [u8; 16],
    contract: Option<Hash>,
    session: Session,
) -> Session
    ensures { result ≡ (if session.number == number then session_changed effect challenge contract session else session) }
{
    if session.number != number {
        return session;
    }
    after_effect(effect, challenge, contract, session)
}

// A session after an effect that it goes on with.
fn after_effect(
    effect: Effect,
    challenge: [u8; 16],
    contract: Option<Hash>,
    session: Session,
) -> Session
    ensures { result ≡ session_changed effect challenge contract session }
{
    match effect {
        Effect::Begins => session,
        Effect::Acquires => Session {
            challenge,
            held: contract,
            ..session
        },
        Effect::AsksAnew => Session {
            challenge,
            ..session
        },
        Effect::Frees => Session {
            held: None,
            ..session
        },
        Effect::Ends => session,
        Effect::Stays => session,
    }
}
