//! Laws of a host's slots. The functions do nothing: their contracts are the laws.
ghost use Rattle.std.specs.Prelude.{◌≡◌, ℕ, ◌<◌, Bool, List, true, if◌then◌else◌, length, slice_index_or, take};
ghost use Rattle.sia_records.specs.declared.host_record.HostRecord.{HostRecord};
ghost use Rattle.sia_commands.specs.declared.command.Command.{Command};
ghost use Rattle.sia_commands.specs.declared.step.Room.{Room};
ghost use Rattle.sia_kept.specs.State.{IsSound, is_free_slot, live_slots, with_record};
ghost use Rattle.sia_host.specs.Answered.{Host, Reaction};
ghost use Rattle.sia_host.specs.Answers.{IsAnswer};
ghost use Rattle.sia_host.specs.Replaying.{HasLeast, replays};
ghost use Rattle.sia_shelf.specs.declared.mark.Mark.{Mark};
ghost use Rattle.sia_shelf.specs.declared.mark.Mark.TheVariants as mark;
ghost use Rattle.sia_shelf.specs.Shelf.{free_slots, mark_of};
ghost use Rattle.sia_slots.specs.Slots.{NamedOnce, SlotsPass, StaysOnce, free_below};
ghost use Rattle.sia_slots.specs.Work.{IsWork};

use sia_edge::{SigCheck, Signer};

/// What a sound host leaves to be done by an answer fits the room that the command found and what the host knows.
pub fn answers_work<C: SigCheck, G: Signer>()
    ensures { (key : List ℕ) (h : Host) (room : Room) (worker session : ℕ) (command : Command) (a : Reaction) → IsSound h.settings.sector h.settings.host_key h.state.contracts
        → IsAnswer C.verdict (G.Makes key) h room worker session command a → IsWork h room a }
{}

/// The first of the free slots of a shelf are the least free slots, however large the shelf is.
pub fn rooms_have_least()
    ensures { (h : Host) (room : Room) (n slots : ℕ) → room.free ≡ take n (free_below slots (live_slots h.state)) → HasLeast h room }
{}

/// Where no slot is live twice and the first of the free ones are taken, none is live or freed twice afterwards; and what is freed isn't
/// live.
pub fn once_stays()
    ensures { (live : List ℕ) (slots n k : ℕ) (taken after freed : List ℕ) → NamedOnce live → taken ≡ take k (take n (free_below slots live)) → SlotsPass live taken after freed
        → StaysOnce slots live taken after freed }
{}

/// A record that replays on what a sound host knows leaves no slot live twice, where none was.
pub fn replays_keep_once<C: SigCheck>()
    ensures { (h : Host) (made : HostRecord) → IsSound h.settings.sector h.settings.host_key h.state.contracts → NamedOnce (live_slots h.state) → replays C.verdict h made ≡ true
        → NamedOnce (live_slots (with_record h.settings.host_key h.state made)) }
{}

/// Where each slot of a shelf is marked as live or free as a list says, the free ones by the marks are those that aren't in the list.
pub fn marks_are_free()
    ensures { (live : List ℕ) (marks : List Mark) → ((slot : ℕ) → slot < length marks → mark_of marks slot ≡ (if is_free_slot live slot then mark.Free else mark.Live))
        → free_slots marks ≡ free_below (length marks) live }
{}

/// No slot stands in a list twice just where none stands at two places of it.
pub fn once_is_apart()
    ensures { (slots : List ℕ) → (NamedOnce slots → (i j d : ℕ) → i < j → j < length slots → slice_index_or slots i d ≡ slice_index_or slots j d → ⊥)
        × (((i j d : ℕ) → i < j → j < length slots → slice_index_or slots i d ≡ slice_index_or slots j d → ⊥) → NamedOnce slots) }
{}
