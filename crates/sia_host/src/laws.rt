//! Laws of a host. The functions do nothing: their contracts are the laws.
ghost use Rattle.std.specs.Prelude.{◌≡◌, ◌∷◌, ◌++◌, [], ℕ, All, List, Some, true, false};
ghost use Rattle.std.specs.List.{list_any};
ghost use Rattle.sia_records.specs.declared.host_record.HostRecord.{HostRecord};
ghost use Rattle.sia_commands.specs.declared.command.Command.{Command};
ghost use Rattle.sia_commands.specs.declared.event.Event.{Event};
ghost use Rattle.sia_commands.specs.declared.step.Room.{Room};
ghost use Rattle.sia_host.specs.declared.outbox.Due.{Due};
ghost use Rattle.sia_host.specs.Answered.{Host, Reaction};
ghost use Rattle.sia_host.specs.Answers.{IsAnswer};
ghost use Rattle.sia_host.specs.Holding.{IsRun, KeepsOut, Move, acquires, gives_up_in};
ghost use Rattle.sia_host.specs.Replaying.{HasLeast, IsTyped, replays};
ghost use Rattle.sia_host.specs.Jobs.{due_job};
ghost use Rattle.sia_commands.specs.OutJobs.{proved_by};
ghost use Rattle.sia_host.specs.Outbox.{due_now};
ghost use Rattle.sia_kept.specs.State.{IsSound, Kept};

use sia_edge::{SigCheck, Signer};

/// What is handed out of a due contract becomes, with the bytes of the slot that is named beside it, the transaction with the storage
/// proof of that contract.
pub fn due_jobs_are_made()
    ensures { (bytes : ℕ → List ℕ) (h : Host) (c : Kept) (due : Due) → due_now h c ≡ Some due → due_job bytes h c ≡ Some (proved_by due.asked (bytes due.slot)) }
{}

/// What a command makes a record of replays on what the host knew before it: where the host is sound, as each is, the command finds
/// the least free slots, and the transaction of a renewal is of its type.
pub fn records_replay<C: SigCheck, G: Signer>()
    ensures { (key : List ℕ) (h : Host) (room : Room) (worker session : ℕ) (command : Command) (a : Reaction) (made : HostRecord) → IsSound h.settings.sector h.settings.host_key h.state.contracts → HasLeast h room → IsTyped command
        → IsAnswer C.verdict (G.Makes key) h room worker session command a → a.made ≡ Some made → replays C.verdict h made ≡ true }
{}

/// Between the event by which a session acquires a contract's lock and the one by which it gives it back or leaves, every record but a
/// block or a revert that names the contract is made by an event of that session; and another session's request for its lock that
/// isn't refused is told that it is held, with the holder's number: in each run of answers of a host that began without an event.
pub fn locks_keep_others_out<C: SigCheck, G: Signer>()
    ensures { (key : List ℕ) (h : Host) (before later : List Move) (move : Move) (event : Event) (contract : List ℕ) → h.events ≡ [] → IsRun C.verdict (G.Makes key) h (before ++ move ∷ later)
        → move.reaction.event ≡ Some event → acquires contract event ≡ true → list_any (gives_up_in event.session) later ≡ false → All (KeepsOut event.session contract) later }
{}
