//! Laws of scripts and of what a session does with its link's bytes. The functions do nothing: their contracts are the laws.
ghost use Rattle.std.specs.Prelude.{◌≡◌, ℕ, ◌+◌, ◌-◌, ◌^◌, ◌++◌, ◌∷◌, true, false, List, length, take, Some, Ok};
ghost use Rattle.sia_rhp.specs.Frames.{frame_at, frame_of, frames_of};
ghost use Rattle.sia_commands.specs.declared.command.Command.TheVariants as command;
ghost use Rattle.sia_commands.specs.declared.reply.Reply.TheVariants as reply;
ghost use Rattle.sia_session.specs.declared.serve.Ended.{Ended as How};
ghost use Rattle.sia_session.specs.Acts.{Act, act, live_after};
ghost use Rattle.sia_session.specs.Script.{Runs, Script, after, and_then, say};
ghost use Rattle.sia_session.specs.Served.{Conversed, Standing, goes_on, script_for, talk_in, talk_over};
ghost use Rattle.sia_session.specs.Talk.{limit_of};

/// Acts that follow a script, and others that follow what is then left of it, follow it together.
pub fn runs_go_on()
    ensures { (script : Script How) (first second : List Act) → Runs script first → Runs (after script first) second → Runs script (first ++ second) }
{}

/// What is left of a script after acts, and others behind them, is what the others leave of what the first leave.
pub fn parts_are_left()
    ensures { (script : Script How) (first second : List Act) → Runs script first → after script (first ++ second) ≡ after (after script first) second }
{}

/// A body that was read decides what a session does first, whatever bytes come behind it.
pub fn bodies_follow()
    ensures { (now : Standing) (room : ℕ) (bytes body more : List ℕ) → frame_at (limit_of now.sector) room bytes ≡ Ok (Some body)
        → talk_in now room (take (8 + length body) bytes ++ more)
        ≡ and_then (script_for now body) (goes_on (λ next. talk_over now.number now.sector next (frames_of (limit_of now.sector) (room - (8 + length body)) more))) }
{}

/// A session is live from its Enter to the end of its talk, wherever that is cut off.
pub fn talks_stay_live()
    ensures { (now : Standing) (challenge read sent : List ℕ) (before acts : List Act) (how : How) → Conversed (say (frame_of challenge) (talk_in now (2 ^ 40) read)) how acts sent
        → live_after now.number false (before ++ act 0 command.Enter (Some (reply.Entered now.number challenge)) ∷ acts) ≡ true }
{}
