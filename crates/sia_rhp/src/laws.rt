//! Laws of the messages and frames, beside that of every item ([`sia_encoding::laws`]). The functions do nothing: their contracts
//! are the laws.
ghost use Rattle.std.specs.Prelude.{◌≡◌, ℕ, ◌+◌, ◌^◌, ◌<◌, ◌≤◌, ◌++◌, List, length, Some, Ok};
ghost use Rattle.sia_encoding.specs.Codec.{Lawful};
ghost use Rattle.sia_rhp.specs.declared.answer.Answer.{Answer};
ghost use Rattle.sia_rhp.specs.declared.label.Label.{Label};
ghost use Rattle.sia_rhp.specs.Answers.{answer_to, spelled_answer};
ghost use Rattle.sia_rhp.specs.Frames.{bodies_from, frame_of, frame_at, frames_of};
ghost use Rattle.sia_rhp.specs.Requests.{request};

/// Each request has one spelling and is read back from it, whatever follows; and no spelling is a proper prefix of another.
pub fn of_request()
    ensures { Lawful request }
{}

/// The same of the answers to the requests of a label.
pub fn of_answer()
    ensures { (label : Label) → Lawful (answer_to label) }
{}

/// An answer is spelled in the same way, whatever request it is for.
pub fn answers_have_one_spelling()
    ensures { (label : Label) (limit : ℕ) (answer : Answer) → (answer_to label).fits limit answer → (answer_to label).spelled answer ≡ spelled_answer answer }
{}

/// The frames of bytes are the one in front, and those behind it.
pub fn frames_follow()
    ensures { (limit room : ℕ) (bytes : List ℕ) → frames_of limit room bytes ≡ bodies_from (frames_of limit) room bytes (frame_at limit room bytes) }
{}

/// What is sent is read: the frame of a body that is within the limit and the room, whatever follows.
pub fn frames_are_read()
    ensures { (limit room : ℕ) (body rest : List ℕ) → length body ≤ limit → 8 + length body ≤ room → length body < 2 ^ 64 → frame_at limit room (frame_of body ++ rest) ≡ Ok (Some body) }
{}
