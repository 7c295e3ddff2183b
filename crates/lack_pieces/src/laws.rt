//! The laws of pieces, as contracts of functions that do nothing: a proof that calls a function
//! may use its clause.

ghost use Rattle.std.specs.Prelude.{◌≡◌, ◌↔◌, ℕ, List, Option, Some};
ghost use Rattle.st_core.specs.declared.types.Event.{Event};
ghost use Rattle.st_core.specs.declared.types.Pid.{Pid};
ghost use Rattle.st_core.specs.Run.{Stream};
ghost use Rattle.st_core.specs.Streams.{IsStreams};
ghost use Rattle.st_pair.specs.Places.{event_at};
ghost use Rattle.lack_decide.specs.declared.answer.Never.{Never};
ghost use Rattle.lack_decide.specs.declared.answer.Answer.{Answer};
ghost use Rattle.lack_decide.specs.Answers.{IsAgainst, IsAnswer};
ghost use Rattle.lack_pieces.specs.declared.placed_reason.PlacedReason.{PlacedReason};
ghost use Rattle.lack_pieces.specs.Pieces.{ArePieces, Piece};
ghost use Rattle.lack_pieces.specs.Reasons.{IsAgainstInSome};
ghost use Rattle.lack_pieces.specs.Verdicts.{AreVerdicts, IsFirstAmong, IsNamed, IsVerdictOn};

/// A reason is against an event of streams exactly if it is against it in one of their pieces.
pub fn reasons_are_those_of_pieces()
    ensures { (top : ℕ) (streams : List Stream) (pieces : List Piece) → IsStreams streams
        → ArePieces streams pieces → (p : Pid) (i : ℕ) (e : Event) (reason : Never)
        → (((event_at streams p i ≡ Some e) × IsAgainst top streams p i e reason)
        ↔ IsAgainstInSome top pieces p i e reason) }
{}

/// The first of the verdicts on all pieces is the verdict on the streams.
pub fn verdict_is_the_first_of_pieces()
    ensures { (top : ℕ) (streams : List Stream) (pieces : List Piece)
        (verdicts : List (Option PlacedReason)) (first : Option PlacedReason) → IsStreams streams
        → ArePieces streams pieces → AreVerdicts top pieces verdicts
        → IsFirstAmong verdicts first → IsVerdictOn top streams first }
{}

/// There is one verdict on streams, and `complete` returns it, if it returns an answer.
pub fn verdict_is_that_of_complete()
    ensures one { (top : ℕ) (streams : List Stream) (one other : Option PlacedReason)
        → IsVerdictOn top streams one → IsVerdictOn top streams other → one ≡ other }
    ensures named { (top : ℕ) (streams : List Stream) (answer : Answer)
        (verdict : Option PlacedReason) → IsAnswer top streams answer
        → IsVerdictOn top streams verdict → IsNamed answer verdict }
{}
