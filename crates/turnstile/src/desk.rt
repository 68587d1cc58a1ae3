//! What threads take turns at.
ghost use Rattle.std.specs.Prelude.{ℕ, List, [], ◌∷◌, ◌++◌, Option, IfErr};
ghost use Rattle.turnstile.specs.Turns.{entry_of};

use std::sync::Wait;

/// A state that changes by steps. It stands for a list of turns from a base, which no step changes.
pub trait Desk {
    type Ask;

    type Answer;

    type Refusal;

    type Base;

    // That the desk stands for these turns, each an ask with its answer or blank, from this base.
    ghost stands: { Self → Self.Base → List (Option (Self.Ask × Self.Answer)) → Type 0 };

    // That an ask may be refused so.
    ghost refuses: { Self.Ask → Self.Refusal → Type 0 };

    /// One step. Refused, it is a blank turn. It may wait, and then all that come to the turnstile do.
    fn step<R: Wait>(&mut self, rt: &R, ask: Self::Ask) -> Result<Self::Answer, Self::Refusal>
        ensures refused { IfErr result (λ e. refuses ask e) }
        ensures turn { (base : Self.Base) (turns : List (Option (Self.Ask × Self.Answer))) → stands
            self.old base turns → stands self.new base (turns ++ entry_of ask result ∷ []) };
}
