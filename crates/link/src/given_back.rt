// A refused call that took its state by value gives it back.
ghost use Rattle.std.specs.Prelude.{◌≡◌};
ghost use Rattle.link.specs.declared.refused.Refused.TheVariants.{OutOfTurn};

use crate::refused::Refused;

#[derive(Drop)]
pub struct GivenBack<S> {
    pub state: S,
    pub refused: Refused,
}

impl<S> GivenBack<S> {
    pub(crate) fn out_of_turn(state: S) -> GivenBack<S>
        ensures { result ≡ record { state = state; refused = OutOfTurn } }
    {
        GivenBack {
            state,
            refused: Refused::OutOfTurn,
        }
    }
}
