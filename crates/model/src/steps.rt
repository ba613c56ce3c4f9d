// The system from its fresh state, event by event; and one event in any state.
ghost use Rattle.std.specs.Prelude.{◌≡◌, true, false, MatchOption};
ghost use Rattle.rules.specs.State.{fresh, laid};
ghost use Rattle.rules.specs.Sound.{sound};
ghost use Rattle.rules.specs.Step.{step_of};
ghost use Rattle.model.specs.System.{Plays, state_of};

use crate::layout::lay_out;
use crate::readout::{answer_in, state_in};
use crate::system::System;
use places::answers::{Reply, reply};
use places::arrays::Arrays;
use rules::outcome::Refusal;
use rules::state::*;
use soundness::is_sound;

impl System {
    // The fresh state.
    pub fn fresh() -> System
        ensures { state_of result ≡ laid fresh }
    {
        let mut arrays = Arrays::zeros();
        turns::begin(&mut arrays.numbers);
        System { arrays }
    }

    // The state s, if it is sound.
    pub fn of(s: State) -> Option<System>
        ensures { MatchOption result (sound s ≡ false) (λ m. (sound s ≡ true) × (state_of m ≡ s)) }
    {
        if !is_sound(s) {
            return None;
        }
        let arrays = lay_out(s);
        Some(System { arrays })
    }

    // One event: its answer, and the state after it.
    pub fn turn(&mut self, e: Event) -> Reply
        ensures { Plays self.old e result self.new }
    {
        turns::turn(&mut self.arrays, e)
    }

    pub fn state(&self) -> State
        ensures { result ≡ state_of self.now }
    {
        state_in(&self.arrays)
    }
}

pub fn fresh() -> State
    ensures { result ≡ laid fresh }
{
    System::fresh().state()
}

pub fn step(s: State, e: Event) -> Stepped
    ensures { result ≡ step_of s e }
{
    let Some(mut system) = System::of(s) else {
        let answer = answer_in(&reply(Err(Refusal::Badstate)));
        return Stepped { answer, state: s };
    };
    let answer = answer_in(&system.turn(e));
    let state = system.state();
    Stepped { answer, state }
}
