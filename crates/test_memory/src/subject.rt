//! Values, and steps on them, each made again where it is refused memory.

use crate::fault::Fault;
use std::alloc::Global;

/// How often what is refused memory is made.
const TRIES: usize = 3;

/// How a case goes: the first step that does not go as it must, and why.
pub type Outcome = Result<(), (usize, Fault)>;

/// A value, on which steps are made.
pub trait Subject: Drop {
    type Step;

    /// What is seen of the value.
    type Seen: PartialEq + Drop;

    /// Makes the step, and says whether it gives what it must. `Refused` is to change nothing.
    fn gives(&mut self, alloc: Global, step: &Self::Step) -> Result<bool, Fault>;

    /// What is seen of the value, and of what the step would do.
    fn seen(&self, alloc: Global, step: &Self::Step) -> Result<Self::Seen, Fault>;
}

/// A subject whose first value can be made anew.
pub trait Fresh: Subject {
    fn fresh(alloc: Global) -> Result<Self, Fault>;
}

/// What is seen of the value. Where there is no memory for it, the case begins anew.
fn look<S: Subject>(subject: &S, alloc: Global, step: &S::Step) -> Result<S::Seen, Fault> {
    match subject.seen(alloc, step) {
        Ok(seen) => Ok(seen),
        Err(fault) => Err(fault.of_case()),
    }
}

/// Makes the step until it is not refused memory. After each refusal the value is seen as before.
pub fn again<S: Subject>(subject: &mut S, alloc: Global, step: &S::Step) -> Result<(), Fault> {
    let before = look(subject, alloc, step)?;
    for _ in 0..TRIES {
        match subject.gives(alloc, step) {
            Ok(true) => return Ok(()),
            Ok(false) => return Err(Fault::Otherwise),
            Err(Fault::Refused) => {
                if look(subject, alloc, step)? != before {
                    return Err(Fault::Changed);
                }
            }
            Err(fault) => return Err(fault),
        }
    }
    Err(Fault::Refused)
}

/// Makes the steps in order.
pub fn go<S: Subject>(subject: &mut S, alloc: Global, steps: &[S::Step]) -> Outcome {
    for (row, step) in steps.iter().enumerate() {
        if let Err(fault) = again(subject, alloc, step) {
            return Err((row, fault));
        }
    }
    Ok(())
}

/// Makes a value and then the steps.
fn go_once<S: Fresh>(alloc: Global, steps: &[S::Step]) -> Outcome {
    match S::fresh(alloc) {
        Ok(mut subject) => go(&mut subject, alloc, steps),
        Err(fault) => Err((0, fault.of_case())),
    }
}

/// Makes a value and then the steps; anew, where the case is refused memory for its own work.
pub fn go_anew<S: Fresh>(alloc: Global, steps: &[S::Step]) -> Outcome {
    for _ in 0..TRIES {
        match go_once::<S>(alloc, steps) {
            Err((_, Fault::Anew)) => {}
            outcome => return outcome,
        }
    }
    Err((0, Fault::Refused))
}
