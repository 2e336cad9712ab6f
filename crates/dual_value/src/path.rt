//! A path of decisions. A clause sees the list.
ghost use Rattle.std.specs.Prelude.{◌≡◌, ◌+◌, ◌<◌, ◌↔◌, [], ◌∷◌, ◌++◌, length, slice_get, IsTrue, IfOk, OnOk, OnErr};
ghost use Rattle.location_terms.specs.declared.decision.Decision.{Decision};
ghost use Rattle.location_terms.specs.Box.{Path as Decisions};
ghost use Rattle.dual_value.specs.Lanes.{is_lane_step, steps_on_lanes};

use instance_store::NoMemory;
use location_terms::Decision;
use std::alloc::Global;
use std::marker::Model;
use std::ops::DerefSlice;

/// The decisions from the root of a tree to a box of plans, in order.
#[derive(Debug, Drop)]
pub struct Path {
    steps: Vec<Decision>,
    // How many of the steps are on lanes: a walk over lanes need not look for them where none is.
    lane_steps: usize,
}

impl Model for Path {
    ghost use Rattle.std.specs.Prelude.{◌≡◌};
    ghost use Rattle.location_terms.specs.Box.{Path as Decisions};
    ghost use Rattle.dual_value.specs.Lanes.{steps_on_lanes};

    ghost Value = { Decisions };

    ghost view = { λ a. a.steps.items };

    ghost invariant = { λ a. a.lane_steps ≡ steps_on_lanes a.steps.items };
}

impl Path {
    /// The path to the root, which has no step. It takes no memory yet.
    pub fn root(alloc: Global) -> Path
        ensures { result ≡ [] }
    {
        Path {
            steps: Vec::new(alloc),
            lane_steps: 0,
        }
    }

    /// A path of these steps and one more. It fails only where memory runs out.
    pub fn with(&self, step: Decision) -> Result<Path, NoMemory>
        ensures { IfOk result (λ path. path ≡ self.now ++ step ∷ []) }
    {
        let mut steps = Vec::with_capacity(*self.steps.allocator(), self.steps.len() + 1)?;
        steps.extend_from_slice(&self.steps)?;
        let mut path = Path {
            steps,
            lane_steps: self.lane_steps,
        };
        path.push(step)?;
        Ok(path)
    }

    /// The same path once more, in memory of its own. It fails only where memory runs out.
    pub fn copied(&self) -> Result<Path, NoMemory>
        ensures { IfOk result (λ path. path ≡ self.now) }
    {
        let mut steps = Vec::with_capacity(*self.steps.allocator(), self.steps.len())?;
        steps.extend_from_slice(&self.steps)?;
        Ok(Path {
            steps,
            lane_steps: self.lane_steps,
        })
    }

    /// Adds a step at the end. It fails only where memory runs out.
    pub fn push(&mut self, step: Decision) -> Result<(), NoMemory>
        ensures ok { OnOk result (self.new ≡ self.old ++ step ∷ []) }
        ensures err { OnErr result (self.new ≡ self.old) }
    {
        let on_lane = is_on_lane(&step);
        self.steps.push(step)?;
        if on_lane {
            self.lane_steps += 1;
        }
        Ok(())
    }

    /// Takes the last step off.
    pub fn pop(&mut self) -> Decision
        requires { 0 < length self.old }
        ensures { self.old ≡ self.new ++ result ∷ [] }
    {
        let step = self.steps.pop().unwrap();
        if is_on_lane(&step) {
            self.lane_steps -= 1;
        }
        step
    }

    /// Puts another step in the place of the last one.
    pub fn replace_last(&mut self, step: Decision)
        requires { 0 < length self.old }
        ensures { (front : Decisions) (last : Decision) → self.old ≡ front ++ last ∷ [] → self.new ≡ front ++ step ∷ [] }
    {
        let last = self.steps.pop().unwrap();
        if is_on_lane(&last) {
            self.lane_steps -= 1;
        }
        let on_lane = is_on_lane(&step);
        self.steps.push_reserved(step);
        if on_lane {
            self.lane_steps += 1;
        }
    }

    /// The number of steps.
    pub fn steps(&self) -> usize
        ensures { result ≡ length self.now }
    {
        self.steps.len()
    }

    /// The step at place `k`.
    pub fn step(&self, k: usize) -> Decision
        requires { k < length self.now }
        ensures { slice_get self.now k ≡ Some result }
    {
        self.steps[k]
    }

    /// All the steps.
    pub fn as_slice(&self) -> &[Decision]
        ensures { result.now ≡ self.now }
    {
        self.steps.as_slice()
    }

    // Whether no step is on a lane.
    pub(crate) fn is_of_sites(&self) -> bool
        ensures { IsTrue result ↔ (steps_on_lanes self.now ≡ 0) }
    {
        self.lane_steps == 0
    }
}

impl DerefSlice for Path {
    type Elem = Decision;

    ghost deref_gives = { λ path steps. steps ≡ path };

    fn deref(&self) -> &[Decision]
        ensures { result.now ≡ self.now }
    {
        self.steps.as_slice()
    }
}

// Whether the step takes lanes away.
pub(crate) fn is_on_lane(step: &Decision) -> bool
    ensures { result ≡ is_lane_step step.now }
{
    match step {
        Decision::Opened(_) | Decision::Closed(_) => false,
        Decision::Yes(_, _) | Decision::No(_, _) => true,
    }
}
