//! The strategy that proposes nothing.
ghost use Rattle.std.specs.Prelude.{◌≡◌};
ghost use Rattle.strategy_port.specs.Scene.{IsScene};

use crate::moves::{Move, Wish};
use crate::scene::Scene;
use crate::strategy::Strategy;
use instance_store::NoMemory;

/// Proposes nothing: a search with it is the plain procedure, by ascents, one step of the adjustment, packed plans
/// and splits by slack.
#[derive(Clone, Copy)]
pub struct PlainStrategy;

impl Strategy for PlainStrategy {
    fn enter(&mut self, _scene: &Scene<'_, '_>) {}

    fn next(&mut self, _scene: &Scene<'_, '_>) -> Result<Move, NoMemory>
        requires { IsScene _scene.now }
        ensures { result ≡ Ok Move.Done }
    {
        Ok(Move::Done)
    }

    fn wish(&mut self, _scene: &Scene<'_, '_>) -> Option<Wish>
        requires { IsScene _scene.now }
        ensures { result ≡ None }
    {
        None
    }
}
