//! What a search asks of a strategy.
ghost use Rattle.strategy_port.specs.Scene.{IsScene};

use crate::moves::{Move, Wish};
use crate::scene::Scene;
use instance_store::NoMemory;

/// What proposes duals, plans and splits to a search of one instance. The search enters a box whose leaf is open,
/// asks for one move after another while it stays open, and may then ask for a wish.
pub trait Strategy {
    /// Goes into a box.
    fn enter(&mut self, scene: &Scene<'_, '_>)
        requires { IsScene scene.now };

    /// What to try next in the box that was entered last. It fails only where memory runs out.
    fn next(&mut self, scene: &Scene<'_, '_>) -> Result<Move, NoMemory>
        requires { IsScene scene.now };

    /// How to split the box that was entered last. Where nothing is wished, or what is wished can't be, the search
    /// goes by its own rule.
    fn wish(&mut self, scene: &Scene<'_, '_>) -> Option<Wish>
        requires { IsScene scene.now };
}
