// How the calls of an object in memory go: which of them fail, and how much one moves.
ghost use Rattle.shelf_port.specs.Files.{IsPiece};
ghost use Rattle.std.specs.Prelude.{length, ◌≡◌, ◌+◌, ◌-◌, ◌^◌, ◌<◌, ◌≤◌, ◌↔◌, IsTrue};

/// Which calls fail, by their numbers, and how many bytes one call moves at most.
#[derive(Debug, Drop)]
pub(crate) struct CallPlan {
    failing: Vec<u64>,
    made: u64,
    width: usize,
    ghost moves: { 0 < width },
}

impl CallPlan {
    ghost use Rattle.shelf_port.specs.Plan.{NextFails, after_call, IsInPieces};

    /// The calls with these numbers fail, counted from 1. One call moves all that it is asked to.
    pub(crate) fn new(failing: Vec<u64>) -> Self
        ensures failing { result.failing ≡ failing }
        ensures made { result.made ≡ 0 }
    {
        CallPlan {
            failing,
            made: 0,
            width: usize::MAX,
        }
    }

    /// The same calls fail, and one call moves at most so many bytes.
    pub(crate) fn in_pieces(self, width: usize) -> Self
        requires { 0 < width }
        ensures { IsInPieces width self result }
    {
        CallPlan {
            failing: self.failing,
            made: self.made,
            width,
        }
    }

    /// Makes the next call, and says whether it is to fail.
    pub(crate) fn next_fails(&mut self) -> bool
        ensures fails { IsTrue result ↔ NextFails self.old }
        ensures made { self.new ≡ after_call self.old }
    {
        self.made = self.made.saturating_add(1);
        self.failing.contains(&self.made)
    }

    /// How many of so many bytes one call moves.
    pub(crate) fn part_of(&self, count: usize) -> usize
        ensures within { result ≤ count }
        ensures width { result ≤ self.now.width }
        ensures progress { 0 < count → 0 < result }
    {
        count.min(self.width)
    }
}

/// Copies bytes of a file from a place on to the front of a buffer, and says how many.
pub(crate) fn copy_from(file: &[u8], at: usize, plan: &CallPlan, into: &mut [u8]) -> usize
    ensures bound { result ≤ length into.new }
    ensures within { result ≤ length file.now - at }
    ensures width { result ≤ plan.now.width }
    ensures reads { IsPiece file.now at result into.old into.new }
{
    let rest = &file[at.min(file.len())..];
    let count = plan.part_of(rest.len().min(into.len()));
    into[..count].copy_from_slice(&rest[..count]);
    count
}
