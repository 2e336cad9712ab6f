//! The calls that a run makes of its files, its input and its output.
ghost use Rattle.std.specs.Prelude.{◌≡◌, ◌<◌};

/// How many bytes one call moves at most, in runs over few and over many calls.
pub const WIDTHS: [usize; 4] = [1, 2, 7, 65_536];

/// How many bytes one call moves at most, and which call fails: of the shelf, of the input and of the
/// output one each, by its number from 1, or none where the number is 0.
#[derive(Clone, Copy)]
pub struct Calls {
    pub width: usize,
    pub shelf_fails: u64,
    pub input_fails: u64,
    pub out_fails: u64,
}

impl Calls {
    /// Calls none of which fails.
    pub fn sound(width: usize) -> Calls
        ensures { result ≡ record { width = width; shelf_fails = 0; input_fails = 0; out_fails = 0 } }
    {
        Calls {
            width,
            shelf_fails: 0,
            input_fails: 0,
            out_fails: 0,
        }
    }

    /// Calls of which this one of the shelf fails.
    pub fn failing_shelf(width: usize, call: u64) -> Calls
        ensures { result ≡ record { width = width; shelf_fails = call; input_fails = 0; out_fails = 0 } }
    {
        Calls {
            width,
            shelf_fails: call,
            input_fails: 0,
            out_fails: 0,
        }
    }

    /// Calls of which this one of the input fails.
    pub fn failing_input(width: usize, call: u64) -> Calls
        ensures { result ≡ record { width = width; shelf_fails = 0; input_fails = call; out_fails = 0 } }
    {
        Calls {
            width,
            shelf_fails: 0,
            input_fails: call,
            out_fails: 0,
        }
    }

    /// Calls of which this one of the output fails.
    pub fn failing_out(width: usize, call: u64) -> Calls
        ensures { result ≡ record { width = width; shelf_fails = 0; input_fails = 0; out_fails = call } }
    {
        Calls {
            width,
            shelf_fails: 0,
            input_fails: 0,
            out_fails: call,
        }
    }
}

/// How many calls move so many bytes, where one moves so many at most.
pub fn calls_for(bytes: usize, width: usize) -> u64
    requires { 0 < width }
{
    bytes.div_ceil(width) as u64
}

/// How many reads of so many bytes find a file of this length whole, and its end.
pub(crate) fn reads_for(bytes: usize, width: usize) -> u64
    requires { 0 < width }
{
    calls_for(bytes, width).saturating_add(1)
}
