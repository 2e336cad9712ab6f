//! Flags of sites, by place.
ghost use Rattle.std.specs.Prelude.{◌≡◌, ◌≤◌, length, take};
ghost use Rattle.plan_search.specs.Flags.{flagged};

/// How many places are flagged.
pub(crate) fn flag_count(flags: &[bool]) -> usize
    ensures exact { result ≡ length (flagged flags.now) }
    ensures small { result ≤ length flags.now }
{
    let mut count = 0;
    for place in 0..flags.len() {
        if flags[place] {
            count += 1;
        }
    }
    count
}

/// Takes the flags away behind the first `most` of them.
pub(crate) fn keep_first(most: usize, flags: &mut [bool])
    ensures long { length flags.new ≡ length flags.old }
    ensures exact { flagged flags.new ≡ take most (flagged flags.old) }
{
    let mut left = most;
    for place in 0..flags.len() {
        if flags[place] {
            if left == 0 {
                flags[place] = false;
            } else {
                left -= 1;
            }
        }
    }
}
