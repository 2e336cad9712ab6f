//! Boxes in which as many sites are opened as may be.

use dual_value::PreparedBox;
use plan_search::opened_count;

// No price of the number of open sites is above this one, in parts of a millionth.
const GREATEST_PRICE: i128 = 1_000_000_000_000_000_000_000;

/// Whether no further site may be opened in the box.
pub(crate) fn is_full(boxed: &PreparedBox<'_>) -> bool {
    opened_count(boxed) >= boxed.instance().count().1 as usize
}

/// The price of the number of open sites. Where no further site may be opened in the box it costs nothing that this is
/// greater than all that the customers pay, so that no free site gains.
pub(crate) fn price_in(boxed: &PreparedBox<'_>, values: &[i128], price: i128) -> i128 {
    if !is_full(boxed) {
        return price;
    }
    let mut sum = 0i128;
    for value in values {
        sum = sum.saturating_add((*value).max(0));
    }
    price.max(sum.min(GREATEST_PRICE))
}
