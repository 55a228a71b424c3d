// The kinds of the items of a script.
use items::{Axis, Item, Mark};

// A kind of item, with words for what its items are.
pub trait Kind: Item {
    const ITEM: &'static str;
}

impl Kind for Axis {
    const ITEM: &'static str = "an axis, 0 to 65535";
}

impl Kind for Mark {
    const ITEM: &'static str = "a mark, 1 to 8 letters";
}
