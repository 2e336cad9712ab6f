//! The leaves of a tree that is handed to a search.
use dual_value::Path;
use instance_store::NoMemory;

/// Where a search stands among the leaves of the tree that it was handed: each of them is worked with all parts of
/// its box before the next one.
#[derive(Drop)]
pub(crate) struct Leaves {
    // The path of the leaf at work.
    path: Option<Path>,
    asked: u32,
    are_several: bool,
}

impl Leaves {
    /// Before the first one.
    pub(crate) fn none() -> Leaves {
        Leaves {
            path: None,
            asked: 0,
            are_several: false,
        }
    }

    /// Sees the box that is entered: whether it is that of another leaf, where the tree has several. It fails only
    /// where memory runs out.
    pub(crate) fn begins(&mut self, path: &Path) -> Result<bool, NoMemory> {
        if let Some(leaf) = &self.path {
            if path.as_slice().starts_with(leaf.as_slice()) {
                return Ok(false);
            }
        }
        self.are_several = path.steps() > 0;
        self.path = Some(path.copied()?);
        self.asked = self.asked.saturating_add(1);
        Ok(self.are_several)
    }

    /// In how many of them the strategy was asked.
    pub(crate) fn asked(&self) -> u32 {
        self.asked
    }

    /// Whether the tree has several.
    pub(crate) fn are_several(&self) -> bool {
        self.are_several
    }
}
