//! What the boxes that lead to the one at work hand on.
use instance_store::NoMemory;
use std::alloc::Global;
use whole_steps::Inherited;

/// What a box hands on.
#[derive(Drop)]
pub(crate) struct Left {
    // How many decisions lead to the box.
    depth: usize,
    // Whether it is split where the box of one of the parts closes with the same duals.
    is_sure: bool,
    pub(crate) handed: Inherited,
}

/// What boxes hand on, from the box of the instance to the last one that was split.
#[derive(Drop)]
pub(crate) struct Trail {
    boxes: Vec<Left>,
}

impl Trail {
    /// Before the first box.
    pub(crate) fn new(alloc: Global) -> Trail {
        Trail {
            boxes: Vec::new(alloc),
        }
    }

    /// Begins with what the box of the instance hands on. It fails only where memory runs out.
    pub(crate) fn begin(&mut self, handed: Inherited) -> Result<(), NoMemory> {
        self.boxes.clear();
        self.push(0, false, handed)
    }

    /// Another box is split, to which so many decisions lead. It fails only where memory runs out.
    pub(crate) fn push(
        &mut self,
        depth: usize,
        is_sure: bool,
        handed: Inherited,
    ) -> Result<(), NoMemory> {
        self.boxes.push(Left {
            depth,
            is_sure,
            handed,
        })?;
        Ok(())
    }

    /// Goes to a box to which so many decisions lead: what boxes that don't lead to it handed on is dropped, but for
    /// that of the instance's.
    pub(crate) fn go_to(&mut self, depth: usize) {
        for _ in 1..self.boxes.len() {
            match self.boxes.last() {
                None => return,
                Some(last) => {
                    if last.depth < depth {
                        return;
                    }
                }
            }
            let _gone = self.boxes.pop();
        }
    }

    /// What the last of the boxes handed on.
    pub(crate) fn last(&self) -> Option<&Left> {
        self.boxes.last()
    }

    /// Whether the last of the boxes was split where the box of one of the parts closes with the same duals.
    pub(crate) fn is_last_sure(&self) -> bool {
        match self.boxes.last() {
            None => false,
            Some(last) => last.is_sure,
        }
    }
}
