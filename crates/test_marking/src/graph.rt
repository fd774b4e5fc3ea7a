//! A test's own account of its objects and of the words that it wrote, and their closure by plain loops.
use block_map::Found;
use std::alloc::Global;
use std::test::Fail;
use words::Kind;

/// Objects, and the words that were written, each with its address.
#[derive(Drop)]
pub(crate) struct Graph {
    objects: Vec<Found>,
    written: Vec<(u64, u64)>,
}

// Whether the word is an address inside the object.
fn points_into(word: u64, found: &Found) -> bool {
    found.base <= word && (word - found.base) / 8 < u64::from(found.len)
}

// The number of the object that the word points into.
fn pointed_to(objects: &[Found], word: u64) -> Option<usize> {
    for i in 0..objects.len() {
        if points_into(word, &objects[i]) {
            return Some(i);
        }
    }
    None
}

// Sets a place of the row. Answers whether it was clear.
fn set(row: &mut [bool], i: usize) -> bool {
    if i >= row.len() || row[i] {
        return false;
    }
    row[i] = true;
    true
}

// Marks those that are given.
fn mark_given(reached: &mut [bool], given: &[bool]) {
    for i in 0..given.len() {
        if given[i] {
            let _ = set(reached, i);
        }
    }
}

// Follows each arrow once. Answers whether an object was reached anew.
fn spread(arrows: &[(usize, usize)], reached: &mut [bool]) -> bool {
    let mut is_more = false;
    for (from, to) in arrows {
        if *from < reached.len() && reached[*from] && set(reached, *to) {
            is_more = true;
        }
    }
    is_more
}

impl Graph {
    /// No object.
    pub(crate) fn new(alloc: Global) -> Graph {
        Graph {
            objects: Vec::new(alloc),
            written: Vec::new(alloc),
        }
    }

    /// The objects, in the order in which they came.
    pub(crate) fn objects(&self) -> &[Found] {
        self.objects.as_slice()
    }

    /// Whether an object begins at the address.
    pub(crate) fn has_base(&self, address: u64) -> bool {
        for found in &self.objects {
            if found.base == address {
                return true;
            }
        }
        false
    }

    /// An object comes.
    pub(crate) fn add(&mut self, found: Found) -> Result<(), Fail> {
        self.objects.push(found)?;
        Ok(())
    }

    /// A word is written.
    pub(crate) fn write(&mut self, address: u64, word: u64) -> Result<(), Fail> {
        for pair in self.written.iter_mut() {
            if pair.0 == address {
                pair.1 = word;
                return Ok(());
            }
        }
        self.written.push((address, word))?;
        Ok(())
    }

    // From which object to which the words of Normal objects point.
    fn arrows(&self, alloc: Global) -> Result<Vec<(usize, usize)>, Fail> {
        let mut arrows = Vec::new(alloc);
        let objects = self.objects.as_slice();
        for (address, word) in &self.written {
            let (Some(from), Some(to)) = (pointed_to(objects, *address), pointed_to(objects, *word))
            else {
                continue;
            };
            if from < objects.len() && objects[from].kind == Kind::Normal {
                arrows.push((from, to))?;
            }
        }
        Ok(arrows)
    }

    // Marks what the roots point into.
    fn mark_roots(&self, reached: &mut [bool], roots: &[u64]) {
        for root in roots {
            if let Some(i) = pointed_to(self.objects.as_slice(), *root) {
                let _ = set(reached, i);
            }
        }
    }

    /// Which objects are in the closure of those that are given and those that the roots point into.
    pub(crate) fn closure(
        &self,
        alloc: Global,
        given: &[bool],
        roots: &[u64],
    ) -> Result<Vec<bool>, Fail> {
        let count = self.objects.len();
        let arrows = self.arrows(alloc)?;
        let mut reached = vec![in alloc; false; count]?;
        mark_given(reached.as_mut_slice(), given);
        self.mark_roots(reached.as_mut_slice(), roots);
        for _ in 0..count {
            if !spread(arrows.as_slice(), reached.as_mut_slice()) {
                break;
            }
        }
        Ok(reached)
    }
}
