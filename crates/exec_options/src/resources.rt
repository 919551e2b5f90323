//! The resources that the arguments name.

/// The greatest number of resources that the arguments name.
pub const MOST_RESOURCES: usize = 16;

/// The ids of some resources, at most 16, or all resources.
#[derive(Clone, Copy)]
pub struct Resources<'a> {
    ids: [&'a str; MOST_RESOURCES],
    count: usize,
}

impl<'a> Resources<'a> {
    /// All resources.
    pub(crate) fn all() -> Resources<'a> {
        Resources {
            ids: [""; MOST_RESOURCES],
            count: 0,
        }
    }

    /// The resources with these ids; none of them for all resources. `None` if there are too many.
    pub(crate) fn of(texts: &[&'a str]) -> Option<Resources<'a>> {
        let count = texts.len();
        if count > MOST_RESOURCES {
            return None;
        }
        let mut ids = [""; MOST_RESOURCES];
        ids[..count].copy_from_slice(texts);
        Some(Resources { ids, count })
    }

    /// The ids that are named; none of them for all resources.
    pub fn ids(&self) -> &[&'a str] {
        &self.ids[..self.count.min(MOST_RESOURCES)]
    }

    /// Whether no resource is named, so that all are asked for.
    pub fn is_empty(&self) -> bool {
        self.count == 0
    }

    /// Whether this resource is asked for.
    pub fn asks_for(&self, id: &str) -> bool {
        self.is_empty() || self.ids().iter().any(|named| *named == id)
    }
}
