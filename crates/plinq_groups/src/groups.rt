ghost use Rattle.std.specs.Prelude.{◌≡◌, List, [], IfOk};

use indexmap::IndexMap;
use std::alloc::{AllocError, Global};
use std::hash::Hash;
use std::marker::Model;

/// For how many groups the first block makes room, if it has as many items: most of what a small map costs is its growth.
const FIRST_ROOM: usize = 512;

/// Groups: a key each, with what stands at it, in the order in which their keys came first.
///
/// A contract sees the list of them.
#[derive(Drop)]
pub struct Groups<K: Eq + Hash, C> {
    pub(crate) map: IndexMap<K, C>,
}

impl<K: Eq + Hash, C> Model for Groups<K, C> {
    ghost Value = { List (K × C) };

    ghost view = { λ g. g.map.entries };
}

impl<K: Eq + Hash, C> Groups<K, C> {
    /// No groups.
    pub fn new(alloc: Global) -> Groups<K, C>
        ensures { result ≡ [] }
    {
        Groups {
            map: IndexMap::new(alloc),
        }
    }

    /// The groups as a map, to read them by key or in their order.
    pub fn as_map(&self) -> &IndexMap<K, C>
        ensures { result.now.entries ≡ self.now }
    {
        &self.map
    }

    /// The groups as a map of one's own.
    pub fn into_map(self) -> IndexMap<K, C>
        ensures { result.entries ≡ self }
    {
        self.map
    }
}

impl<K: Eq + Hash + Drop, C: Drop> Groups<K, C> {
    /// The same groups, and if there are none yet, room for the first of as many items.
    pub(crate) fn with_room(self, items: usize) -> Result<Groups<K, C>, AllocError>
        ensures { IfOk result (λ g. g ≡ self) }
    {
        let mut map = self.map;
        if map.is_empty() {
            map.reserve(items.min(FIRST_ROOM))?;
        }
        Ok(Groups { map })
    }
}
