//! Values by id, in the order in which their ids came.
#![tactic(auto)]

ghost use Rattle.std.specs.Prelude.{◌≡◌, ℕ, [], ◌∷◌, ◌++◌, Some, None, nat_eq, length, option_copied, slice_get, IfOk, OnOk, OnErr};
ghost use Rattle.std.specs.Option.{option_copied_mut};
ghost use Rattle.std.specs.List.{IsDistinct};
ghost use Rattle.std.specs.Map.{keys_of, lookup, remove_entry};
ghost use Rattle.std.specs.Map.Iter.{TakesFirst};
ghost use Rattle.indexmap.specs.IndexMap.{insert_entry};
ghost use Rattle.arrivals.specs.inside.Arrived.{newest_first};

use lru::LruCache;
use std::alloc::{AllocError, Global};
use std::marker::Model;

/// Values by id, in the order in which their ids came. An id that is removed and comes again is the last.
/// Each call takes the same time, however many ids there are, unless it says otherwise.
pub struct Arrivals<V> {
    alloc: Global,
    // Made with the first value. It has the value of the last id first, since no call tells it of a use.
    cache: Option<LruCache<u32, V>>,
}

// By hand, so that the functions that drop one call this.
impl<V: Drop> Drop for Arrivals<V> {
    fn drop(self) {
        let Arrivals { alloc: _, cache: _ } = self;
    }
}

impl<V> Model for Arrivals<V> {
    ghost use Rattle.std.specs.Prelude.{ℕ, List};
    ghost use Rattle.arrivals.specs.inside.Arrived.{arrived, IsKept};

    ghost Value = { List (ℕ × V) };

    ghost view = { λ a. arrived a.cache };

    ghost invariant = { λ a. IsKept a.cache };
}

// This cache, or an empty one in place of none.
fn begin<V: Drop>(
    alloc: Global,
    cache: Option<LruCache<u32, V>>,
) -> Result<LruCache<u32, V>, AllocError>
    ensures ok { IfOk result (λ begun. begun.entries ≡ newest_first cache) }
    ensures err { OnErr result (newest_first cache ≡ []) }
{
    match cache {
        Some(cache) => Ok(cache),
        None => LruCache::unbounded(alloc),
    }
}

// Puts a key that is not there, unless another would have to go for it. On `Err`, nothing is changed.
fn put_new<V: Drop>(cache: &mut LruCache<u32, V>, id: u32, value: V) -> Result<(), AllocError>
    requires { lookup (nat_eq id) cache.old.entries ≡ None }
    ensures ok { OnOk result (cache.new.entries ≡ (id, value) ∷ cache.old.entries) }
    ensures err { OnErr result (cache.new.entries ≡ cache.old.entries) }
{
    if cache.len() >= cache.cap().get() {
        return Err(AllocError);
    }
    cache.put(id, value)?;
    Ok(())
}

impl<V> Arrivals<V> {
    ghost use Rattle.std.specs.Borrow.{sem};
    ghost use Rattle.arrivals.specs.inside.Lends.{lends_value};

    /// No values. Allocates nothing.
    pub fn new(alloc: Global) -> Arrivals<V>
        ensures { result ≡ [] }
    {
        Arrivals { alloc, cache: None }
    }

    /// The number of ids.
    pub fn len(&self) -> usize
        ensures len { result ≡ length self.now }
        ensures unique { IsDistinct nat_eq (keys_of self.now) }
    {
        let Some(cache) = &self.cache else {
            return 0;
        };
        cache.len()
    }

    /// The value of the id.
    pub fn get(&self, id: u32) -> Option<&V>
        ensures { option_copied result ≡ lookup (nat_eq id) self.now }
    {
        let Some(cache) = &self.cache else {
            return None;
        };
        cache.peek(&id)
    }

    /// The value of the id, to write.
    pub fn get_mut(&mut self, id: u32) -> Option<&mut V>
        ensures* writes_back { sem 𝓛 (lends_value V.row self.entry id result) }
        ensures value { option_copied_mut result ≡ lookup (nat_eq id) self.old }
        ensures unique { IsDistinct nat_eq (keys_of self.old) }
    {
        let cache = self.cache.as_mut()?;
        cache.peek_mut(&id)
    }

    /// Removes the id and returns its value; the others keep their order.
    pub fn remove(&mut self, id: u32) -> Option<V>
        ensures value { result ≡ lookup (nat_eq id) self.old }
        ensures entries { self.new ≡ remove_entry (nat_eq id) self.old }
        ensures unique { IsDistinct nat_eq (keys_of self.new) }
    {
        let Some(cache) = &mut self.cache else {
            return None;
        };
        cache.pop(&id)
    }

    /// Removes the first id and returns it with its value.
    pub fn take_first(&mut self) -> Option<(u32, V)>
        ensures steps { TakesFirst (λ entry. entry) self.old result self.new }
    {
        let Some(cache) = &mut self.cache else {
            return None;
        };
        cache.pop_lru()
    }

    // Appends an id that has no value yet. On `Err`, nothing is changed.
    fn append(&mut self, id: u32, value: V) -> Result<(), AllocError>
    where
        V: Drop,
        requires { lookup (nat_eq id) self.old ≡ None }
        ensures ok { OnOk result (self.new ≡ self.old ++ (id, value) ∷ []) }
        ensures err { OnErr result (self.new ≡ self.old) }
        ensures unique { IsDistinct nat_eq (keys_of self.new) }
    {
        let mut cache = begin(self.alloc, self.cache.take())?;
        let put = put_new(&mut cache, id, value);
        self.cache = Some(cache);
        put
    }

    /// Writes the value of the id, which comes last if it has no value yet. On `Err`, nothing is changed.
    pub fn insert(&mut self, id: u32, value: V) -> Result<(), AllocError>
    where
        V: Drop,
        ensures ok { OnOk result (self.new ≡ insert_entry nat_eq self.old id value) }
        ensures err { OnErr result (self.new ≡ self.old) }
        ensures unique { IsDistinct nat_eq (keys_of self.new) }
    {
        match self.get_mut(id) {
            Some(held) => {
                *held = value;
                Ok(())
            }
            None => self.append(id, value),
        }
    }

    /// The id at a place, from 0. Visits the ids from the last one to that place.
    pub fn id_at(&self, place: usize) -> Option<u32>
        ensures { result ≡ slice_get (keys_of self.now) place }
    {
        let cache = self.cache.as_ref()?;
        let len = cache.len();
        if place >= len {
            return None;
        }
        let (id, _) = cache.iter().nth(len - 1 - place)?;
        Some(*id)
    }
}
