ghost use Rattle.std.specs.Prelude.{◌≡◌, None};
ghost use Rattle.table_pages.specs.Failure.{in_memory};

use sqlite::Alter;
use sqlite_trees::error::StoreError;
use sqlite_trees::schema::Object;
use sqlite_trees::store::{Direction, Shape, Store};
use sqlite_value::row::Row;
use std::alloc::{AllocError, Global};

/// A store over files in memory, which returns every failure of its files as out of memory.
///
/// A file in memory fails only if it gets no memory, but a store of pages reports that as a failure
/// of the disk.
#[derive(Drop)]
pub struct InMemory<S: Alter + Drop> {
    pages: S,
}

impl<S: Alter + Drop> InMemory<S> {
    /// Returns the store over this one, whose files have to be in memory.
    pub fn new(pages: S) -> InMemory<S>
        ensures { result.pages ≡ pages }
    {
        InMemory { pages }
    }
}

// Returns the error of the store below. A failure of its files is out of memory.
fn of_memory(error: StoreError) -> StoreError
    ensures { result ≡ in_memory error }
{
    match error {
        StoreError::Io | StoreError::Full => StoreError::OutOfMemory,
        _ => error,
    }
}

impl<S: Alter + Drop> Store for InMemory<S> {
    ghost view = { λ it. S.Store.view it.pages };

    ghost faults = { λ it. S.Store.faults it.pages };

    ghost recovers = { λ it. S.Store.recovers it.pages };

    ghost is_shielded = { λ it. S.Store.is_shielded it.pages };

    ghost is_step = { λ a b tree. S.Store.is_step a.pages b.pages tree };

    ghost ordered = { λ it. S.Store.ordered it.pages };

    ghost shut_if_dirty = { λ it. S.Store.shut_if_dirty it.pages };

    ghost empty_if_dirty = { λ it. S.Store.empty_if_dirty it.pages };

    ghost broken_if_shut = { λ it. S.Store.broken_if_shut it.pages };

    ghost settled = { λ it. S.Store.settled it.pages };

    ghost stays = { λ it. S.Store.stays it.pages };

    ghost survives = { λ it. S.Store.survives it.pages };

    ghost unaltered = { λ it. S.Store.unaltered it.pages };

    fn is_broken(&self) -> bool {
        self.pages.is_broken()
    }

    fn shape(&self, tree: u32) -> Shape {
        self.pages.shape(tree)
    }

    fn tree_count(&self) -> u64 {
        self.pages.tree_count()
    }

    fn reals(&self, tree: u32) -> u64 {
        self.pages.reals(tree)
    }

    fn seek(
        &mut self,
        cursor: u16,
        tree: u32,
        key: &Row,
        direction: Direction,
    ) -> Result<(), StoreError> {
        match self.pages.seek(cursor, tree, key, direction) {
            Ok(()) => Ok(()),
            Err(error) => Err(of_memory(error)),
        }
    }

    fn next(&mut self, cursor: u16, row: &mut Row) -> Result<bool, StoreError> {
        match self.pages.next(cursor, row) {
            Ok(found) => Ok(found),
            Err(error) => Err(of_memory(error)),
        }
    }

    fn get(&mut self, table: u32, id: i64, row: &mut Row) -> Result<bool, StoreError> {
        match self.pages.get(table, id, row) {
            Ok(found) => Ok(found),
            Err(error) => Err(of_memory(error)),
        }
    }

    fn put(&mut self, table: u32, row: &Row) -> Result<(), StoreError> {
        match self.pages.put(table, row) {
            Ok(()) => Ok(()),
            Err(error) => Err(of_memory(error)),
        }
    }

    fn delete(&mut self, table: u32, id: i64) -> Result<(), StoreError> {
        match self.pages.delete(table, id) {
            Ok(()) => Ok(()),
            Err(error) => Err(of_memory(error)),
        }
    }

    fn insert(&mut self, index: u32, entry: &Row) -> Result<(), StoreError> {
        match self.pages.insert(index, entry) {
            Ok(()) => Ok(()),
            Err(error) => Err(of_memory(error)),
        }
    }

    fn remove(&mut self, index: u32, entry: &Row) -> Result<(), StoreError> {
        match self.pages.remove(index, entry) {
            Ok(()) => Ok(()),
            Err(error) => Err(of_memory(error)),
        }
    }

    fn commit(&mut self) -> Result<(), StoreError> {
        match self.pages.commit() {
            Ok(()) => Ok(()),
            Err(error) => Err(of_memory(error)),
        }
    }

    fn rollback(&mut self) {
        self.pages.rollback()
    }

    fn savepoint(&mut self) -> Result<(), StoreError> {
        match self.pages.savepoint() {
            Ok(()) => Ok(()),
            Err(error) => Err(of_memory(error)),
        }
    }

    fn release(&mut self) -> Result<(), StoreError> {
        match self.pages.release() {
            Ok(()) => Ok(()),
            Err(error) => Err(of_memory(error)),
        }
    }

    fn rollback_to(&mut self) -> Result<(), StoreError> {
        match self.pages.rollback_to() {
            Ok(()) => Ok(()),
            Err(error) => Err(of_memory(error)),
        }
    }
}

impl<S: Alter + Drop> Alter for InMemory<S> {
    ghost listed = { λ it. S.Alter.listed it.pages };

    fn objects(&self, alloc: Global) -> Result<Vec<Row>, AllocError> {
        self.pages.objects(alloc)
    }

    fn create(&mut self, tree: u32, object: &Object<'_>) -> Result<(), StoreError> {
        match self.pages.create(tree, object) {
            Ok(()) => Ok(()),
            Err(error) => Err(of_memory(error)),
        }
    }

    fn destroy(&mut self, tree: u32) -> Result<(), StoreError> {
        match self.pages.destroy(tree) {
            Ok(()) => Ok(()),
            Err(error) => Err(of_memory(error)),
        }
    }

    fn relist(&mut self, changes: &[(u32, Object<'_>)]) -> Result<(), StoreError> {
        match self.pages.relist(changes) {
            Ok(()) => Ok(()),
            Err(error) => Err(of_memory(error)),
        }
    }

    fn version(&self) -> u32 {
        self.pages.version()
    }

    fn set_version(&mut self, version: u32) -> Result<(), StoreError> {
        match self.pages.set_version(version) {
            Ok(()) => Ok(()),
            Err(error) => Err(of_memory(error)),
        }
    }
}
