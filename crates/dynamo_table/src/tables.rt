//! The tables of a file: their list, and how one is made and deleted.
use crate::key_words::words_of;
use crate::print::print_text;
use crate::refusal::{Answer, Outcome, Refusal};
use crate::table_name::check_name;
use sqlite::{Alter, Connection, params};
use std::alloc::Global;
use std::fmt::Write;
use table_keys::KeySchema;
use table_store::rows::{Definition, count, make_tables, run};
use table_store::{StoreError, TableStore};

const NAMES: &str = "SELECT name FROM dynamo_table ORDER BY name";

const DROP_ITEMS: &str = "DELETE FROM dynamo_item WHERE table_id = ?1";

const DROP_TABLE: &str = "DELETE FROM dynamo_table WHERE id = ?1";

/// Prints a line for each table: the name, the words of the keys and how many items there are, with
/// tabs between.
///
/// # Errors
///
/// `Table` if the database fails, and what the output refuses.
pub fn print_list<S: Alter>(rt: &HostRuntime, conn: &mut Connection<S>) -> Answer {
    let alloc = rt.alloc();
    make_tables(conn)?;
    let mut text = String::new(alloc);
    for row in conn.query_all(NAMES, &[])?.iter() {
        let name: String = row.get(0)?;
        let table = find(alloc, conn, name.as_str())?;
        let keys = words_of(alloc, &table.schema)?;
        let items = count(conn, table.id)?;
        writeln!(text, "{name}\t{keys}\t{items}")?;
    }
    print_text(rt, text.as_bytes())
}

/// The table of a name.
///
/// # Errors
///
/// `Table` if there is none, or the database fails.
pub fn find<S: Alter>(alloc: Global, conn: &mut Connection<S>, name: &str) -> Answer<Definition> {
    make_tables(conn)?;
    Definition::find(alloc, conn, name)?.ok_or(Refusal::Table(StoreError::NoTable))
}

/// The keys of a table that is to be made, by its name and the words of its keys.
///
/// # Errors
///
/// Those of [`check_name`], and `Table` if the words don't read.
pub fn schema_of_words(alloc: Global, name: &str, words: &[&str]) -> Answer<KeySchema> {
    check_name(name)?;
    Ok(KeySchema::parse(alloc, words)?)
}

/// Makes a table with the keys of these words, and gives the connection back, unless the database
/// failed. A table that is there with the same keys is left as it is.
pub fn create<S: Alter + Drop>(
    alloc: Global,
    mut conn: Connection<S>,
    name: &str,
    words: &[&str],
) -> (Option<Connection<S>>, Answer) {
    match new_schema(alloc, &mut conn, name, words) {
        Ok(schema) => match TableStore::create(alloc, conn, name, schema) {
            Ok(store) => (Some(store.into_connection()), Ok(Outcome::Done)),
            Err(error) => (None, Err(Refusal::from(error))),
        },
        Err(refusal) => (Some(conn), Err(refusal)),
    }
}

// The keys of these words, unless the table is there with other keys.
fn new_schema<S: Alter>(
    alloc: Global,
    conn: &mut Connection<S>,
    name: &str,
    words: &[&str],
) -> Answer<KeySchema> {
    let schema = schema_of_words(alloc, name, words)?;
    make_tables(conn)?;
    match Definition::find(alloc, conn, name)? {
        Some(table) if table.schema != schema => {
            let found = words_of(alloc, &table.schema)?;
            let asked = words_of(alloc, &schema)?;
            Err(Refusal::message(format!(in alloc;
                "the table {name} has the keys {found}, not {asked}"
            )))
        }
        _ => Ok(schema),
    }
}

/// Deletes a table with its items, in one transaction.
///
/// # Errors
///
/// `Table` if there is no table of the name, or the database fails.
pub fn drop_table<S: Alter>(alloc: Global, conn: &mut Connection<S>, name: &str) -> Answer {
    let table = find(alloc, conn, name)?;
    run(conn, "BEGIN")?;
    match drop_rows(conn, table.id) {
        Ok(()) => run(conn, "COMMIT")?,
        Err(refusal) => {
            let _ = run(conn, "ROLLBACK");
            return Err(refusal);
        }
    }
    Ok(Outcome::Done)
}

fn drop_rows<S: Alter>(conn: &mut Connection<S>, id: i64) -> Answer<()> {
    conn.execute(DROP_ITEMS, params![id])?;
    conn.execute(DROP_TABLE, params![id])?;
    Ok(())
}
