//! Running a command.
use crate::at_table::AtTable;
use crate::command::{Asked, Command};
use crate::file::{Database, close, open_for, unwritable};
use crate::refusal::{Answer, Outcome, Refusal};
use crate::session;
use crate::tables::{create, drop_table, find, print_list};
use crate::teller::Teller;
use sqlite::{Alter, Connection};
use table_store::TableStore;

/// Does what the words after the program's name ask for.
///
/// # Errors
///
/// Those of the command, each by its message.
pub fn run(rt: &HostRuntime, words: &[&str]) -> Answer {
    match words {
        ["session", file] => session::run(rt, file),
        [name, file, words @ ..] => match Command::of(rt.alloc(), name, words)? {
            Some(command) => run_on_file(rt, file, command),
            None => Ok(Outcome::Usage),
        },
        _ => Ok(Outcome::Usage),
    }
}

// Runs a command on the tables of a file. One that changes nothing writes nothing when it ends.
fn run_on_file(rt: &HostRuntime, path: &str, command: Command<'_>) -> Answer {
    let database = open_for(rt, path, command)?;
    let (database, answer) = run_on_database(Teller::of(rt), path, database, command);
    if !command.changes() {
        return answer;
    }
    close(database, answer)
}

/// Runs a command on the tables of a file that is open, and gives the file back, unless the
/// database failed.
pub fn run_on_database(
    teller: Teller<'_>,
    path: &str,
    database: Database,
    command: Command<'_>,
) -> (Option<Database>, Answer) {
    match database {
        Database::File(conn) => {
            let (conn, answer) = run_command(teller, conn, command);
            (conn.map(Database::File), answer)
        }
        Database::Copy(conn, why) => {
            if command.changes() {
                let refusal = unwritable(teller.rt.alloc(), path, why);
                return (Some(Database::Copy(conn, why)), Err(refusal));
            }
            let (conn, answer) = run_command(teller, conn, command);
            (conn.map(|conn| Database::Copy(conn, why)), answer)
        }
    }
}

// Runs a command on the tables of a database, and gives the connection back, unless the database
// failed.
fn run_command<S: Alter + Drop>(
    teller: Teller<'_>,
    mut conn: Connection<S>,
    command: Command<'_>,
) -> (Option<Connection<S>>, Answer) {
    let alloc = teller.rt.alloc();
    let answer = match command {
        Command::List => print_list(teller.rt, &mut conn),
        Command::Drop(table) => drop_table(alloc, &mut conn, table),
        Command::Create(table, words) => return create(alloc, conn, table, words),
        Command::Of(table, asked) => return run_on_table(teller, conn, table, asked),
    };
    (Some(conn), answer)
}

// Runs what is asked of one table. Its name is looked for first, since a table that doesn't open
// keeps the connection.
fn run_on_table<S: Alter + Drop>(
    teller: Teller<'_>,
    mut conn: Connection<S>,
    table: &str,
    asked: Asked<'_>,
) -> (Option<Connection<S>>, Answer) {
    let alloc = teller.rt.alloc();
    if let Err(refusal) = find(alloc, &mut conn, table) {
        return (Some(conn), Err(refusal));
    }
    match TableStore::open(alloc, conn, table) {
        Ok(store) => AtTable {
            teller,
            table,
            store,
        }
        .run(asked),
        Err(error) => (None, Err(Refusal::from(error))),
    }
}
