//! Files of many kinds: which list or refusal each one has, and what an append makes of it.

use crate::files::{added, begun, crashed, new_files, text_of};
use crate::process_runs::{Listing, ProcessRun, ended, listed, named, resume_and_run};
use jb_slice_file::open_files;
use sqlite::{Alter, Connection, Error, Files, Options};
use sqlite_disk::Memory;
use std::alloc::{AllocError, Global};
use std::sync::Wait;
use std::test::*;
use std::thread::Threads;

/// Makes a database by a statement.
#[derive(Drop)]
struct Makes(&'static str);

impl ProcessRun for Makes {
    fn live<R: Threads + Wait + Sync, S: Alter>(
        &mut self,
        _rt: &R,
        alloc: Global,
        conn: &mut Connection<S>,
    ) -> Result<String, AllocError> {
        let made = run(conn, self.0);
        format!(in alloc; "{made:?}")
    }
}

/// Takes the list and adds a checkpoint at its end, and once more at the end that it had before.
#[derive(Drop)]
struct Adds;

impl ProcessRun for Adds {
    fn live<R: Threads + Wait + Sync, S: Alter>(
        &mut self,
        _rt: &R,
        alloc: Global,
        conn: &mut Connection<S>,
    ) -> Result<String, AllocError> {
        match begun(alloc, conn) {
            Ok((found, mut end)) => {
                let told = text_of(alloc, &found)?;
                let mut stale = end;
                let first = added(conn, &mut end, "new", &[7, 8]);
                let again = added(conn, &mut stale, "new", &[7, 8]);
                let now = listed(alloc, conn)?;
                format!(in alloc; "{told}| {first:?} {again:?} | {now}")
            }
            Err(error) => named(alloc, error),
        }
    }
}

/// Adds a checkpoint.
#[derive(Drop)]
struct AddsLast;

impl ProcessRun for AddsLast {
    fn live<R: Threads + Wait + Sync, S: Alter>(
        &mut self,
        _rt: &R,
        alloc: Global,
        conn: &mut Connection<S>,
    ) -> Result<String, AllocError> {
        match begun(alloc, conn) {
            Ok((_, mut end)) => {
                let added = added(conn, &mut end, "last", &[]);
                format!(in alloc; "{added:?}")
            }
            Err(error) => named(alloc, error),
        }
    }
}

/// A statement without clauses.
fn run<S: Alter>(conn: &mut Connection<S>, sql: &str) -> Result<(), Error> {
    conn.execute_batch(sql)
}

/// A database, and what is said of it.
struct Row {
    made_by: &'static str,
    is_list: bool,
    says: &'static str,
}

const ROWS: [Row; 17] = [
    Row {
        made_by: "",
        is_list: true,
        says: "| Ok(()) Err(Taken) | new:[7, 8] | Ok(()) new:[7, 8] last:[] | new:[7, 8] last:[] ",
    },
    Row {
        made_by: "CREATE TABLE checkpoint (number INTEGER PRIMARY KEY, saved TEXT NOT NULL, results BLOB NOT NULL, link BLOB NOT NULL) STRICT",
        is_list: true,
        says: "| Ok(()) Err(Taken) | new:[7, 8] | Ok(()) new:[7, 8] last:[] | new:[7, 8] last:[] ",
    },
    // The text of the definition and the order of the rows are another program's. Python has computed the links.
    Row {
        made_by: "create table checkpoint(number integer primary key,saved text not null,results blob not null,link blob not null) strict; insert into checkpoint values (2, 'b', x'', x'b41a77651e96a87366d76069caa94702bca6194da8231839f7de26772cca5bd2'), (1, 'a', x'00ff', x'd99e16749a85a31b25b6346a4b078892d40788eda76c7555fd7d7d8c79aecfe1')",
        is_list: true,
        says: "a:[0, 255] b:[] | Ok(()) Err(Taken) | a:[0, 255] b:[] new:[7, 8] | Ok(()) a:[0, 255] b:[] new:[7, 8] last:[] | a:[0, 255] b:[] new:[7, 8] last:[] ",
    },
    Row {
        made_by: "CREATE TABLE checkpoint (number INTEGER PRIMARY KEY, saved TEXT NOT NULL, results BLOB NOT NULL, link BLOB NOT NULL) STRICT; INSERT INTO checkpoint VALUES (1, 'a', x'', x'db81d629e52542fbf67eb22de6cc257337d0802b909a9a3f668b220f67d28170'), (3, 'c', x'', x'db035661cc917971897ee9ede4b33d3c6ed706d4509ea1d4898b57c7664f16e9')",
        is_list: false,
        says: "Gap, untouched: true",
    },
    Row {
        made_by: "CREATE TABLE checkpoint (number INTEGER PRIMARY KEY, saved TEXT NOT NULL, results BLOB NOT NULL, link BLOB NOT NULL) STRICT; INSERT INTO checkpoint VALUES (2, 'b', x'', x'9b580f674acf7013d5c0dcbc845f091d1038b0e7b9c84849bdd4d7c5aa8a7aed')",
        is_list: false,
        says: "Gap, untouched: true",
    },
    Row {
        made_by: "CREATE TABLE checkpoint (number INTEGER PRIMARY KEY, saved TEXT NOT NULL, results BLOB NOT NULL, link BLOB NOT NULL) STRICT; INSERT INTO checkpoint VALUES (-1, 'z', x'', x'0000000000000000000000000000000000000000000000000000000000000000'), (1, 'a', x'', x'db81d629e52542fbf67eb22de6cc257337d0802b909a9a3f668b220f67d28170')",
        is_list: false,
        says: "Gap, untouched: true",
    },
    // A text, a result, and a link of another chain.
    Row {
        made_by: "CREATE TABLE checkpoint (number INTEGER PRIMARY KEY, saved TEXT NOT NULL, results BLOB NOT NULL, link BLOB NOT NULL) STRICT; INSERT INTO checkpoint VALUES (1, 'b', x'00ff', x'd99e16749a85a31b25b6346a4b078892d40788eda76c7555fd7d7d8c79aecfe1')",
        is_list: false,
        says: "Altered(1), untouched: true",
    },
    Row {
        made_by: "CREATE TABLE checkpoint (number INTEGER PRIMARY KEY, saved TEXT NOT NULL, results BLOB NOT NULL, link BLOB NOT NULL) STRICT; INSERT INTO checkpoint VALUES (1, 'a', x'00ff', x'd99e16749a85a31b25b6346a4b078892d40788eda76c7555fd7d7d8c79aecfe1'), (2, 'b', x'01', x'b41a77651e96a87366d76069caa94702bca6194da8231839f7de26772cca5bd2')",
        is_list: false,
        says: "Altered(2), untouched: true",
    },
    Row {
        made_by: "CREATE TABLE checkpoint (number INTEGER PRIMARY KEY, saved TEXT NOT NULL, results BLOB NOT NULL, link BLOB NOT NULL) STRICT; INSERT INTO checkpoint VALUES (1, 'a', x'00ff', x'd99e16749a85a31b25b6346a4b078892d40788eda76c7555fd7d7d8c79aecfe1'), (2, 'b', x'', x'9b580f674acf7013d5c0dcbc845f091d1038b0e7b9c84849bdd4d7c5aa8a7aed')",
        is_list: false,
        says: "Altered(2), untouched: true",
    },
    Row {
        made_by: "CREATE TABLE note (number INTEGER PRIMARY KEY, saved TEXT NOT NULL, results BLOB NOT NULL, link BLOB NOT NULL) STRICT",
        is_list: false,
        says: "Foreign, untouched: true",
    },
    Row {
        made_by: "CREATE VIEW checkpoint AS SELECT 1",
        is_list: false,
        says: "Foreign, untouched: true",
    },
    Row {
        made_by: "CREATE TABLE checkpoint (number INTEGER PRIMARY KEY, saved TEXT NOT NULL, results BLOB NOT NULL, link BLOB NOT NULL)",
        is_list: false,
        says: "Version, untouched: true",
    },
    Row {
        made_by: "CREATE TABLE checkpoint (number INTEGER PRIMARY KEY, saved TEXT NOT NULL, results BLOB NOT NULL, link BLOB) STRICT",
        is_list: false,
        says: "Version, untouched: true",
    },
    Row {
        made_by: "CREATE TABLE checkpoint (number INTEGER PRIMARY KEY, saved TEXT NOT NULL, results BLOB NOT NULL) STRICT",
        is_list: false,
        says: "Version, untouched: true",
    },
    Row {
        made_by: "CREATE TABLE checkpoint (number INTEGER PRIMARY KEY, saved TEXT NOT NULL, results BLOB NOT NULL, link BLOB NOT NULL, made TEXT) STRICT",
        is_list: false,
        says: "Version, untouched: true",
    },
    Row {
        made_by: "CREATE TABLE Checkpoint (number INTEGER PRIMARY KEY, saved TEXT NOT NULL, results BLOB NOT NULL, link BLOB NOT NULL) STRICT",
        is_list: false,
        says: "Version, untouched: true",
    },
    Row {
        made_by: "CREATE TABLE checkpoint (number INTEGER PRIMARY KEY, saved TEXT NOT NULL, results BLOB NOT NULL, link BLOB NOT NULL) STRICT; CREATE TABLE note (id INTEGER PRIMARY KEY) STRICT",
        is_list: false,
        says: "Version, untouched: true",
    },
];

/// The bytes of the log and of the file.
fn bytes_of(alloc: Global, files: &Files<Memory>) -> Result<[Vec<u8>; 2], AllocError> {
    Ok([
        Vec::from_slice(alloc, files.log.bytes())?,
        Vec::from_slice(alloc, files.db.bytes())?,
    ])
}

fn is_same(files: &Files<Memory>, bytes: &[Vec<u8>; 2]) -> bool {
    let [log, db] = bytes;
    files.log.bytes() == log.as_slice() && files.db.bytes() == db.as_slice()
}

/// An append, after which the machine stops: what it says, the list that the next open finds, and what that connection shows.
fn crash_says<R: Threads + Wait + Sync>(
    rt: &R,
    alloc: Global,
    files: Files<Memory>,
) -> Result<String, Fail> {
    let (files, told) = resume_and_run(rt, alloc, files, &mut AddsLast);
    let files = crashed(files);
    if !files.may_be_used() {
        return Err(Fail::from("files that may be used"));
    }
    let Ok((again, found, _)) = open_files(alloc, files, Options::new(3)) else {
        return Err(Fail::from("an open after a crash"));
    };
    let (_, shown) = ended(rt, alloc, again, &mut Listing);
    let (told, found, shown) = (told?, text_of(alloc, &found)?, shown?);
    Ok(format!(in alloc; "| {told} {found}| {shown}")?)
}

/// A refusal, and whether nothing was written to the log or to the file.
fn refusal_says<R: Threads + Wait + Sync>(
    rt: &R,
    alloc: Global,
    files: Files<Memory>,
) -> Result<String, Fail> {
    let before = bytes_of(alloc, &files)?;
    let (files, told) = resume_and_run(rt, alloc, files, &mut Adds);
    let is_same = is_same(&files, &before);
    let told = told?;
    Ok(format!(in alloc; "{told}, untouched: {is_same}")?)
}

/// What is said of a list, and of an append with a crash right after it.
fn list_says<R: Threads + Wait + Sync>(
    rt: &R,
    alloc: Global,
    files: Files<Memory>,
) -> Result<String, Fail> {
    let (files, told) = resume_and_run(rt, alloc, files, &mut Adds);
    let more = crash_says(rt, alloc, files)?;
    let told = told?;
    Ok(format!(in alloc; "{told}{more}")?)
}

/// What is said of a database.
fn says<R: Threads + Wait + Sync>(rt: &R, alloc: Global, row: &Row) -> Result<String, Fail> {
    let (files, made) = resume_and_run(rt, alloc, new_files(alloc), &mut Makes(row.made_by));
    let _made = made?;
    if row.is_list {
        list_says(rt, alloc, crashed(files))
    } else {
        refusal_says(rt, alloc, crashed(files))
    }
}

#[test]
fn each_file_has_its_list_or_its_refusal(rt: HostRuntime) -> Result<(), Fail> {
    for row in &ROWS {
        assert_eq!(rt;
            says(&rt, rt.alloc(), row)?.as_str(),
            row.says,
            "{}",
            row.made_by
        );
    }
    Ok(())
}
