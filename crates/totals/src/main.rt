//! A job over JSON Lines with a lookup: sales in, the total of each customer out.
//!
//! `totals [OPTIONS] --prices PATH FOLDER` reads a list of prices, lines `ITEM,CENTS`, in PATH, and sales, lines
//! `{"customer":"Ada","item":"pen","count":3}`, on standard input. It writes lines `CUSTOMER,TOTAL` on standard output, once all sales are
//! done. After a crash, call it again with the same sales and prices: it resumes from the last checkpoint in FOLDER.
//!
//! - `run`: the job's run, and the totals that come of it. `adding`: who takes the results of slices. `price_list`: the list of prices.
//!   `failure`: why there is no answer.
//!
//! What a sale is, and what a customer pays, is in the crate `sales`.
#![tactic(auto)]

mod adding;
mod failure;
mod price_list;
mod run;

use failure::TotalsError;
use jb_csv_job::{
    Asked, CsvJobError, Host, JobEnd, Output, OwnOption, Request, Watches, asked_of, close_list,
    exit_code, open_list, ready_folder,
};
use jb_rows::{Rows, RowsOptions, RowsWriter};
use jb_stack::{AnyAnswer, limits_of, run_apart};
use price_list::read_list;
use run::{JOB, totals};
use std::io::Stdin;
use std::marker::Brand;
use std::process::ExitCode;
use std::sync::Wait;
use std::thread::Threads;
use std::time::Clock;

/// The option that names the list of prices.
const PRICES: OwnOption<'static> = OwnOption {
    name: "prices",
    value: "PATH",
    help: "The list of prices, lines ITEM,CENTS",
};

/// Writes the totals.
fn write_totals(host: &HostRuntime, to: Output, totals: &Rows) -> Result<Output, TotalsError> {
    let mut writer = RowsWriter::new(host.alloc(), &RowsOptions::CSV, to);
    writer.write_rows(totals)?;
    Ok(writer.finish()?)
}

/// Runs the job over standard input, and writes the totals.
fn answer<T: Threads + Wait + Clock + Eprint + Host + Copy + Send + Sync + 'static>(
    rt: &T,
    asked: &Asked,
) -> Result<JobEnd, TotalsError> {
    let host = rt.host();
    let list = read_list(host, asked)?;
    ready_folder(host, asked)?;
    let to = Output::open(host, asked.output.as_deref())?;
    let skips = open_list(host, asked)?;
    let (end, rows, skips) = totals::<T, Brand, Watches, Stdin, Output>(
        rt,
        host.alloc(),
        asked,
        list.prices,
        list.stamp.as_str(),
        host.stdin(),
        skips,
        &mut Watches::new(),
    )?;
    close_list(host, skips)?;
    let to = write_totals(host, to, &rows)?;
    to.close(host, end.status == 0)?;
    Ok(end)
}

/// The exit status of an answer. If there is no answer, a line on standard error says why. It begins with the name of the refusal.
fn exit_of<T: Eprint + Host>(
    rt: &T,
    folder: &str,
    answer: Result<JobEnd, TotalsError>,
) -> ExitCode {
    match answer {
        Ok(end) => exit_code(rt, &JOB, folder, Ok(end)),
        Err(TotalsError::Job(failure)) => exit_code(rt, &JOB, folder, Err(failure)),
        Err(error) => {
            let _reported = eprintln!(rt; "{error}");
            ExitCode::from(3)
        }
    }
}

/// The exit status of what the command line asks for.
fn status_of<T: Threads + Wait + Clock + Eprint + Host + Copy + Send + Sync + 'static>(
    rt: &T,
) -> ExitCode {
    match asked_of(rt, &JOB, Some(&PRICES)) {
        Ok(Request::Job(asked)) => {
            let answer = answer(rt, &asked);
            exit_of(rt, asked.folder.as_str(), answer)
        }
        Ok(Request::Said) => ExitCode::SUCCESS,
        Err(failure) => exit_code(rt, &JOB, "", Err(failure)),
    }
}

fn main(rt: HostRuntime) -> ExitCode {
    let work = move || status_of(&rt);
    match run_apart(&rt, &limits_of(&rt), AnyAnswer, work) {
        Some(status) => status,
        None => exit_code(&rt, &JOB, "", Err(CsvJobError::Memory)),
    }
}
