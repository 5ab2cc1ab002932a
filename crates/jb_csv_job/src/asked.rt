//! What the command line of a job asks for.

ghost use Rattle.std.specs.Prelude.{◌≡◌, ◌⊎◌, ◌≤◌, ℕ, None, Some, IfErr, OnOk};
ghost use Rattle.jb_base.specs.Limits.{max_threads};
ghost use Rattle.jb_csv_job.specs.Asking.{AreAsMany, IsInParts};

use crate::failure::CsvJobError;

/// What is done with the slices.
#[derive(Clone, Copy, Debug, PartialEq, Eq)]
pub enum Task {
    /// All are run, and the results of all are written.
    Run,
    /// Those of the numbers `part`, `part + of`, `part + 2 * of` and so on are run, and nothing is written. `part` is below `of`.
    Part { part: u64, of: u64 },
    /// None is run, and the results of all are written.
    Collect,
}

/// What the command line asks for: `[OPTIONS] FOLDER`.
#[derive(Drop)]
pub struct Asked {
    /// 1 to 64.
    pub threads: u32,
    /// The path of the folder that has the slices' files.
    pub folder: String,
    /// The stamps of `--keep-stamp`, in their order.
    pub stamps: Vec<String>,
    pub task: Task,
    /// How many records the input must have: at least one, if that isn't said.
    pub records: Option<u64>,
    /// How many bytes the input must have.
    pub bytes: Option<u64>,
    /// The SHA-256 digest that the input must have.
    pub sha256: Option<[u8; 32]>,
    /// The path of the file that gets the results. A part has none.
    pub output: Option<String>,
    /// The path of the file that gets the records that were skipped, and those by which partitions failed.
    pub skipped: Option<String>,
    /// The value of the program's own option.
    pub own: Option<String>,
    pub ghost some: { 1 ≤ threads },
    pub ghost few: { threads ≤ max_threads },
    pub ghost parted: { IsInParts task },
}

/// An option of the program's own, with a value, which must be there: `--prices PATH`.
#[derive(Clone, Copy)]
pub struct OwnOption<'a> {
    /// Its name without the dashes, as `prices`.
    pub name: &'a str,
    /// What its value is called, as `PATH`.
    pub value: &'a str,
    /// What the help says of it.
    pub help: &'a str,
}

/// The answer to the arguments of the command line.
#[derive(Drop)]
pub enum Request {
    /// The job is to be run so.
    Job(Asked),
    /// The help or the version, which was printed on standard output. The exit status is 0.
    Said,
}

impl Asked {
    ghost use Rattle.jb_csv_job.specs.Causes.{IsRunError};
    ghost use Rattle.jb_csv_job.specs.declared.failure.CsvJobError.TheVariants.{NoRecords, Records};

    /// Refuses another number of records than `--records` says, once so many are read, up to the end of the input or not. Without `--records` an
    /// input without any is refused.
    ///
    /// # Errors
    /// `Records` and `NoRecords`.
    pub fn refuse_other_number(&self, read: u64, is_end: bool) -> Result<(), CsvJobError>
        ensures same { OnOk result (AreAsMany self.now.records read is_end) }
        ensures other { IfErr result (λ _. AreAsMany self.now.records read is_end → ⊥) }
        ensures named { IfErr result (λ e. ((most : ℕ) × (self.now.records ≡ Some most) × (e ≡ Records most read is_end)) ⊎ ((self.now.records ≡ None) × (e ≡ NoRecords))) }
        ensures cause { IfErr result (IsRunError self.now) }
    {
        let Some(asked) = self.records else {
            if is_end && read == 0 {
                return Err(CsvJobError::NoRecords);
            }
            return Ok(());
        };
        if read > asked || is_end && read < asked {
            return Err(CsvJobError::Records {
                asked,
                read,
                is_end,
            });
        }
        Ok(())
    }
}
