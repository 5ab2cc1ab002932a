//! The path of a slice's file, as a text.

ghost use Rattle.std.specs.Prelude.{Some};
ghost use Rattle.jb_csv_job.specs.Paths.{slice_path};

use std::fmt;

/// The path of the file that keeps a slice's checkpoints: FOLDER/slice-000057.db.
#[derive(Clone, Copy)]
pub struct SlicePath<'a> {
    pub folder: &'a str,
    /// The slice's number, the first being 0.
    pub slice: u64,
}

impl<'a> fmt::Display for SlicePath<'a> {
    ghost output = { λ path. Some (slice_path path.folder.now path.slice) };

    fn fmt<W: fmt::Write>(&self, f: &mut fmt::Formatter<W>) -> fmt::Result {
        write!(f, "{}/slice-{:06}.db", self.folder, self.slice)
    }
}
