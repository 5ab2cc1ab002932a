//! The number of a fault class.

ghost use Rattle.std.specs.Prelude.{◌≡◌, ◌<◌, ◌^◌};
ghost use Rattle.jb_base.specs.Limits.{max_classes};

/// A fault class of a job: its place among the distinct names of the job's `exception-classes`, from
/// 0 to 63 (own choice).
#[derive(Clone, Copy, Debug, PartialEq, Eq)]
pub struct ClassId {
    number: u8,
    pub ghost below: { number < max_classes },
}

impl ClassId {
    ghost use Rattle.jb_base.specs.Classes.{class_of};

    /// The class of a number below 64.
    pub fn new(number: u8) -> ClassId
        requires { number < max_classes }
        ensures number { result.number ≡ number }
        ensures class { result ≡ class_of number }
    {
        ClassId { number }
    }

    /// The number, 0 to 63.
    pub fn number(self) -> u8
        ensures value { result ≡ self.number }
        ensures small { result < max_classes }
    {
        self.number
    }

    /// The class's bit in a set of classes.
    pub fn bit(self) -> u64
        ensures { result ≡ 2 ^ self.number }
    {
        1 << self.number
    }
}
