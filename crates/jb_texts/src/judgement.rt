//! What was found of a plan and of its certificate.

ghost use Rattle.std.specs.Prelude.{◌≡◌};
ghost use Rattle.jb_texts.specs.CheckText.{certificate_word, check_status};

use jb_cert::PlanFault;
use std::fmt;

/// What was found of a plan and of its certificate.
#[derive(Clone, Copy, Debug, PartialEq, Eq)]
pub struct Judgement {
    /// The plan's first fault, or `None` if it has no fault.
    pub fault: Option<PlanFault>,
    /// Whether the certificate holds for the plan's number of rounds.
    pub certified: bool,
}

impl Judgement {
    /// The exit status: 0 if the plan has no fault and its certificate holds, else 1.
    pub fn status(self) -> u8
        ensures { result ≡ check_status self }
    {
        match self.fault {
            None if self.certified => 0,
            _ => 1,
        }
    }
}

fn certificate_name(certified: bool) -> &'static str
    ensures { result.now ≡ certificate_word certified }
{
    if certified { "yes" } else { "no" }
}

/// Two lines, on the plan and on the certificate.
impl fmt::Display for Judgement {
    ghost use Rattle.std.specs.Prelude.{Some};
    ghost use Rattle.jb_texts.specs.CheckText.{check_text};

    ghost output = { λ found. Some (check_text found) };

    #[tactic(auto, unfolding(crate::specs::CheckText::check_text))]
    fn fmt<W: fmt::Write>(&self, f: &mut fmt::Formatter<W>) -> fmt::Result {
        let certificate = certificate_name(self.certified);
        match self.fault {
            None => write!(f, "plan lawful\ncertificate {certificate}\n"),
            Some(fault) => write!(f, "plan {fault}\ncertificate {certificate}\n"),
        }
    }
}
