//! Laws over every load. The functions do nothing: their contracts are the laws.
ghost use Rattle.jb_cert.specs.WrongPlans.{FirstFaultSays, HasLaneOutOfRange, HasMissing, HasOutOfOrder, HasStranger, HasTwiceInRound};
ghost use Rattle.jb_cert.specs.Laws.{BoundIsLeast, BoundIsCertified, CertifiedIsShortest, CertifiesWhatHolds, LeastPlanMeans, WrapAroundIsBound, WrapAroundIsLeast, SlotsAreKnown, LanesAreFound, PartitionsRise, PlacesLieRound};

use crate::plans::PlanFault;

/// McNaughton's bound is the number of rounds of a shortest valid plan, and its certificate holds.
pub fn bound_is_least()
    ensures least { BoundIsLeast }
    ensures certified { BoundIsCertified }
{}

/// If a certificate holds, no valid plan is shorter. The test of a certificate answers yes exactly if it holds. The test
/// of a least plan answers yes exactly if the certificate holds and the number of rounds is the least one.
pub fn tests_are_exact()
    ensures shortest { CertifiedIsShortest }
    ensures certifies { CertifiesWhatHolds }
    ensures least { LeastPlanMeans }
{}

/// McNaughton's wrap-around is a shortest valid plan, and each of its slots has a chunk of the load.
pub fn wrap_around_is_least()
    ensures bound { WrapAroundIsBound }
    ensures least { WrapAroundIsLeast }
    ensures known { SlotsAreKnown }
{}

/// In a round of the wrap-around, a search by lane finds the lane's slot, if it has one. The partitions rise with the lanes.
pub fn lanes_are_found()
    ensures found { LanesAreFound }
    ensures rise { PartitionsRise }
{}

/// In the row of all chunks, the partition at a place is the one whose chunks lie round it.
pub fn places_lie_round()
    ensures { PlacesLieRound }
{}

/// What each first fault of a plan says of the plan. A lane is not below the number of threads. A slot is of a chunk that
/// doesn't exist. A lane or a partition comes twice in a round. A chunk of some round is in an earlier round too, or some
/// earlier chunk of its partition is in no earlier round. A chunk of the load is in no round.
pub fn faults_are_there()
    ensures lane_range { FirstFaultSays PlanFault.LaneRange (λ counts threads rounds. HasLaneOutOfRange threads rounds) }
    ensures stranger { FirstFaultSays PlanFault.Stranger (λ counts threads rounds. HasStranger counts rounds) }
    ensures twice_in_round { FirstFaultSays PlanFault.TwiceInRound (λ counts threads rounds. HasTwiceInRound rounds) }
    ensures out_of_order { FirstFaultSays PlanFault.OutOfOrder (λ counts threads rounds. HasOutOfOrder rounds) }
    ensures missing { FirstFaultSays PlanFault.Missing (λ counts threads rounds. HasMissing counts rounds) }
{}
