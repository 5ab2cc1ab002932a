//! Laws over all calls. The functions do nothing: their contracts are the laws.

ghost use Rattle.jb_collect.specs.Laws.{AllAreTaken, TakenUpToTheFault, SomeAreTaken, TakenOneAfterAnother, NoneAfterAFault, PartitionsAreHeardApart};

/// Which calls an analyzer took, by its answer. Without a fault: all of them, well. With a fault: the first ones up to the one
/// that it answered with the fault. Without memory: some of the first ones. Calls that continue after others that were answered
/// well are one list with them. After a fault there are no more.
pub fn calls_end_at_a_fault()
    ensures well { AllAreTaken }
    ensures fault { TakenUpToTheFault }
    ensures memory { SomeAreTaken }
    ensures one_after_another { TakenOneAfterAnother }
    ensures none_after { NoneAfterAFault }
{}

/// What is heard of a partition among all is what is heard of its attempts alone.
pub fn partitions_are_heard_apart()
    ensures { PartitionsAreHeardApart }
{}
