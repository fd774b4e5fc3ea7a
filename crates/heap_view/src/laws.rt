//! The laws, each as the contract of a function that does nothing.
ghost use Rattle.heap_view.specs.Laws.{ClosuresAgree, MarkedClosuresAgree};

/// An object is in the marker's closure of the objects of some births exactly if it is in the heap's closure of these
/// births.
#[tactic(auto, using(crate::proofs::Closures::agreeing))]
pub fn closures_agree()
    ensures { ClosuresAgree }
{}

/// Where no two objects have one birth, an object is in the marker's closure of the marks exactly if it is in the
/// heap's closure of the births of marked objects.
#[tactic(auto, using(crate::proofs::Closures::agreeing))]
pub fn marked_closures_agree()
    ensures { MarkedClosuresAgree }
{}
