//! Laws of steps.

ghost use Rattle.run_step.specs.Laws.{AtomicKeepsControl, ReceiversKeepControl};

/// A step inside an atomic sequence leaves its process with exclusive control; while it can go on, no other takes a step then
/// (`run_search::laws`).
pub fn atomic_keeps_control()
    ensures alone { AtomicKeepsControl }
    ensures receivers { ReceiversKeepControl }
{}
